use port_refusal::{Refusal, same_name};
use thiserror::Error;

/// Why a register access is refused, in the order in which the rules are tested.
#[derive(Clone, Copy, PartialEq, Eq, Debug, Error)]
#[error("{}", Refusal::from(*self))]
pub enum RegFault {
    /// The offset isn't a multiple of 4.
    Unaligned,
    /// This model has no register at the offset.
    NoSuchRegister,
    /// A write of PxSACT or PxCI while PxCMD.ST is 0.
    NotStarted,
    /// A write that sets PxCMD.ST while PxCMD.FRE is 0, or is 0 in the value.
    NotReceiving,
    /// A write that would clear PxCMD.FRE, or move PxCLB or PxFB, while PxCMD.ST is 1.
    Running,
}

impl From<RegFault> for Refusal {
    ghost use Rattle.std.specs.Prelude.{◌≡◌};
    ghost use Rattle.ahci_regs.specs.Refusals.{of_register};

    ghost from_gives = { λ fault refusal. refusal ≡ of_register fault };

    fn from(fault: RegFault) -> Refusal {
        same_name!(fault, RegFault: Unaligned, NoSuchRegister, NotStarted, NotReceiving, Running)
    }
}
