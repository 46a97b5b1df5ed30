use port_refusal::{Refusal, same_name};
use std::alloc::AllocError;
use thiserror::Error;

/// Why no disk was made. The cases are tested in this order.
#[derive(Clone, Copy, Debug, PartialEq, Eq, Error)]
#[error("{}", Refusal::from(*self))]
pub enum DiskFault {
    /// The image is not 1 to 131,072 whole sectors of 512 bytes, or the store has no sectors or more than 2^32 - 1.
    BadSize,
    /// The depth is not 1 to 32.
    BadDepth,
    /// Room for the image or the journal was refused.
    OutOfMemory,
}

impl From<AllocError> for DiskFault {
    ghost use Rattle.std.specs.Prelude.{◌≡◌};
    ghost use Rattle.ncq_core.specs.declared.disk_fault.DiskFault.TheVariants as the-fault;

    ghost from_gives = { λ _ fault. fault ≡ the-fault.OutOfMemory };

    fn from(_refused: AllocError) -> DiskFault {
        DiskFault::OutOfMemory
    }
}

impl From<DiskFault> for Refusal {
    ghost use Rattle.std.specs.Prelude.{◌≡◌};
    ghost use Rattle.ncq_core.specs.Refusals.{of_disk};

    ghost from_gives = { λ fault refusal. refusal ≡ of_disk fault };

    fn from(fault: DiskFault) -> Refusal {
        same_name!(fault, DiskFault: BadSize, BadDepth, OutOfMemory)
    }
}
