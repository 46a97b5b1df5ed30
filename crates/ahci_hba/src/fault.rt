use ahci_port::ResumeFault;
use std::alloc::AllocError;

/// Why the controller does not take a step.
#[derive(Clone, Copy, Debug, PartialEq, Eq)]
pub enum HbaFault {
    /// The step is not possible now.
    NotReady,
    /// An allocation failed.
    OutOfMemory,
}

impl From<AllocError> for HbaFault {
    ghost use Rattle.std.specs.Prelude.{◌≡◌};
    ghost use Rattle.ahci_hba.specs.declared.fault.HbaFault.TheVariants as the-fault;

    ghost from_gives = { λ _ fault. fault ≡ the-fault.OutOfMemory };

    fn from(_refused: AllocError) -> HbaFault {
        HbaFault::OutOfMemory
    }
}

/// Why no other disk is plugged in. The cases are tested in this order.
#[derive(Clone, Copy, Debug, PartialEq, Eq)]
pub enum PlugFault {
    /// A disk is plugged in.
    Occupied,
    /// No port goes on over the disk: its size, the queue depth, or the number of the next entry, which is over 2^63; or an allocation failed.
    Disk(ResumeFault),
}

impl From<ResumeFault> for PlugFault {
    ghost use Rattle.std.specs.Prelude.{◌≡◌};
    ghost use Rattle.ahci_hba.specs.declared.fault.PlugFault.TheVariants as the-fault;

    ghost from_gives = { λ fault plugging. plugging ≡ the-fault.Disk fault };

    fn from(fault: ResumeFault) -> PlugFault {
        PlugFault::Disk(fault)
    }
}
