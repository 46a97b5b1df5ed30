use crate::fault::SettleFault;
use std::alloc::AllocError;
use tag_board::BoardFault;

/// Why a run gave up its port. `NotFresh` and `BadJob` are found first, in this order, before a thread starts; `Lost`, `Foreign`
/// and `Unsettled` after all workers have ended, in this order. `OutOfMemory` is found wherever a growth was refused, and before
/// `Lost` where it stopped a worker.
#[derive(Clone, Copy, Debug, PartialEq, Eq)]
pub enum RunFault {
    /// The port's journal isn't empty.
    NotFresh,
    /// The least job whose command can't be issued: no sectors, too many or not whole ones, or an LBA past 48 bits.
    BadJob(usize),
    /// A growth was refused.
    OutOfMemory,
    /// The least job that the port refused in a way that the driver's own protocol excludes.
    Lost(usize),
    /// The port at the end doesn't have the starting image, the depth and the first number of the one handed in, or its journal has
    /// an entry that no worker adds, or a slot that isn't free.
    Foreign,
    /// The run isn't settled.
    Unsettled(SettleFault),
}

impl From<AllocError> for RunFault {
    ghost use Rattle.std.specs.Prelude.{◌≡◌};
    ghost use Rattle.ahci_driver.specs.declared.run_fault.RunFault.TheVariants as the-fault;

    ghost from_gives = { λ _ fault. fault ≡ the-fault.OutOfMemory };

    fn from(_refused: AllocError) -> RunFault {
        RunFault::OutOfMemory
    }
}

impl From<BoardFault> for RunFault {
    ghost use Rattle.std.specs.Prelude.{◌≡◌};
    ghost use Rattle.ahci_driver.specs.declared.run_fault.RunFault.TheVariants as the-fault;

    ghost from_gives = { λ _ fault. fault ≡ the-fault.OutOfMemory };

    fn from(fault: BoardFault) -> RunFault {
        match fault {
            BoardFault::OutOfMemory => RunFault::OutOfMemory,
        }
    }
}
