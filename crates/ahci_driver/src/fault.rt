use ahci_port::IssueFault;
use ahci_table::BuildFault;
use std::alloc::AllocError;

/// Why a command was not submitted. The cases are tested in this order.
#[derive(Clone, Copy, Debug, PartialEq, Eq)]
pub enum SubmitFault {
    /// Each tag was found taken when it was tried.
    NoTag,
    /// No window was built for the command, or its answer's buffer was refused.
    Build(BuildFault),
    /// The port did not issue it.
    Issue(IssueFault),
}

/// Why a pump did nothing.
#[derive(Clone, Copy, Debug, PartialEq, Eq)]
pub enum PumpFault {
    /// The port is halted, and room for its recovery was refused.
    OutOfMemory,
}

/// Why a run is not settled. The cases are tested in this order, but that `OutOfMemory` may come in place of those
/// after `Count`.
#[derive(Clone, Copy, Debug, PartialEq, Eq)]
pub enum SettleFault {
    /// There are not as many receipts as jobs.
    Count,
    /// The least receipt that is wrong: its number is not that of an Issue of its job's command, or an earlier receipt
    /// has it too, or the journal gives that request another answer, or its worker's job before was not answered by
    /// then.
    Wrong(usize),
    /// The least entry that issues a command of which there is no receipt.
    Extra(u64),
    /// A growth was refused.
    OutOfMemory,
}

impl From<AllocError> for SettleFault {
    ghost use Rattle.std.specs.Prelude.{◌≡◌};
    ghost use Rattle.ahci_driver.specs.declared.fault.SettleFault.TheVariants as the-fault;

    ghost from_gives = { λ _ fault. fault ≡ the-fault.OutOfMemory };

    fn from(_refused: AllocError) -> SettleFault {
        SettleFault::OutOfMemory
    }
}
