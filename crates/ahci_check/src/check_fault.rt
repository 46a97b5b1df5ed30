ghost use Rattle.std.specs.Prelude.{◌≡◌};
ghost use Rattle.ahci_check.specs.declared.check_fault.CheckFault.TheVariants as the-fault;

use std::alloc::AllocError;

/// Why a script was not judged to its end.
#[derive(Clone, Copy, Debug, PartialEq, Eq)]
pub enum CheckFault {
    /// A read failed, or the input is longer than its limit.
    Read,
    /// A write or a flush failed, or a write took no byte.
    Write,
    /// The system gave no memory.
    OutOfMemory,
}

impl CheckFault {
    ghost use Rattle.std.specs.Prelude.{◌≡◌};
    ghost use Rattle.ahci_check.specs.Faults.{is_of_output};

    /// Whether the output takes no more bytes.
    pub(crate) fn is_of_output(self) -> bool
        ensures { result ≡ is_of_output self }
    {
        matches!(self, CheckFault::Write)
    }
}

impl From<AllocError> for CheckFault {
    ghost from_gives = { λ _ fault. fault ≡ the-fault.OutOfMemory };

    fn from(_refused: AllocError) -> CheckFault {
        CheckFault::OutOfMemory
    }
}
