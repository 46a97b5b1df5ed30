ghost use Rattle.std.specs.Prelude.{◌≡◌};
ghost use Rattle.ahci_replay.specs.declared.script_fault.ScriptFault.TheVariants as the-fault;

use std::alloc::AllocError;
use streams::OutputFailed;

/// Why a script ends before its last line.
#[derive(Clone, Copy, Debug, PartialEq, Eq)]
pub enum ScriptFault {
    /// A line that is no line of the language, or isn't allowed where it is.
    Line(u64),
    /// A read failed, or the input is longer than its limit.
    Read,
    /// A write or a flush failed, or a write took no byte.
    Write,
    /// The system gave no memory.
    OutOfMemory,
}

impl ScriptFault {
    ghost use Rattle.std.specs.Prelude.{◌≡◌};
    ghost use Rattle.ahci_replay.specs.Fault.{is_of_output};

    /// Whether the output takes no more bytes.
    pub fn is_of_output(self) -> bool
        ensures { result ≡ is_of_output self }
    {
        matches!(self, ScriptFault::Write)
    }
}

impl From<OutputFailed> for ScriptFault {
    ghost from_gives = { λ _ fault. fault ≡ the-fault.Write };

    fn from(_failed: OutputFailed) -> ScriptFault {
        ScriptFault::Write
    }
}

impl From<AllocError> for ScriptFault {
    ghost from_gives = { λ _ fault. fault ≡ the-fault.OutOfMemory };

    fn from(_refused: AllocError) -> ScriptFault {
        ScriptFault::OutOfMemory
    }
}
