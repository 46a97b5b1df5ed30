ghost use Rattle.std.specs.Prelude.{◌≡◌};
ghost use Rattle.ahci_jobs.specs.declared.jobs_fault.JobsFault.TheVariants as the-fault;

use std::alloc::AllocError;
use streams::OutputFailed;

/// Why a job list is not done to its end.
#[derive(Clone, Copy, Debug, PartialEq, Eq)]
pub enum JobsFault {
    /// A line that is no line of the language.
    Line(u64),
    /// A job with a bad count or address.
    Job(u64),
    /// A read failed, or the input is longer than its limit.
    Read,
    /// A write or a flush failed, or a write took no byte.
    Write,
    /// A run whose answers its journal doesn't bear out.
    Unsettled,
    /// A job that the port refused against its own protocol.
    Lost(u64),
    /// The system gave no memory.
    OutOfMemory,
}

impl From<OutputFailed> for JobsFault {
    ghost from_gives = { λ _ fault. fault ≡ the-fault.Write };

    fn from(_failed: OutputFailed) -> JobsFault {
        JobsFault::Write
    }
}

impl From<AllocError> for JobsFault {
    ghost from_gives = { λ _ fault. fault ≡ the-fault.OutOfMemory };

    fn from(_refused: AllocError) -> JobsFault {
        JobsFault::OutOfMemory
    }
}
