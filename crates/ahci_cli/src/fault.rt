//! Why the program ends early: texts, exit statuses, and the faults of its parts as the program's own.

ghost use Rattle.std.specs.Prelude.{◌≡◌};
ghost use Rattle.ahci_cli.specs.Faults.{of_check, of_jobs, of_page, of_script};

use ahci_check::CheckFault;
use ahci_jobs::JobsFault;
use ahci_replay::ScriptFault;
use ata_pages::PageFault;
use thiserror::Error;

/// Why the program ends early. The text is what standard error shows.
#[derive(Clone, Copy, Debug, PartialEq, Eq, Error)]
pub enum CliFault {
    /// A line of a script that is no line of the language, or isn't allowed where it is.
    #[error("ahci: line {0}: not understood")]
    Line(u64),
    /// A job with a bad count or address.
    #[error("ahci: job {0}: bad count or address")]
    Job(u64),
    /// A read failed, or the input is longer than its limit.
    #[error("ahci: input failed")]
    Read,
    /// A write or a flush failed, or a write took no byte.
    #[error("ahci: output failed")]
    Write,
    /// A check that could not read its lines, as `Read` says.
    #[error("ahci: input failed")]
    CheckRead,
    /// A check that could not write what it found, as `Write` says.
    #[error("ahci: output failed")]
    CheckWrite,
    /// A run whose answers its journal doesn't bear out.
    #[error("ahci: run not settled")]
    Unsettled,
    /// A job that the port refused against its own protocol.
    #[error("ahci: run not settled")]
    Lost(u64),
    /// The system gave no memory.
    #[error("ahci: out of memory")]
    OutOfMemory,
}

impl CliFault {
    ghost use Rattle.std.specs.Prelude.{◌≡◌};
    ghost use Rattle.ahci_cli.specs.Fault.{status_of};

    /// The program's exit status: 3 for want of memory, 4 where a check could not read or write (its 1 is that of a faulty line),
    /// else 1.
    pub fn status(self) -> u8
        ensures { result ≡ status_of self }
    {
        match self {
            CliFault::OutOfMemory => 3,
            CliFault::CheckRead | CliFault::CheckWrite => 4,
            _ => 1,
        }
    }
}

impl From<ScriptFault> for CliFault {
    ghost from_gives = { λ script fault. fault ≡ of_script script };

    fn from(script: ScriptFault) -> CliFault {
        match script {
            ScriptFault::Line(line) => CliFault::Line(line),
            ScriptFault::Read => CliFault::Read,
            ScriptFault::Write => CliFault::Write,
            ScriptFault::OutOfMemory => CliFault::OutOfMemory,
        }
    }
}

impl From<CheckFault> for CliFault {
    ghost from_gives = { λ check fault. fault ≡ of_check check };

    fn from(check: CheckFault) -> CliFault {
        match check {
            CheckFault::Read => CliFault::CheckRead,
            CheckFault::Write => CliFault::CheckWrite,
            CheckFault::OutOfMemory => CliFault::OutOfMemory,
        }
    }
}

impl From<JobsFault> for CliFault {
    ghost from_gives = { λ jobs fault. fault ≡ of_jobs jobs };

    fn from(jobs: JobsFault) -> CliFault {
        match jobs {
            JobsFault::Line(line) => CliFault::Line(line),
            JobsFault::Job(job) => CliFault::Job(job),
            JobsFault::Read => CliFault::Read,
            JobsFault::Write => CliFault::Write,
            JobsFault::Unsettled => CliFault::Unsettled,
            JobsFault::Lost(job) => CliFault::Lost(job),
            JobsFault::OutOfMemory => CliFault::OutOfMemory,
        }
    }
}

impl From<PageFault> for CliFault {
    ghost from_gives = { λ page fault. fault ≡ of_page page };

    fn from(page: PageFault) -> CliFault {
        match page {
            PageFault::Write => CliFault::Write,
            PageFault::OutOfMemory => CliFault::OutOfMemory,
        }
    }
}
