//! The job list: its lines, read and judged.

ghost use Rattle.std.specs.Prelude.{◌≡◌, map, IfErr, IfOk, OnOk};
ghost use Rattle.ncq_journal.specs.Work.{work_of};
ghost use Rattle.ahci_jobs.specs.Faults.{RunReads};
ghost use Rattle.ahci_jobs.specs.JobList.{IsListFault, IsListed};

use crate::jobs_fault::JobsFault;
use crate::parse::add_line;
use ncq_journal::Op;
use std::alloc::{AllocError, Allocator};
use std::io::Read;
use streams::{Found, Reads, TakesLines, take_lines};

/// The commands of the jobs of a list, as far as it was read.
#[derive(Drop)]
struct JobList<A: Allocator> {
    alloc: A,
    jobs: Vec<Op<A>, A>,
}

impl<A: Allocator + Clone> JobList<A> {
    ghost use Rattle.std.specs.Prelude.{◌≡◌, [], IfOk};

    /// No line was read.
    fn new(alloc: A) -> Result<Self, AllocError>
        ensures { IfOk result (λ l. l.jobs.items ≡ []) }
    {
        Ok(JobList {
            jobs: Vec::new(alloc.clone()?),
            alloc,
        })
    }
}

impl<A: Allocator + Clone> TakesLines<()> for JobList<A> {
    ghost use Rattle.std.specs.Prelude.{map};
    ghost use Rattle.ncq_journal.specs.Work.{work_of};
    ghost use Rattle.ahci_jobs.specs.JobList.{Refuses, Takes};

    type Fault = JobsFault;

    ghost Takes = { λ old number found new. Takes (map work_of old.0.jobs.items) found (map work_of new.0.jobs.items) };

    ghost Refuses = { λ old number found fault new. Refuses (map work_of old.0.jobs.items) number found fault };

    fn take(&mut self, number: u64, found: Found<'_>, _output: &mut ()) -> Result<(), JobsFault> {
        match found {
            Found::Line(line) => add_line(&mut self.jobs, &self.alloc, number, line),
            Found::TooLong => Err(JobsFault::Line(number)),
            Found::Unfinished => Ok(()),
        }
    }
}

/// The commands of all jobs of an input. They are judged as they are read: the first fault in the order of the input ends
/// the list.
pub(crate) fn listed<R: Read, A: Allocator + Clone>(
    alloc: A,
    reader: &mut R,
    reads: &mut Reads,
) -> Result<Vec<Op<A>, A>, JobsFault>
    ensures ok { IfOk result (λ jobs. IsListed (R.remaining reader.old) (R.remaining reader.new) (map work_of jobs.items)) }
    ensures err { IfErr result (IsListFault (R.remaining reader.old) (R.remaining reader.new)) }
    ensures unfailed { OnOk result (reads.new.failed ≡ reads.old.failed) }
    ensures reads { IfErr result (RunReads reads.old reads.new) }
{
    let mut list = JobList::new(alloc.clone()?)?;
    match take_lines(alloc, reader, reads, &mut list, &mut ()) {
        Ok(()) => Ok(list.jobs),
        Err(stopped) => Err(stopped.fault_or(JobsFault::Read, JobsFault::OutOfMemory)),
    }
}
