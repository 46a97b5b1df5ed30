//! The command of a job, and the jobs of a line.

ghost use Rattle.std.specs.Prelude.{◌≡◌, ◌++◌, ◌↔◌, ◌∷◌, [], length, map, IfErr, IfOk, IsTrue, OnErr, OnOk, Some};
ghost use Rattle.ahci_script.specs.Jobs.{job_line_of};
ghost use Rattle.ncq_journal.specs.Lawful.{IsProper};
ghost use Rattle.ncq_journal.specs.Work.{work_of};
ghost use Rattle.ahci_jobs.specs.JobList.{IsGood, IsLineFault, command_for, commands_of};

use crate::jobs_fault::JobsFault;
use ahci_script::{Job, JobLine, read_job};
use ncq_core::SECTOR;
use ncq_journal::{Bytes, LBA_LIMIT, MAX_COUNT, Op};
use std::alloc::{AllocError, Allocator};

/// Whether a job's command can be issued.
fn is_good(job: Job) -> bool
    ensures { IsTrue result ↔ IsProper (command_for job) }
{
    let (lba, sectors) = match job {
        Job::Write { lba, sectors, .. } | Job::Read { lba, sectors } => (lba, sectors),
    };
    sectors >= 1 && sectors <= MAX_COUNT && lba < LBA_LIMIT
}

/// The command of a job.
fn command<A: Allocator>(alloc: A, job: Job) -> Result<Op<A>, AllocError>
    ensures { IfOk result (λ op. work_of op ≡ command_for job) }
{
    match job {
        Job::Write { lba, sectors, fill } => {
            let bytes = Bytes::from_vec(vec![in alloc; fill; sectors as usize * SECTOR]?);
            Ok(Op::Write { lba, bytes })
        }
        Job::Read { lba, sectors } => Ok(Op::Read { lba, sectors }),
    }
}

/// Appends the command of a job. Count and address are compared before a byte of a write is made.
fn add_job<A: Allocator + Clone>(
    jobs: &mut Vec<Op<A>, A>,
    alloc: &A,
    job: Job,
) -> Result<(), JobsFault>
    ensures ok { OnOk result (map work_of jobs.new.items ≡ map work_of jobs.old.items ++ command_for job ∷ []) }
    ensures good { OnOk result (IsProper (command_for job)) }
    ensures err { OnErr result (jobs.new.items ≡ jobs.old.items) }
    ensures fault { IfErr result (IsLineFault (Some (JobLine.Do job)) 0 (length (map work_of jobs.old.items))) }
{
    if !is_good(job) {
        return Err(JobsFault::Job(jobs.len() as u64));
    }
    let op = command(alloc.clone()?, job)?;
    match jobs.push(op) {
        Ok(()) => Ok(()),
        Err(failed) => Err(AllocError::from(failed).into()),
    }
}

/// Appends the command that a line of the given number asks for.
pub(crate) fn add_line<A: Allocator + Clone>(
    jobs: &mut Vec<Op<A>, A>,
    alloc: &A,
    number: u64,
    line: &[u8],
) -> Result<(), JobsFault>
    ensures ok { OnOk result (map work_of jobs.new.items ≡ map work_of jobs.old.items ++ commands_of (job_line_of line.now)) }
    ensures good { OnOk result (IsGood (job_line_of line.now)) }
    ensures err { OnErr result (jobs.new.items ≡ jobs.old.items) }
    ensures fault { IfErr result (IsLineFault (job_line_of line.now) number (length (map work_of jobs.old.items))) }
{
    match read_job(line) {
        Err(_) => Err(JobsFault::Line(number)),
        Ok(JobLine::Skip) => Ok(()),
        Ok(JobLine::Do(job)) => add_job(jobs, alloc, job),
    }
}
