//! A job list that is done on a new disk, and whose run is written.

ghost use Rattle.std.specs.Prelude.{◌≡◌, None, map, vec_len, IfErr, IfOk, OnOk};
ghost use Rattle.ncq_journal.specs.Work.{work_of};
ghost use Rattle.ahci_driver.specs.Received.{received_of};
ghost use Rattle.ahci_driver.specs.Running.{HasRun, IsFirstBad, IsGivenUp};
ghost use Rattle.streams.specs.Ends.{with_flush};
ghost use Rattle.ahci_jobs.specs.Faults.{RunReads, RunWrites};
ghost use Rattle.ahci_jobs.specs.RunJobs.{EndsRun, RunsJobs, blank_port, fault_of};

use crate::form::Form;
use crate::job_list::listed;
use crate::jobs_fault::JobsFault;
use crate::run_size::RunSize;
use crate::text::text_of;
use ahci_driver::{Chooser, Open, RunEnd, RunFault, run};
use ahci_port::Port;
use ncq_core::{DiskFault, SECTOR};
use ncq_journal::Op;
use std::alloc::Allocator;
use std::io::{Read, Write};
use std::sync::Wait;
use std::thread::Threads;
use streams::{Reads, Writes};

/// The program's fault, where the run was given up. A new port is fresh, and each job was judged as it was read: those two
/// faults don't happen here.
fn given_up(fault: RunFault) -> JobsFault
    ensures { result ≡ fault_of fault }
{
    match fault {
        RunFault::OutOfMemory => JobsFault::OutOfMemory,
        RunFault::Lost(job) => JobsFault::Lost(job as u64),
        RunFault::NotFresh | RunFault::BadJob(_) | RunFault::Foreign | RunFault::Unsettled(_) => {
            JobsFault::Unsettled
        }
    }
}

/// A new port over a disk of zeros.
fn blank<A: Allocator + Clone>(alloc: A, size: RunSize) -> Result<Port<A>, RunFault>
    ensures port { IfOk result (λ port. port ≡ blank_port size) }
    ensures fault { IfErr result (λ fault. fault ≡ RunFault.OutOfMemory) }
{
    let image = vec![in alloc.clone()?; 0; size.sectors() as usize * SECTOR]?;
    match Port::new(alloc, image, size.depth()) {
        Ok(port) => Ok(port),
        Err(DiskFault::OutOfMemory) => Err(RunFault::OutOfMemory),
        Err(_) => unreachable!(), // a run's sizes are a disk's
    }
}

/// A new port, and a chooser for each worker.
fn crew<C, A>(alloc: &A, size: RunSize, chooser: C) -> Result<(Port<A>, Vec<C, A>), RunFault>
where
    C: Copy + Drop,
    A: Allocator + Clone,
    ensures port { IfOk result (λ crew. crew.0 ≡ blank_port size) }
    ensures choosers { IfOk result (λ crew. vec_len crew.1 ≡ size.workers) }
    ensures fault { IfErr result (λ fault. fault ≡ RunFault.OutOfMemory) }
{
    let port = blank(alloc.clone()?, size)?;
    let choosers = vec![in alloc.clone()?; chooser; size.workers() as usize]?;
    Ok((port, choosers))
}

/// Does the jobs on a new port. A fault is the run's own.
fn done<H, C, A>(
    rt: &H,
    alloc: A,
    size: RunSize,
    chooser: C,
    jobs: &[Op<A>],
) -> Result<RunEnd<A>, RunFault>
where
    H: Threads + Wait + Sync,
    C: Chooser + Copy + Send + Drop,
    A: Allocator + Clone + Send + Sync,
    requires jobs { IsFirstBad (map work_of jobs.now) None }
    ensures ok { IfOk result (λ end. HasRun (blank_port size) end.port (map work_of jobs.now) (map received_of end.replies.items) size.workers) }
    ensures fault { IfErr result (IsGivenUp (blank_port size) (map work_of jobs.now)) }
{
    let (port, choosers) = crew(&alloc, size, chooser)?;
    run(rt, alloc, port, jobs, size.workers(), choosers, &Open)
}

/// Does the jobs that the reader gives on a disk of zeros, by workers on threads, and writes the run in this form: as text, a
/// line for each job, in the order of the jobs, and then one for each sector that isn't all zero, rising. All jobs are read and
/// judged before the first is done, and all that is written is made before any of it is written. The chooser decides what the
/// device does next.
///
/// # Errors
/// `Line` for the first line that is not understood or too long, `Job` for the first job with a bad count or address,
/// `Read` where the input fails or is too long, whichever comes first in the input; `Unsettled` and `Lost` for a run that
/// its journal doesn't bear out; `OutOfMemory`: all these before anything is written. `Write` where the output fails.
pub fn run_jobs<H, R, W, C, A>(
    rt: &H,
    alloc: A,
    size: RunSize,
    chooser: C,
    form: Form,
    reader: &mut R,
    writer: &mut W,
) -> Result<(), JobsFault>
where
    H: Threads + Wait + Sync,
    R: Read,
    W: Write,
    C: Chooser + Copy + Send + Drop,
    A: Allocator + Clone + Send + Sync,
    ensures ok { OnOk result (RunsJobs form size (R.remaining reader.old) (R.remaining reader.new)
        (W.contents writer.old) (W.contents writer.new)) }
    ensures err { IfErr result (EndsRun form size (R.remaining reader.old) (R.remaining reader.new)
        (W.contents writer.old) (W.contents writer.new)) }
{
    run_jobs_with(
        rt,
        alloc,
        size,
        chooser,
        form,
        reader,
        &mut Reads::new(),
        writer,
        &mut Writes::new(),
    )
}

/// The same, and `reads` and `writes` record how the reads and writes went.
///
/// # Errors
/// Those of `run_jobs`.
pub fn run_jobs_with<H, R, W, C, A>(
    rt: &H,
    alloc: A,
    size: RunSize,
    chooser: C,
    form: Form,
    reader: &mut R,
    reads: &mut Reads,
    writer: &mut W,
    writes: &mut Writes,
) -> Result<(), JobsFault>
where
    H: Threads + Wait + Sync,
    R: Read,
    W: Write,
    C: Chooser + Copy + Send + Drop,
    A: Allocator + Clone + Send + Sync,
    ensures ok { OnOk result (RunsJobs form size (R.remaining reader.old) (R.remaining reader.new)
        (W.contents writer.old) (W.contents writer.new)) }
    ensures err { IfErr result (EndsRun form size (R.remaining reader.old) (R.remaining reader.new)
        (W.contents writer.old) (W.contents writer.new)) }
    ensures flushed { OnOk result (writes.new ≡ with_flush writes.old) }
    ensures writes { IfErr result (RunWrites writes.old writes.new) }
    ensures unfailed { OnOk result (reads.new.failed ≡ reads.old.failed) }
    ensures reads { IfErr result (RunReads reads.old reads.new) }
{
    let jobs = listed(alloc.clone()?, reader, reads)?;
    match done(rt, alloc.clone()?, size, chooser, &jobs) {
        Ok(end) => {
            let text = text_of(alloc, form, size.workers(), &end)?;
            Ok(writes.write_whole(writer, &text)?)
        }
        Err(fault) => Err(given_up(fault)),
    }
}
