//! A job list that is run, with a chooser by its name.

ghost use Rattle.std.specs.Prelude.{◌≡◌, ◌≤◌, IfErr, OnOk};
ghost use Rattle.ahci_cli.specs.Faults.{IsFaultOf, of_jobs};
ghost use Rattle.ahci_cli.specs.Program.{ReadsFor, WritesFor, form_of};
ghost use Rattle.ahci_jobs.specs.RunJobs.{EndsRun, RunsJobs};
ghost use Rattle.ahci_jobs.specs.Size.{size_of};

use crate::fault::CliFault;
use crate::picked::Picked;
use ahci_args::{Pick, RunForm};
use ahci_jobs::{Form, RunSize, run_jobs_with};
use std::alloc::Allocator;
use std::io::{Read, Write};
use std::sync::Wait;
use std::thread::Threads;
use streams::{Reads, Writes};

/// Does the jobs that the reader gives, as `ahci_jobs::run_jobs` does, with the chooser that is picked, and writes the text of the
/// run.
pub fn run_jobs<H, R, W, A>(
    rt: &H,
    alloc: A,
    workers: u32,
    depth: u32,
    sectors: u32,
    pick: Pick,
    reader: &mut R,
    writer: &mut W,
) -> Result<(), CliFault>
where
    H: Threads + Wait + Sync,
    R: Read,
    W: Write,
    A: Allocator + Clone + Send + Sync,
    requires some { 1 ≤ workers }
    requires most { workers ≤ 32 }
    requires slots { 1 ≤ depth }
    requires deep { depth ≤ 32 }
    requires room { 1 ≤ sectors }
    requires limit { sectors ≤ 131072 }
    ensures ok { OnOk result (RunsJobs Form.Text (size_of workers depth sectors) (R.remaining reader.old) (R.remaining reader.new)
        (W.contents writer.old) (W.contents writer.new)) }
    ensures err { IfErr result (IsFaultOf of_jobs (EndsRun Form.Text (size_of workers depth sectors) (R.remaining reader.old) (R.remaining reader.new)
        (W.contents writer.old) (W.contents writer.new))) }
{
    let size = RunSize::new(workers, depth, sectors);
    let (reads, writes) = (&mut Reads::new(), &mut Writes::new());
    run_in_form(
        rt,
        alloc,
        size,
        pick,
        Form::Text,
        reader,
        reads,
        writer,
        writes,
    )
}

/// Does the jobs that the reader gives with the chooser that is picked, and writes the run in this form; `reads` and `writes` record
/// how the reads and writes went.
pub(crate) fn run_in_form<H, R, W, A>(
    rt: &H,
    alloc: A,
    size: RunSize,
    pick: Pick,
    form: Form,
    reader: &mut R,
    reads: &mut Reads,
    writer: &mut W,
    writes: &mut Writes,
) -> Result<(), CliFault>
where
    H: Threads + Wait + Sync,
    R: Read,
    W: Write,
    A: Allocator + Clone + Send + Sync,
    ensures ok { OnOk result (RunsJobs form size (R.remaining reader.old) (R.remaining reader.new)
        (W.contents writer.old) (W.contents writer.new)) }
    ensures err { IfErr result (IsFaultOf of_jobs (EndsRun form size (R.remaining reader.old) (R.remaining reader.new)
        (W.contents writer.old) (W.contents writer.new))) }
    ensures reads { ReadsFor reads.old reads.new result }
    ensures writes { WritesFor writes.old writes.new result }
{
    let chooser = Picked { pick };
    Ok(run_jobs_with(
        rt, alloc, size, chooser, form, reader, reads, writer, writes,
    )?)
}

/// The form of `ahci_jobs` that a command line asks for.
pub(crate) fn form_of(form: RunForm) -> Form
    ensures { result ≡ form_of form }
{
    match form {
        RunForm::Text => Form::Text,
        RunForm::Json => Form::Json,
        RunForm::Journal => Form::Journal,
        RunForm::Image => Form::Image,
    }
}
