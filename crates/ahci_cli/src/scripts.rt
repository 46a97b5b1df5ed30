//! A script that is run, traced, judged or drawn; and a job list that is judged.

ghost use Rattle.std.specs.Prelude.{◌≡◌, IfErr, OnOk};
ghost use Rattle.ahci_cli.specs.Faults.{IsFaultOf, of_script};
ghost use Rattle.ahci_cli.specs.Program.{Does, ReadsFor, WritesFor, form_of_check, input, judge_of, output};
ghost use Rattle.ahci_replay.specs.Transcript.{Replayed, ReplayedTo, answers_alone};

use crate::fault::CliFault;
use ahci_args::Asked;
use ahci_check::{Form, Judge, Place, check_with};
use ahci_replay::AnswersAlone;
use std::alloc::{Allocator, Global};
use std::io::{Read, Write};
use streams::{Reads, Writes};

/// Runs the script that the reader gives, and writes an answer for each command, as `ahci_replay::replay` does.
pub fn replay<R: Read, W: Write, A: Allocator + Copy>(
    alloc: A,
    reader: &mut R,
    writer: &mut W,
) -> Result<(), CliFault>
    ensures ok { OnOk result (Replayed answers_alone (R.remaining reader.old) (R.remaining reader.new) (W.contents writer.old) (W.contents writer.new)) }
    ensures err { IfErr result (IsFaultOf of_script (ReplayedTo answers_alone (R.remaining reader.old) (R.remaining reader.new)
        (W.contents writer.old) (W.contents writer.new))) }
{
    replay_with(alloc, reader, &mut Reads::new(), writer, &mut Writes::new())
}

/// The same, and `reads` and `writes` record how the reads and writes went.
pub(crate) fn replay_with<R: Read, W: Write, A: Allocator + Copy>(
    alloc: A,
    reader: &mut R,
    reads: &mut Reads,
    writer: &mut W,
    writes: &mut Writes,
) -> Result<(), CliFault>
    ensures ok { OnOk result (Replayed answers_alone (R.remaining reader.old) (R.remaining reader.new) (W.contents writer.old) (W.contents writer.new)) }
    ensures err { IfErr result (IsFaultOf of_script (ReplayedTo answers_alone (R.remaining reader.old) (R.remaining reader.new)
        (W.contents writer.old) (W.contents writer.new))) }
    ensures reads { ReadsFor reads.old reads.new result }
    ensures writes { WritesFor writes.old writes.new result }
{
    Ok(ahci_replay::replay_with(alloc, &AnswersAlone, reader, reads, writer, writes)?)
}

/// Traces the script that the reader gives, as text or as JSON.
pub(crate) fn trace<R: Read, W: Write>(
    alloc: Global,
    json: bool,
    reader: &mut R,
    reads: &mut Reads,
    writer: &mut W,
    writes: &mut Writes,
) -> Result<bool, CliFault>
    ensures does { Does (Asked.Trace json) (input (R.remaining reader.old) (R.remaining reader.new) reads.old reads.new)
        (output (W.contents writer.old) (W.contents writer.new) writes.old writes.new) result }
    ensures reads { ReadsFor reads.old reads.new result }
    ensures writes { WritesFor writes.old writes.new result }
{
    if json {
        ahci_trace::trace_json_with(alloc, reader, reads, writer, writes)?;
    } else {
        ahci_trace::trace_with(alloc, reader, reads, writer, writes)?;
    }
    Ok(false)
}

/// Draws what the script that the reader gives does to the port, from one entry of the journal to another.
pub(crate) fn draw<R: Read, W: Write>(
    alloc: Global,
    from: u64,
    to: u64,
    reader: &mut R,
    reads: &mut Reads,
    writer: &mut W,
    writes: &mut Writes,
) -> Result<bool, CliFault>
    ensures does { Does (Asked.Draw from to) (input (R.remaining reader.old) (R.remaining reader.new) reads.old reads.new)
        (output (W.contents writer.old) (W.contents writer.new) writes.old writes.new) result }
    ensures reads { ReadsFor reads.old reads.new result }
    ensures writes { WritesFor writes.old writes.new result }
{
    ahci_draw::draw_with(alloc, from, to, reader, reads, writer, writes)?;
    Ok(false)
}

/// Judges the lines that the reader gives, of jobs or of a script, as text or as JSON. Whether one of them is faulty.
pub(crate) fn check<R: Read, W: Write>(
    alloc: Global,
    jobs: bool,
    json: bool,
    reader: &mut R,
    reads: &mut Reads,
    writer: &mut W,
    writes: &mut Writes,
) -> Result<bool, CliFault>
    ensures does { Does (Asked.Check jobs json) (input (R.remaining reader.old) (R.remaining reader.new) reads.old reads.new)
        (output (W.contents writer.old) (W.contents writer.new) writes.old writes.new) result }
    ensures reads { ReadsFor reads.old reads.new result }
    ensures writes { WritesFor writes.old writes.new result }
{
    let (form, judge) = (form_of_check(json), judge_of(jobs));
    Ok(check_with(alloc, form, judge, reader, reads, writer, writes)?)
}

/// How the first line is judged.
fn judge_of(jobs: bool) -> Judge
    ensures { result ≡ judge_of jobs }
{
    if jobs {
        Judge::OfJobs
    } else {
        Judge::OfScript(Place::BeforeDisk)
    }
}

/// The form of complaints that is asked for.
fn form_of_check(json: bool) -> Form
    ensures { result ≡ form_of_check json }
{
    if json { Form::Json } else { Form::Text }
}
