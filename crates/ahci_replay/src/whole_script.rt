//! A whole script, from its reader to its writer.

ghost use Rattle.std.specs.Prelude.{◌≡◌, [], IfErr, None, OnOk};
ghost use Rattle.streams.specs.Ends.{with_flush};
ghost use Rattle.ahci_replay.specs.Transcript.{ReadsTo, Replayed, ReplayedTo, WritesTo, answers_alone};

use crate::answer_writer::{AnswerWriter, AnswersAlone};
use crate::script::Script;
use crate::script_fault::ScriptFault;
use std::alloc::Allocator;
use std::io::{Read, Write};
use std::mem;
use streams::{Reads, Writes, take_lines};

/// Runs the script that the reader gives, and writes an answer for each command. The first fault
/// in the order of the input ends it, after the answers to the lines before.
pub fn replay<R: Read, W: Write, A: Allocator + Copy>(
    alloc: A,
    reader: &mut R,
    writer: &mut W,
) -> Result<(), ScriptFault>
    ensures ok { OnOk result (Replayed answers_alone (R.remaining reader.old) (R.remaining reader.new)
        (W.contents writer.old) (W.contents writer.new)) }
    ensures err { IfErr result
        (ReplayedTo answers_alone (R.remaining reader.old) (R.remaining reader.new)
        (W.contents writer.old) (W.contents writer.new)) }
{
    replay_with(
        alloc,
        &AnswersAlone,
        reader,
        &mut Reads::new(),
        writer,
        &mut Writes::new(),
    )
}

/// The same, with what `answers` writes of each command in the place of its answer. `reads` and `writes` record how the reads and
/// writes went: where none failed, what was written is flushed, also at a fault of the script.
pub fn replay_with<T: AnswerWriter<A>, R: Read, W: Write, A: Allocator + Copy>(
    alloc: A,
    answers: &T,
    reader: &mut R,
    reads: &mut Reads,
    writer: &mut W,
    writes: &mut Writes,
) -> Result<(), ScriptFault>
    ensures ok { OnOk result (Replayed T.telling (R.remaining reader.old) (R.remaining reader.new)
        (W.contents writer.old) (W.contents writer.new)) }
    ensures err { IfErr result
        (ReplayedTo T.telling (R.remaining reader.old) (R.remaining reader.new)
        (W.contents writer.old) (W.contents writer.new)) }
    ensures flushed { OnOk result (writes.new ≡ with_flush writes.old) }
    ensures writes { IfErr result (WritesTo writes.old writes.new) }
    ensures unfailed { OnOk result (reads.new.failed ≡ reads.old.failed) }
    ensures reads { IfErr result (ReadsTo reads.old reads.new) }
{
    let mut script = Script::new(alloc, answers, mem::replace(writes, Writes::new()));
    let outcome = replay_script(alloc, &mut script, reader, reads, writer);
    *writes = script.writes;
    outcome
}

/// Runs a script of which nothing came yet, and returns how its reads and writes went.
fn replay_script<'t, T: AnswerWriter<A>, R: Read, W: Write, A: Allocator + Copy>(
    alloc: A,
    script: &mut Script<'t, T, A>,
    reader: &mut R,
    reads: &mut Reads,
    writer: &mut W,
) -> Result<(), ScriptFault>
    requires new { (script.old.output ≡ []) × (script.old.session ≡ None) }
    ensures ok { OnOk result (Replayed T.telling (R.remaining reader.old) (R.remaining reader.new)
        (W.contents writer.old) (W.contents writer.new)) }
    ensures err { IfErr result
        (ReplayedTo T.telling (R.remaining reader.old) (R.remaining reader.new)
        (W.contents writer.old) (W.contents writer.new)) }
    ensures flushed { OnOk result (script.new.writes ≡ with_flush script.old.writes) }
    ensures writes { IfErr result (WritesTo script.old.writes script.new.writes) }
    ensures unfailed { OnOk result (reads.new.failed ≡ reads.old.failed) }
    ensures reads { IfErr result (ReadsTo reads.old reads.new) }
{
    match take_lines(alloc, reader, reads, script, writer) {
        Ok(()) => Ok(script.output.send(writer, &mut script.writes)?),
        Err(stopped) => {
            let fault = stopped.fault_or(ScriptFault::Read, ScriptFault::OutOfMemory);
            if fault.is_of_output() {
                return Err(fault);
            }
            script.output.send(writer, &mut script.writes)?;
            Err(fault)
        }
    }
}
