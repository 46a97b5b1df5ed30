//! A script that is run and traced: as lines, or as objects of JSON.

ghost use Rattle.std.specs.Prelude.{IfErr, OnOk, ◌≡◌};
ghost use Rattle.ahci_replay.specs.Transcript.{ReadsBefore, ReadsTo, Replayed, ReplayedTo, WritesTo};
ghost use Rattle.streams.specs.Ends.{with_flush};
ghost use Rattle.ahci_trace.specs.Closing.{TracedTo};
ghost use Rattle.ahci_trace.specs.Json.{json_line};
ghost use Rattle.ahci_trace.specs.Mark.{mark_of};
ghost use Rattle.ahci_trace.specs.Text.{trace_text};

use crate::as_json::json_text;
use crate::close::close;
use crate::command_trace::CommandTrace;
use crate::mark::Mark;
use crate::shown::text_of;
use ahci_port::Port;
use ahci_replay::{AnswerWriter, ScriptFault, replay_with};
use ahci_script::{Output, ScriptAnswer};
use std::alloc::{AllocError, Allocator};
use std::io::{Read, Write};
use streams::{Reads, Writes};

/// Runs the script that the reader gives as `replay` does, and after each answer writes what the command did to the port, in
/// lines that are indented by two spaces. Faults are those of `replay`.
pub fn trace<R: Read, W: Write, A: Allocator + Copy>(
    alloc: A,
    reader: &mut R,
    writer: &mut W,
) -> Result<(), ScriptFault>
    ensures ok { OnOk result (Replayed trace_text (R.remaining reader.old) (R.remaining reader.new)
        (W.contents writer.old) (W.contents writer.new)) }
    ensures err { IfErr result
        (ReplayedTo trace_text (R.remaining reader.old) (R.remaining reader.new)
        (W.contents writer.old) (W.contents writer.new)) }
{
    trace_with(alloc, reader, &mut Reads::new(), writer, &mut Writes::new())
}

/// The same, and `reads` and `writes` record how the reads and writes went.
pub fn trace_with<R: Read, W: Write, A: Allocator + Copy>(
    alloc: A,
    reader: &mut R,
    reads: &mut Reads,
    writer: &mut W,
    writes: &mut Writes,
) -> Result<(), ScriptFault>
    ensures ok { OnOk result (Replayed trace_text (R.remaining reader.old) (R.remaining reader.new)
        (W.contents writer.old) (W.contents writer.new)) }
    ensures err { IfErr result
        (ReplayedTo trace_text (R.remaining reader.old) (R.remaining reader.new)
        (W.contents writer.old) (W.contents writer.new)) }
    ensures flushed { OnOk result (writes.new ≡ with_flush writes.old) }
    ensures writes { IfErr result (WritesTo writes.old writes.new) }
    ensures unfailed { OnOk result (reads.new.failed ≡ reads.old.failed) }
    ensures reads { IfErr result (ReadsTo reads.old reads.new) }
{
    replay_with(alloc, &Tracer::new(alloc), reader, reads, writer, writes)
}

/// Runs the script that the reader gives as `replay` does, and for each command writes one JSON object on a line: its answer,
/// and what it did to the port. At a fault a last object reports it, where memory and output serve.
///
/// # Errors
/// Those of `replay`.
pub fn trace_json<R: Read, W: Write, A: Allocator + Copy>(
    alloc: A,
    reader: &mut R,
    writer: &mut W,
) -> Result<(), ScriptFault>
    ensures ok { OnOk result (Replayed json_line (R.remaining reader.old) (R.remaining reader.new)
        (W.contents writer.old) (W.contents writer.new)) }
    ensures err { IfErr result
        (TracedTo (R.remaining reader.old) (R.remaining reader.new)
        (W.contents writer.old) (W.contents writer.new)) }
{
    trace_json_with(alloc, reader, &mut Reads::new(), writer, &mut Writes::new())
}

/// The same, and `reads` and `writes` record how the reads and writes went.
///
/// # Errors
/// Those of `replay`.
pub fn trace_json_with<R: Read, W: Write, A: Allocator + Copy>(
    alloc: A,
    reader: &mut R,
    reads: &mut Reads,
    writer: &mut W,
    writes: &mut Writes,
) -> Result<(), ScriptFault>
    ensures ok { OnOk result (Replayed json_line (R.remaining reader.old) (R.remaining reader.new)
        (W.contents writer.old) (W.contents writer.new)) }
    ensures err { IfErr result
        (TracedTo (R.remaining reader.old) (R.remaining reader.new)
        (W.contents writer.old) (W.contents writer.new)) }
    ensures flushed { OnOk result (writes.new ≡ with_flush writes.old) }
    ensures writes { IfErr result (WritesTo writes.old writes.new) }
    ensures unfailed { OnOk result (reads.new.failed ≡ reads.old.failed) }
    ensures reads { IfErr result (ReadsBefore reads.old reads.new) }
{
    match replay_with(alloc, &JsonTracer { alloc }, reader, reads, writer, writes) {
        Ok(()) => Ok(()),
        Err(fault) => Err(close(alloc, fault, writer, writes)),
    }
}

/// Tells what each command did to the port.
#[derive(Drop)]
pub struct Tracer<A: Allocator> {
    alloc: A,
}

impl<A: Allocator + Copy> Tracer<A> {
    /// The notes are made with this allocator.
    pub fn new(alloc: A) -> Self {
        Tracer { alloc }
    }
}

impl<A: Allocator + Copy> AnswerWriter<A> for Tracer<A> {
    type Before = Mark;

    ghost telling = { trace_text };

    ghost IsOf = { λ mark port. mark ≡ mark_of port };

    fn look(&self, port: Option<&Port<A>>) -> Mark {
        Mark::of(port)
    }

    fn tell(
        &self,
        _number: u64,
        _line: &[u8],
        before: Mark,
        answer: &ScriptAnswer<A>,
        port: Option<&Port<A>>,
        output: &mut Output<A>,
    ) -> Result<(), AllocError> {
        let trace = CommandTrace::between(self.alloc, &before, port)?;
        output.put_noted(answer, &text_of(self.alloc, &trace)?)
    }
}

/// Tells each answer, and what its command did, as one JSON object.
#[derive(Drop)]
pub(crate) struct JsonTracer<A: Allocator> {
    /// The objects are made with it.
    pub(crate) alloc: A,
}

impl<A: Allocator + Copy> AnswerWriter<A> for JsonTracer<A> {
    type Before = Mark;

    ghost telling = { json_line };

    ghost IsOf = { λ mark port. mark ≡ mark_of port };

    fn look(&self, port: Option<&Port<A>>) -> Mark {
        Mark::of(port)
    }

    fn tell(
        &self,
        number: u64,
        line: &[u8],
        before: Mark,
        answer: &ScriptAnswer<A>,
        port: Option<&Port<A>>,
        output: &mut Output<A>,
    ) -> Result<(), AllocError> {
        output.put_text(&json_text(self.alloc, number, line, &before, answer, port)?)
    }
}
