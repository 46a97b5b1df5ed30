//! A script that runs: it takes lines, and writes their answers.

use crate::answer_writer::AnswerWriter;
use crate::lines::answer_line;
use crate::script_fault::ScriptFault;
use crate::session::Session;
use ahci_script::Output;
use std::alloc::Allocator;
use std::io::Write;
use streams::{Found, TakesLines, Writes};

/// A script that runs: what is answered and not yet written, how the writes went, the port, and what writes the answers.
#[derive(Drop)]
pub(crate) struct Script<'t, T, A: Allocator> {
    pub(crate) output: Output<A>,
    pub(crate) writes: Writes,
    session: Session<A>,
    answers: &'t T,
}

impl<'t, T: AnswerWriter<A>, A: Allocator + Copy> Script<'t, T, A> {
    ghost use Rattle.std.specs.Prelude.{◌≡◌, ◌<◌, [], IfErr, None, OnOk, length};
    ghost use Rattle.ahci_replay.specs.Place.{place};
    ghost use Rattle.ahci_replay.specs.Transcript.{Answers, RefusesLine};

    /// A script of which nothing came yet, and how the writes went that were before it.
    pub(crate) fn new(alloc: A, answers: &'t T, writes: Writes) -> Self
        ensures { (result.output ≡ []) × ((result.session ≡ None) × (result.writes ≡ writes)) }
    {
        Script {
            output: Output::new(alloc),
            writes,
            session: Session::new(alloc),
            answers,
        }
    }

    /// Answers the line of the given number, and writes what waits once it is enough.
    fn answer<W: Write>(
        &mut self,
        number: u64,
        line: &[u8],
        writer: &mut W,
    ) -> Result<(), ScriptFault>
        ensures ok { OnOk result (Answers T.telling number (place (W.contents writer.old) self.old.output self.old.session self.old.writes.failed) line.now
            (place (W.contents writer.new) self.new.output self.new.session self.new.writes.failed)) }
        ensures bounded { OnOk result (length self.new.output < 16384) }
        ensures err { IfErr result (RefusesLine T.telling (place (W.contents writer.old) self.old.output self.old.session self.old.writes.failed) number line.now
            (place (W.contents writer.new) self.new.output self.new.session self.new.writes.failed)) }
    {
        answer_line(
            &mut self.session,
            &mut self.output,
            self.answers,
            number,
            line,
        )?;
        if self.output.is_full() {
            self.output.send(writer, &mut self.writes)?;
        }
        Ok(())
    }
}

impl<'t, T: AnswerWriter<A>, W: Write, A: Allocator + Copy> TakesLines<W> for Script<'t, T, A> {
    ghost use Rattle.std.specs.Prelude.{◌≡◌, []};
    ghost use Rattle.ahci_replay.specs.Place.{place};
    ghost use Rattle.ahci_replay.specs.Transcript.{Refuses, Takes};

    type Fault = ScriptFault;

    ghost Takes = { λ old number found new. Takes T.telling (place (W.contents old.1) old.0.output old.0.session old.0.writes.failed) number found
        (place (W.contents new.1) new.0.output new.0.session new.0.writes.failed) };

    ghost IsSent = { λ s. s.0.output ≡ [] };

    ghost Refuses = { λ old number found fault new. Refuses T.telling (place (W.contents old.1) old.0.output old.0.session old.0.writes.failed) number found fault
        (place (W.contents new.1) new.0.output new.0.session new.0.writes.failed) };

    fn take(&mut self, number: u64, found: Found<'_>, writer: &mut W) -> Result<(), ScriptFault> {
        match found {
            Found::Line(line) => self.answer(number, line, writer),
            Found::TooLong => Err(ScriptFault::Line(number)),
            // Before the read, which may wait for whoever writes the script.
            Found::Unfinished => Ok(self.output.send(writer, &mut self.writes)?),
        }
    }
}
