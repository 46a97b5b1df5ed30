//! A script's lines, each with its answer.

ghost use Rattle.std.specs.Prelude.{◌≡◌, ◌++◌, false, IfErr, List, None, OnErr, OnOk, ℕ};
ghost use Rattle.ahci_script.specs.Lines.{HasSmallTag};
ghost use Rattle.ahci_replay.specs.Commands.{is_in_place};
ghost use Rattle.ahci_replay.specs.Transcript.{Grown, HasRun, IsCommandFault, IsLineFault, placed};

use crate::answer_writer::AnswerWriter;
use crate::script_fault::ScriptFault;
use crate::session::Session;
use crate::unanswered::Unanswered;
use ahci_script::{Line, Output, ScriptCommand, read_line};
use std::alloc::Allocator;

/// Answers a line of the given number.
pub(crate) fn answer_line<T: AnswerWriter<A>, A: Allocator + Copy>(
    session: &mut Session<A>,
    output: &mut Output<A>,
    answers: &T,
    number: u64,
    line: &[u8],
) -> Result<(), ScriptFault>
    ensures ok { OnOk result (Grown T.telling number session.old line.now session.new output.old output.new) }
    ensures err { OnErr result (output.new ≡ output.old) }
    ensures fault { IfErr result (IsLineFault session.old line.now number) }
    ensures wrong { placed session.old line.now ≡ None → result ≡ Err (ScriptFault.Line number) }
{
    match read_line(line) {
        Err(_) => Err(ScriptFault::Line(number)),
        Ok(Line::Skip) => Ok(()),
        Ok(Line::Run(command)) => {
            answer_command(session, output, answers, number, line, command)
        }
    }
}

/// Runs the command of a line of the given number, and has its answer written into the output.
fn answer_command<T: AnswerWriter<A>, A: Allocator + Copy>(
    session: &mut Session<A>,
    output: &mut Output<A>,
    answers: &T,
    number: u64,
    line: &[u8],
    command: ScriptCommand<'_>,
) -> Result<(), ScriptFault>
    requires { HasSmallTag command }
    ensures ok { OnOk result ((text : List ℕ) × HasRun T.telling number line.now session.old command.entry session.new text
        × (output.new ≡ output.old ++ text)) }
    ensures err { OnErr result (output.new ≡ output.old) }
    ensures fault { IfErr result (IsCommandFault session.old command.entry number) }
    ensures wrong { is_in_place session.old command.entry ≡ false → result ≡ Err (ScriptFault.Line number) }
{
    let before = answers.look(session.port());
    match session.run(command) {
        Ok(answer) => Ok(answers.tell(number, line, before, &answer, session.port(), output)?),
        Err(Unanswered::OutOfPlace) => Err(ScriptFault::Line(number)),
        Err(Unanswered::OutOfMemory) => Err(ScriptFault::OutOfMemory),
    }
}
