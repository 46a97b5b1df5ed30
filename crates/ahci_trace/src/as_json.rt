//! A trace as one JSON object.

ghost use Rattle.std.specs.Prelude.{◌≡◌, ◌++◌, IfOk, OnOk, Option};
ghost use Rattle.std.specs.Option.{option_copied};
ghost use Rattle.ahci_port.specs.PortView.{PortView};
ghost use Rattle.ahci_script.specs.Said.{said};
ghost use Rattle.json.specs.Print.{print};
ghost use Rattle.ahci_trace.specs.Json.{command_object, passed_members, told_members};
ghost use Rattle.ahci_trace.specs.Mark.{mark_of};
ghost use Rattle.ahci_trace.specs.Trace.{told, told_between};

mod parts;
pub(crate) mod tokens;

use crate::command_trace::CommandTrace;
use crate::mark::Mark;
use ahci_port::Port;
use ahci_script::ScriptAnswer;
use json::Token;
use std::alloc::{AllocError, Allocator};
use tokens::{Item, Tokens};

/// The text of an object for a command of a line, its answer, and what it did that found the port of the mark and has left this one.
pub(crate) fn json_text<A: Allocator + Copy>(
    alloc: A,
    number: u64,
    line: &[u8],
    mark: &Mark,
    answer: &ScriptAnswer<A>,
    port: Option<&Port<A>>,
) -> Result<Vec<u8, A>, AllocError>
    ensures { IfOk result (λ text. (found : Option PortView) → mark.now ≡ mark_of found
        → text.items ≡ print (command_object number line.now (said answer.now) (told_between found (option_copied port.entry)))) }
{
    let trace = CommandTrace::between(alloc, mark, port)?;
    let mut tokens = Tokens::new(alloc);
    tokens.put_command(number, line, answer, &trace)?;
    Ok(tokens.into_text())
}

impl<A: Allocator + Copy> Tokens<A> {
    /// Adds an object for a command of a line, its answer and what it did.
    #[tactic(auto, unfolding(crate::specs::Json::command_object))]
    fn put_command<B: Allocator>(
        &mut self,
        number: u64,
        line: &[u8],
        answer: &ScriptAnswer<B>,
        trace: &CommandTrace<A>,
    ) -> Result<(), AllocError>
        ensures { OnOk result (self.new ≡ self.old ++ command_object number line.now (said answer.now) (told trace.now)) }
    {
        self.add(Token::BeginObject)?;
        self.put_line(number, line)?;
        self.put_answer(answer)?;
        self.put_told(trace)?;
        self.add(Token::EndObject)
    }

    /// Adds what a command did.
    #[tactic(auto, unfolding(crate::specs::Json::told_members))]
    fn put_told(&mut self, trace: &CommandTrace<A>) -> Result<(), AllocError>
        ensures { OnOk result (self.new ≡ self.old ++ told_members (told trace.now)) }
    {
        self.put_list("entries", &trace.entries)?;
        self.put_list("writes", &trace.writes)?;
        self.put_passed(trace)?;
        self.put_list("registers", &trace.changes)?;
        self.put_list("slots", &trace.slots)
    }

    /// Adds what passed between port and device.
    #[tactic(auto, unfolding(crate::specs::Json::passed_members))]
    fn put_passed(&mut self, trace: &CommandTrace<A>) -> Result<(), AllocError>
        ensures { OnOk result (self.new ≡ self.old ++ passed_members (told trace.now)) }
    {
        self.add(Token::Key("sent"))?;
        trace.sent.put(self)?;
        self.put_list("transfers", &trace.served)?;
        self.add(Token::Key("received"))?;
        trace.received.put(self)
    }
}
