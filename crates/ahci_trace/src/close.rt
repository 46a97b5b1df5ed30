//! The end of a trace as JSON at a fault.

ghost use Rattle.std.specs.Prelude.{◌≡◌, ◌++◌, IfOk, OnOk};
ghost use Rattle.ahci_trace.specs.Closing.{CloseWrites, Closes, IsTold, TellWrites, TellsFault, fault_line, fault_object, fault_word};

use crate::as_json::tokens::{Member, Tokens, Value};
use ahci_replay::ScriptFault;
use std::alloc::{AllocError, Allocator};
use std::io::Write;
use streams::Writes;

/// What a fault is.
fn fault_word(fault: ScriptFault) -> &'static str
    ensures { result.now ≡ fault_word fault }
{
    match fault {
        ScriptFault::Line(_) => "not understood",
        ScriptFault::Read => "input failed",
        ScriptFault::Write => "output failed",
        ScriptFault::OutOfMemory => "out of memory",
    }
}

impl<A: Allocator + Copy> Tokens<A> {
    /// Adds an object for a fault, with its line where it has one.
    #[tactic(auto, unfolding(crate::specs::Closing::fault_object))]
    fn put_fault(&mut self, fault: ScriptFault) -> Result<(), AllocError>
        ensures { OnOk result (self.new ≡ self.old ++ fault_object fault) }
    {
        let word = Member("fault", Value::Text(fault_word(fault)));
        match fault {
            ScriptFault::Line(line) => {
                self.put_object(&[word, Member("line", Value::Number(line))])
            }
            _ => self.put_object(&[word]),
        }
    }
}

/// The line of a fault's object.
fn fault_line<A: Allocator + Copy>(alloc: A, fault: ScriptFault) -> Result<Vec<u8, A>, AllocError>
    ensures { IfOk result (λ text. text.items ≡ fault_line fault) }
{
    let mut tokens = Tokens::new(alloc);
    tokens.put_fault(fault)?;
    let mut text = tokens.into_text();
    text.push(b'\n')?;
    Ok(text)
}

/// Reports a fault. Answers the fault, or what kept it from being reported.
fn tell_fault<W: Write, A: Allocator + Copy>(
    alloc: A,
    fault: ScriptFault,
    writer: &mut W,
    writes: &mut Writes,
) -> ScriptFault
    requires { IsTold fault }
    ensures told { TellsFault fault (W.contents writer.old) (W.contents writer.new) result }
    ensures writes { TellWrites writes.old writes.new result }
{
    let text = match fault_line(alloc, fault) {
        Ok(text) => text,
        Err(refused) => return refused.into(),
    };
    match writes.write_whole(writer, &text) {
        Ok(()) => fault,
        Err(_) => ScriptFault::Write,
    }
}

/// Ends a trace at a fault, with an object that reports it; where output or memory is wanting, with nothing. Answers the fault
/// that the trace ends with.
pub(crate) fn close<W: Write, A: Allocator + Copy>(
    alloc: A,
    fault: ScriptFault,
    writer: &mut W,
    writes: &mut Writes,
) -> ScriptFault
    ensures told { Closes fault (W.contents writer.old) (W.contents writer.new) result }
    ensures writes { CloseWrites fault writes.old writes.new result }
{
    match fault {
        ScriptFault::Line(_) | ScriptFault::Read => tell_fault(alloc, fault, writer, writes),
        ScriptFault::Write | ScriptFault::OutOfMemory => fault,
    }
}
