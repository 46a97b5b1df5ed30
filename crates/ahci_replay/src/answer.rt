//! What the port has done, as a command's answer.

ghost use Rattle.std.specs.Prelude.{◌≡◌, IfErr, IfOk};
ghost use Rattle.ahci_port.specs.Slots.{bytes_in};
ghost use Rattle.ahci_script.specs.Said.{said};
ghost use Rattle.ahci_table.specs.{Fit.{IsFit}, Prdt.{pieces}};
ghost use Rattle.ahci_replay.specs.Commands.{EndsAt, outcome_said, step_said};

use crate::unanswered::Unanswered;
use ahci_port::{Outcome, Reply, Stepped};
use ahci_script::ScriptAnswer;
use ahci_table::{Piece, Window};
use std::alloc::Allocator;

/// The answer of a device's step, after which the next entry has the number `end`.
pub(crate) fn stepped<A: Allocator>(done: Stepped, end: u64) -> ScriptAnswer<A>
    requires { EndsAt done end }
    ensures { said result ≡ step_said done }
{
    match done {
        Stepped::Accepted(entry) => ScriptAnswer::Accepted(entry),
        Stepped::Completed { first, .. } => ScriptAnswer::Completed { first, end },
        Stepped::Failed(entry) => ScriptAnswer::FailedStep(entry),
    }
}

/// The answer of a request. A finished read has its sectors, which are the window's text.
pub(crate) fn collected<A: Allocator>(
    alloc: A,
    reply: Reply,
    list: &[Piece],
    window: &Window<A>,
) -> Result<ScriptAnswer<A>, Unanswered>
    requires fit { IsFit window.now }
    requires list { list.now ≡ pieces window.now }
    ensures why { IfErr result (λ e. e ≡ Unanswered.OutOfMemory) }
    ensures says { IfOk result (λ answer. said answer ≡ outcome_said reply.outcome reply.entry (bytes_in reply.outcome window.now)) }
{
    let entry = reply.entry;
    match reply.outcome {
        Outcome::Read => {
            let bytes = window.text_in(list, alloc)?;
            Ok(ScriptAnswer::Read { entry, bytes })
        }
        Outcome::Wrote => Ok(ScriptAnswer::Wrote(entry)),
        Outcome::Failed { error, lba } => Ok(ScriptAnswer::Failed { entry, error, lba }),
    }
}
