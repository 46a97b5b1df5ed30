ghost use Rattle.std.specs.Prelude.{◌≡◌, IfOk, IfErr, OnErr, length};
ghost use Rattle.ahci_table.specs.Fit.{IsFit};
ghost use Rattle.ahci_port.specs.Slots.{bytes_in};
ghost use Rattle.ahci_driver.specs.{Finishing.{HasFinished, HasGotOn, IsUnfinished}, Tickets.{has_length}};

use crate::chooser::Chooser;
use crate::collect::{Answered, take_locked};
use crate::fault::PumpFault;
use crate::pump::pump_locked;
use crate::ticket::Ticket;
use crate::unfinished::Unfinished;
use ahci_port::{CollectFault, Port};
use std::alloc::Allocator;

/// How often who has the lock lets the port get on: enough for a recovery, and for each of 32 commands to be issued again,
/// accepted and served.
const MOST_PUMPS: u32 = 97;

/// What `finish` does once it has the lock: it takes a ticket's answer, with one pump between two tries. The pumps carry
/// other workers' commands on too, which then find their answers there. The bytes of a read are copied once the lock is free.
///
/// # Errors
/// The ticket comes back, with the reason.
pub(crate) fn finish_locked<A: Allocator, C: Chooser>(
    port: &mut Port<A>,
    chooser: &mut C,
    mut ticket: Ticket<A>,
) -> Result<Answered<A>, (Ticket<A>, Unfinished)>
    ensures ok { IfOk result (λ a. HasFinished C.gives chooser.old chooser.new ticket.tag ticket.number port.old port.new
        a.reply.entry a.reply.outcome (bytes_in a.reply.outcome a.window)) }
    ensures number { IfOk result (λ a. a.reply.number ≡ ticket.number) }
    ensures fit { IfOk result (λ a. IsFit a.window) }
    ensures length { IfOk result (λ a. has_length a.reply.outcome a.window (length a.buffer.items)) }
    ensures buffer { IfOk result (λ a. a.buffer.items ≡ ticket.buffer) }
    ensures same { IfErr result (λ e. e.0 ≡ ticket) }
    ensures fault { IfErr result (λ e. IsUnfinished ticket port.new e.1) }
    ensures err { OnErr result (HasGotOn C.gives chooser.old chooser.new port.old port.new) }
{
    for _ in 0..MOST_PUMPS {
        match take_locked(port, ticket) {
            Ok(answered) => return Ok(answered),
            Err((waiting, CollectFault::Stranger)) => return Err((waiting, Unfinished::Stranger)),
            Err((waiting, CollectFault::NotYet)) => ticket = waiting,
        }
        match pump_locked(port, chooser) {
            Ok(_) => {}
            Err(PumpFault::OutOfMemory) => return Err((ticket, Unfinished::OutOfMemory)),
        }
    }
    Err((ticket, Unfinished::NotYet))
}
