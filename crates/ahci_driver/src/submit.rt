ghost use Rattle.std.specs.Prelude.{◌≡◌, IfOk, IfErr, OnOk};
ghost use Rattle.ahci_table.specs.Fit.{IsFit};
ghost use Rattle.ahci_port.specs.{Faults.{MayTake, RefusesIssue}, PortView.{next_number}, Steps.{IsIssued}};

use crate::ticket::Ticket;
use ahci_port::{IssueFault, Port};
use ahci_table::Window;
use std::alloc::Allocator;

/// Issues a window that a caller has laid out, on a port whose lock it has: the ticket has the window's tag, the request's number,
/// and the buffer for its answer. What the journal keeps of a write is copied out of the window.
///
/// # Errors
/// Those of `Port::issue`; window and buffer come back as they were.
pub fn submit_locked<A: Allocator + Clone>(
    port: &mut Port<A>,
    window: Window<A>,
    buffer: Vec<u8, A>,
) -> Result<Ticket<A>, (Window<A>, Vec<u8, A>, IssueFault)>
    ensures ticket { IfOk result (λ t. t ≡ record { tag = window.tag; number = next_number port.old; buffer = buffer.items }) }
    ensures issued { OnOk result (IsIssued window port.old port.new) }
    ensures taken { OnOk result (MayTake port.old window.tag × IsFit window) }
    ensures fault { IfErr result (λ e. RefusesIssue port.old window e.2) }
    ensures err { IfErr result (λ e. (e.0 ≡ window) × (e.1.items ≡ buffer.items) × (port.new ≡ port.old)) }
{
    let tag = window.tag();
    match port.issue(window) {
        Ok(number) => Ok(Ticket {
            tag,
            number,
            buffer,
        }),
        Err((window, fault)) => Err((window, buffer, fault)),
    }
}
