//! How an answer is taken out of its slot, on a port whose lock is held.

ghost use Rattle.std.specs.Prelude.{◌≡◌, Some, IsOk, IfOk, IsErrAnd, OnOk, OnErr, MatchOption, length};
ghost use Rattle.ahci_table.specs.{Fit.{IsFit}, Prdt.{pieces}};
ghost use Rattle.ahci_port.specs.{Slots.{bytes_in}, Steps.{IsCollected}};
ghost use Rattle.ahci_driver.specs.{Settled.{answered_as}, Tickets.{answer_length, is_as_long, has_length, ticket_refusal}};

use crate::ticket::Ticket;
use ahci_port::{CollectFault, Outcome, Port, Reply};
use ahci_table::{Piece, Window};
use arrayvec::ArrayVec;
use std::alloc::Allocator;

/// Whether the buffer has the length of what is read; where nothing is read, any buffer will do.
fn is_as_long(read: Option<u64>, buffer: &[u8]) -> bool
    ensures { result ≡ is_as_long read (length buffer.now) }
{
    match read {
        Some(len) => len == buffer.len() as u64,
        None => true,
    }
}

/// The bytes of a finished read, which are its window's text, in the buffer; no bytes otherwise.
fn bytes_in<A: Allocator>(
    outcome: Outcome,
    list: &[Piece],
    window: &Window<A>,
    mut buffer: Vec<u8, A>,
) -> Vec<u8, A>
    requires fit { IsFit window.now }
    requires list { list.now ≡ pieces window.now }
    requires len { has_length outcome window.now (length buffer.items) }
    ensures text { result.items ≡ bytes_in outcome window.now }
    ensures length { length result.items ≡ answer_length outcome (length buffer.items) }
{
    match outcome {
        Outcome::Read => window.gather_in(list, 0, &mut buffer),
        _ => buffer.clear(),
    }
    buffer
}

/// An answer that was taken out of its slot. The bytes of a finished read are still in the window.
#[derive(Drop)]
pub(crate) struct Answered<A: Allocator> {
    reply: Reply,
    list: ArrayVec<Piece, 32>,
    window: Window<A>,
    buffer: Vec<u8, A>,
    ghost listed: { list.items ≡ pieces window },
}

impl<A: Allocator> Answered<A> {
    /// The reply, and the bytes of a finished read, which are its window's text, in the buffer; no bytes otherwise.
    pub(crate) fn received(self) -> (Reply, Vec<u8, A>)
        requires fit { IsFit self.window }
        requires len { has_length self.reply.outcome self.window (length self.buffer.items) }
        ensures reply { result.0 ≡ self.reply }
        ensures text { result.1.items ≡ bytes_in self.reply.outcome self.window }
        ensures length { length result.1.items ≡ answer_length self.reply.outcome (length self.buffer.items) }
    {
        let Answered {
            reply,
            list,
            window,
            buffer,
        } = self;
        (reply, bytes_in(reply.outcome, &list, &window, buffer))
    }
}

/// Takes the answer of a ticket's request and frees its slot. It takes no memory.
///
/// # Errors
/// Those of `collect_locked`; the ticket comes back.
pub(crate) fn take_locked<A: Allocator>(
    port: &mut Port<A>,
    ticket: Ticket<A>,
) -> Result<Answered<A>, (Ticket<A>, CollectFault)>
    ensures ok { OnOk result (IsCollected ticket.tag port.old port.new) }
    ensures number { IfOk result (λ a. a.reply.number ≡ ticket.number) }
    ensures answer { IfOk result (λ a. answered_as port.old ticket.number ≡ Some (record { entry = a.reply.entry; outcome = a.reply.outcome; bytes = bytes_in a.reply.outcome a.window })) }
    ensures fit { IfOk result (λ a. IsFit a.window) }
    ensures length { IfOk result (λ a. has_length a.reply.outcome a.window (length a.buffer.items)) }
    ensures buffer { IfOk result (λ a. a.buffer.items ≡ ticket.buffer) }
    ensures fault { MatchOption (ticket_refusal port.old ticket) (IsOk result) (λ f. IsErrAnd result (λ e. (e.0 ≡ ticket) × (e.1 ≡ f))) }
    ensures err { OnErr result (port.new ≡ port.old) }
{
    port.keeps_its_promise();
    let read = port.read_length(ticket.tag);
    if !is_as_long(read, &ticket.buffer) {
        return Err((ticket, CollectFault::Stranger));
    }
    let (reply, list, window) = match port.collect_with_pieces(ticket.tag, ticket.number) {
        Ok(collected) => collected,
        Err(fault) => return Err((ticket, fault)),
    };
    let Ticket { buffer, .. } = ticket;
    Ok(Answered {
        reply,
        list,
        window,
        buffer,
    })
}

/// What `collect` does once it has the lock: it takes the answer of the ticket's request and frees its slot. The bytes
/// are those of a finished read, in the ticket's buffer, and none otherwise. It takes no memory.
///
/// # Errors
/// `Stranger` where the slot is free, has another request, or has a read of another length than the ticket's buffer;
/// `NotYet` where the request isn't done. The ticket comes back.
pub fn collect_locked<A: Allocator>(
    port: &mut Port<A>,
    ticket: Ticket<A>,
) -> Result<(Reply, Vec<u8, A>), (Ticket<A>, CollectFault)>
    ensures ok { OnOk result (IsCollected ticket.tag port.old port.new) }
    ensures number { IfOk result (λ r. r.0.number ≡ ticket.number) }
    ensures answer { IfOk result (λ r. answered_as port.old ticket.number ≡ Some (record { entry = r.0.entry; outcome = r.0.outcome; bytes = r.1.items })) }
    ensures length { IfOk result (λ r. length r.1.items ≡ answer_length r.0.outcome (length ticket.buffer)) }
    ensures fault { MatchOption (ticket_refusal port.old ticket) (IsOk result) (λ f. IsErrAnd result (λ e. (e.0 ≡ ticket) × (e.1 ≡ f))) }
    ensures err { OnErr result (port.new ≡ port.old) }
{
    Ok(take_locked(port, ticket)?.received())
}
