//! How a run's worker waits for an answer.

ghost use Rattle.std.specs.Prelude.{◌≡◌, true, IfOk, IfErr, OnErr, OnOk, length};
ghost use Rattle.word_bits.specs.Places.{has_place};
ghost use Rattle.ahci_driver.specs.{Finishing.{HasTaken, HasWaited}, Submitting.{HasReturned}, Tickets.{answer_length}};

use crate::chooser::Chooser;
use crate::driver::Driver;
use crate::finish::finish_locked;
use crate::ticket::Ticket;
use crate::unfinished::Unfinished;
use ahci_port::Reply;
use std::alloc::Allocator;
use std::sync::Wait;
use tag_board::TagSeat;

impl<A: Allocator> Driver<A> {
    /// Collects as `collect` does, and lets the port get on until the answer is there, all under one lock; the bytes of a read
    /// are copied after it.
    ///
    /// # Errors
    /// The ticket comes back, with the reason; the tag stays the seat's.
    #[tactic(auto, using(crate::proofs::FinishingLemmas::waited_once))]
    pub(crate) fn finish<C: Chooser>(
        &self,
        rt: &impl Wait,
        seat: &mut TagSeat,
        chooser: &mut C,
        ticket: Ticket<A>,
    ) -> Result<(Reply, Vec<u8, A>), (Ticket<A>, Unfinished)>
        requires seat { seat.old.board ≡ self.now }
        requires held { has_place seat.old.tags ticket.tag ≡ true }
        ensures board { seat.new.board ≡ seat.old.board }
        ensures taken { IfOk result (λ r. HasTaken C.gives chooser.old chooser.new ticket.tag ticket.number r.0.entry r.0.outcome r.1.items) }
        ensures waited { OnErr result (HasWaited C.gives chooser.old chooser.new) }
        ensures number { IfOk result (λ r. r.0.number ≡ ticket.number) }
        ensures length { IfOk result (λ r. length r.1.items ≡ answer_length r.0.outcome (length ticket.buffer)) }
        ensures returned { OnOk result (HasReturned seat.old seat.new ticket) }
        ensures err { IfErr result (λ e. (e.0 ≡ ticket) × (seat.new ≡ seat.old)) }
    {
        let owned = ticket.tag();
        let answered = finish_locked(&mut self.port.lock(rt), chooser, ticket)?;
        self.board.give_back(seat, owned);
        Ok(answered.received())
    }
}
