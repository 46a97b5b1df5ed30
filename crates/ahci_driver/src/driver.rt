//! A port behind a lock, and the calls of the threads that share it.

mod finish;

ghost use Rattle.std.specs.Prelude.{◌≡◌, true, IfOk, IfErr, OnOk, OnErr, length};
ghost use Rattle.ncq_journal.specs.{Laws.{AllFree}, Work.{work_of}};
ghost use Rattle.word_bits.specs.Places.{has_place};
ghost use Rattle.ahci_port.specs.{Faults.{Answers, trim_refusal}, Headline.{Headline}, PortView.{journal_in}, Steps.{trimmed}};
ghost use Rattle.ahci_driver.specs.{Pumping.{HasPumped}, Tickets.{answer_length}, Trimming.{IsKept}, Submitting.{HasNotSubmitted, HasReturned, HasSubmitted}};

use crate::chooser::Chooser;
use crate::collect::collect_locked;
use crate::fault::{PumpFault, SubmitFault};
use crate::pump::pump_locked;
use crate::pumped::Pumped;
use crate::ready::Ready;
use crate::ticket::Ticket;
use ahci_port::{CollectFault, Port, Reply, TrimFault};
use ncq_journal::{Journal, Op};
use std::alloc::{Allocator, Global};
use std::marker::Model;
use std::sync::{Mutex, Wait};
use tag_board::{TagBoard, TagSeat};

/// A port behind a lock, and the board of its free tags, which has none. Contracts see the board.
#[derive(Drop)]
pub struct Driver<A: Allocator = Global> {
    port: Mutex<Port<A>>,
    board: TagBoard<A>,
}

impl<A: Allocator> Model for Driver<A> {
    ghost use Rattle.tag_board.specs.Board.{Board};

    ghost Value = { Board };

    ghost view = { λ d. d.board };
}

impl<A: Allocator> Driver<A> {
    /// A driver of a port, with a board of as many tags.
    pub fn new(port: Port<A>, board: TagBoard<A>) -> Self
        requires { port.depth ≡ board.depth }
        ensures { result ≡ board }
    {
        Driver {
            port: Mutex::new(port),
            board,
        }
    }

    /// The port as the last call left it, and the board.
    pub fn into_parts(self) -> (Port<A>, TagBoard<A>)
        ensures headline { Headline result.0 }
        ensures board { result.1 ≡ self }
    {
        let Driver { port, board } = self;
        let port = port.into_inner();
        port.keeps_its_promise();
        (port, board)
    }

    /// The driver's board.
    pub fn board(&self) -> &TagBoard<A>
        ensures { result.now ≡ self.now }
    {
        &self.board
    }

    /// Lets the port get on by one call, whatever the chooser answers. It is asked once where the device takes a step, and
    /// never otherwise.
    ///
    /// # Errors
    /// `OutOfMemory` where the port is halted and room for its recovery was refused.
    #[tactic(auto, using(crate::proofs::PumpingLemmas::pumped_some))]
    pub fn pump<C: Chooser>(&self, rt: &impl Wait, chooser: &mut C) -> Result<Pumped, PumpFault>
        ensures ok { IfOk result (HasPumped C.gives chooser.old chooser.new) }
        ensures err { OnErr result (chooser.new ≡ chooser.old) }
    {
        pump_locked(&mut self.port.lock(rt), chooser)
    }

    /// Takes the answer of a request and gives its tag back, once the slot is free. The bytes are those of a finished
    /// read, and none otherwise.
    ///
    /// # Errors
    /// `Stranger` where the slot has no such request, `NotYet` where it isn't done; the ticket comes back, and the tag
    /// stays the seat's.
    pub fn collect(
        &self,
        rt: &impl Wait,
        seat: &mut TagSeat,
        ticket: Ticket<A>,
    ) -> Result<(Reply, Vec<u8, A>), (Ticket<A>, CollectFault)>
        requires seat { seat.old.board ≡ self.now }
        requires held { has_place seat.old.tags ticket.tag ≡ true }
        ensures board { seat.new.board ≡ seat.old.board }
        ensures number { IfOk result (λ r. r.0.number ≡ ticket.number) }
        ensures length { IfOk result (λ r. length r.1.items ≡ answer_length r.0.outcome (length ticket.buffer)) }
        ensures returned { OnOk result (HasReturned seat.old seat.new ticket) }
        ensures err { IfErr result (λ e. (e.0 ≡ ticket) × (seat.new ≡ seat.old)) }
    {
        let freed = ticket.tag();
        let collected = collect_locked(&mut self.port.lock(rt), ticket)?;
        self.board.give_back(seat, freed);
        Ok(collected)
    }
}

/// What `trim` does once it has the lock.
fn trim_locked<A: Allocator + Copy>(port: &mut Port<A>) -> Result<Journal<A>, TrimFault>
    ensures journal { IfOk result (λ journal. journal ≡ journal_in port.old) }
    ensures trimmed { OnOk result (port.new ≡ trimmed port.old) }
    ensures fault { Answers result (trim_refusal port.old) }
    ensures err { OnErr result (port.new ≡ port.old) }
    ensures free { IfOk result (λ journal. AllFree journal.past) }
    ensures lawful { IfOk result (λ journal. IsKept journal.past) }
{
    port.keeps_its_promise();
    port.trim()
}

impl<A: Allocator + Copy> Driver<A> {
    /// Hands the port's journal out, where every slot is free, as `Port::trim` does. It takes no memory, and may wait.
    ///
    /// # Errors
    /// `Busy` where some slot is not free, `Spent` where the next number is over 2^63.
    pub fn trim(&self, rt: &impl Wait) -> Result<Journal<A>, TrimFault>
        ensures free { IfOk result (λ journal. AllFree journal.past) }
        ensures lawful { IfOk result (λ journal. IsKept journal.past) }
    {
        trim_locked(&mut self.port.lock(rt))
    }
}

impl<A: Allocator + Clone> Driver<A> {
    /// Submits a command: a tag is claimed, the window is built over the default pieces, the buffer for the answer is reserved, and
    /// what the journal keeps of the command is copied, all before the lock is taken. On a fault the tag is given back.
    ///
    /// # Errors
    /// `NoTag` where each tag was found taken when it was tried; `Build` where no window is built for the command, or
    /// memory for it, for the buffer or for the copy was refused; `Issue` where the port didn't issue it.
    #[tactic(auto, using(crate::proofs::SubmittingLemmas::given_back, crate::proofs::SubmittingLemmas::fit_refused))]
    pub fn submit(
        &self,
        rt: &impl Wait,
        alloc: A,
        seat: &mut TagSeat,
        op: &Op<A>,
    ) -> Result<Ticket<A>, SubmitFault>
        requires { seat.old.board ≡ self.now }
        ensures board { seat.new.board ≡ seat.old.board }
        ensures ok { IfOk result (HasSubmitted self.now.depth (work_of op.now) seat.old seat.new) }
        ensures err { IfErr result (HasNotSubmitted self.now.depth (work_of op.now) seat.old seat.new) }
    {
        let Ok(tag) = self.board.claim(seat) else {
            return Err(SubmitFault::NoTag);
        };
        let fault = match Ready::new(alloc, tag, op) {
            Ok(ready) => match ready.submit_locked(&mut self.port.lock(rt)) {
                Ok(ticket) => return Ok(ticket),
                Err(fault) => SubmitFault::Issue(fault),
            },
            Err(fault) => SubmitFault::Build(fault),
        };
        self.board.give_back(seat, tag);
        Err(fault)
    }
}
