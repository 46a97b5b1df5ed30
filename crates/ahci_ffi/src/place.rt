//! The place that C has for a port, and how a port is taken out and put back.

ghost use Rattle.std.specs.Prelude.{◌≡◌, is_some};

use crate::bare::Bare;
use crate::held::{CPort, Held};
use crate::status::Status;
use ahci_port::Pending;
use std::alloc::Global;
use std::mem::replace;

/// A place for a port, whose bytes are C's, with what software has half written to the port's registers. All bytes 0 are a
/// place without a port.
#[repr(C)]
#[derive(Drop)]
pub struct Place {
    held: Held,
    full: bool,
    stopped: bool,
    announced: u32,
    ghost told: { full ≡ is_some held.port },
}

impl Place {
    ghost use Rattle.std.specs.Prelude.{◌≡◌, None, Some, is_some, Option};
    ghost use Rattle.std.specs.Option.{option_map};
    ghost use Rattle.ahci_port.specs.Headline.{Headline};
    ghost use Rattle.ahci_ffi.specs.Over.{Empties, IsFilled, left_pending};
    ghost use Rattle.ahci_ffi.specs.PlaceView.{view_of};
    ghost use Rattle.ahci_ffi.specs.Status.{code_of};

    /// Whether a port is here.
    #[tactic(auto, unfolding(crate::specs::PlaceView::view_of))]
    pub fn is_full(&self) -> bool
        ensures { result ≡ is_some (view_of self.now).port }
    {
        self.full
    }

    /// What software has half written.
    #[tactic(auto, unfolding(crate::specs::PlaceView::view_of))]
    pub fn pending(&self) -> Pending
        ensures { result ≡ (view_of self.now).pending }
    {
        Pending {
            sact: self.announced,
            stopped: self.stopped,
        }
    }

    /// Takes the port out.
    #[tactic(auto, unfolding(crate::specs::PlaceView::view_of))]
    pub fn take(&mut self, heap: Global) -> Option<Box<CPort>>
        ensures taken { option_map (λ b. b.value) result ≡ (view_of self.old).port }
        ensures left { view_of self.new ≡ record (view_of self.old) { port = None } }
    {
        let empty = Place::without(heap, self.pending());
        let Place { held, full, .. } = replace(self, empty);
        if full {
            Some(held.give().whole())
        } else {
            None
        }
    }

    /// A place without a port, in which this is half written.
    #[tactic(auto, unfolding(crate::specs::PlaceView::view_of))]
    pub fn without(heap: Global, pending: Pending) -> Place
        ensures { view_of result ≡ record { port = None; pending = pending } }
    {
        Place {
            held: Held::nothing(heap),
            full: false,
            stopped: pending.stopped,
            announced: pending.sact,
        }
    }

    /// Puts a port back after a call on it, and answers the call's number.
    pub fn back(&mut self, port: Box<CPort>, answer: Status) -> u32
        ensures place { view_of self.new ≡ record (view_of self.old) { port = Some port.value } }
        ensures headline { Headline port.value }
        ensures number { result ≡ code_of answer }
    {
        let pending = self.pending();
        self.back_with(port, pending, answer)
    }

    /// The same after a call that takes the place of register writes: once it is done, nothing is half written.
    pub fn back_anew(&mut self, port: Box<CPort>, answer: Status) -> u32
        ensures place { view_of self.new ≡ record { port = Some port.value; pending = left_pending answer (view_of self.old).pending } }
        ensures headline { Headline port.value }
        ensures number { result ≡ code_of answer }
    {
        let pending = match answer {
            Status::Done => Pending::nothing(),
            _ => self.pending(),
        };
        self.back_with(port, pending, answer)
    }

    /// The same after a call that leaves this half written.
    #[tactic(auto, unfolding(crate::specs::PlaceView::view_of))]
    pub fn back_with(&mut self, port: Box<CPort>, pending: Pending, answer: Status) -> u32
        ensures place { view_of self.new ≡ record { port = Some port.value; pending = pending } }
        ensures headline { Headline port.value }
        ensures number { result ≡ code_of answer }
    {
        port.keeps_its_promise();
        *self = Place {
            held: Held::keep(Bare::of(port)),
            full: true,
            stopped: pending.stopped,
            announced: pending.sact,
        };
        answer.code()
    }

    /// Puts a port that was made into an empty place, or answers why none was made.
    pub fn fill(&mut self, made: Result<Box<CPort>, Status>) -> u32
        ensures { IsFilled result (view_of self.old) (view_of self.new) made }
    {
        match made {
            Ok(port) => self.back_with(port, Pending::nothing(), Status::Done),
            Err(refusal) => refusal.code(),
        }
    }

    /// Frees the port that is here.
    pub fn empty(&mut self, heap: Global) -> u32
        ensures { Empties result (view_of self.old) (view_of self.new) }
    {
        let taken = self.take(heap);
        *self = Place::without(heap, Pending::nothing());
        match taken {
            Some(port) => {
                drop(port);
                Status::Done.code()
            }
            None => Status::NoPort.code(),
        }
    }
}
