//! The place that C has for a controller, and how a controller is taken out and put back.

ghost use Rattle.std.specs.Prelude.{◌≡◌, is_some};

use crate::held::{CHba, HeldHba};
use ahci_ffi::{Bare, Status};
use std::alloc::Global;
use std::mem::replace;

/// A place for a controller, whose bytes are C's. All bytes 0 are a place without one.
#[repr(C)]
#[derive(Drop)]
pub struct HbaPlace {
    held: HeldHba,
    full: bool,
    ghost told: { full ≡ is_some held.hba },
}

impl HbaPlace {
    ghost use Rattle.std.specs.Prelude.{◌≡◌, None, Some, is_some, Option};
    ghost use Rattle.std.specs.Option.{option_map};
    ghost use Rattle.ahci_port.specs.Headline.{Headline};
    ghost use Rattle.ahci_ffi.specs.Status.{code_of};
    ghost use Rattle.hba_ffi.specs.Over.{Empties, IsFilled};
    ghost use Rattle.hba_ffi.specs.PlaceView.{view_of};

    /// Whether a controller is here.
    #[tactic(auto, unfolding(crate::specs::PlaceView::view_of))]
    pub fn is_full(&self) -> bool
        ensures { result ≡ is_some (view_of self.now) }
    {
        self.full
    }

    /// A place without a controller.
    #[tactic(auto, unfolding(crate::specs::PlaceView::view_of))]
    fn without(heap: Global) -> HbaPlace
        ensures { view_of result ≡ None }
    {
        HbaPlace {
            held: HeldHba::nothing(heap),
            full: false,
        }
    }

    /// Takes the controller out.
    #[tactic(auto, unfolding(crate::specs::PlaceView::view_of))]
    pub fn take(&mut self, heap: Global) -> Option<Box<CHba>>
        ensures taken { option_map (λ b. b.value) result ≡ view_of self.old }
        ensures left { view_of self.new ≡ None }
    {
        let empty = HbaPlace::without(heap);
        let HbaPlace { held, full } = replace(self, empty);
        if full {
            Some(held.give().whole())
        } else {
            None
        }
    }

    /// Puts a controller back after a call on it, and answers the call's number.
    #[tactic(auto, unfolding(crate::specs::PlaceView::view_of))]
    pub fn back(&mut self, hba: Box<CHba>, answer: Status) -> u32
        ensures place { view_of self.new ≡ Some hba.value }
        ensures headline { Headline hba.value.port }
        ensures number { result ≡ code_of answer }
    {
        let _port = hba.port();
        *self = HbaPlace {
            held: HeldHba::keep(Bare::of(hba)),
            full: true,
        };
        answer.code()
    }

    /// Puts a controller that was made into an empty place, or answers why none was made.
    pub fn fill(&mut self, made: Result<Box<CHba>, Status>) -> u32
        ensures { IsFilled result (view_of self.old) (view_of self.new) made }
    {
        match made {
            Ok(hba) => self.back(hba, Status::Done),
            Err(refusal) => refusal.code(),
        }
    }

    /// Frees the controller that is here.
    pub fn empty(&mut self, heap: Global) -> u32
        ensures { Empties result (view_of self.old) (view_of self.new) }
    {
        match self.take(heap) {
            Some(hba) => {
                drop(hba);
                Status::Done.code()
            }
            None => Status::NoPort.code(),
        }
    }
}
