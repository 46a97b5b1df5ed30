//! The lowest level of a table: 16 slots.

ghost use Rattle.std.specs.Prelude.{◌≡◌, ◌<◌, true, Some, is_some, IfOk};
ghost use Rattle.std.specs.Option.{option_copied};
ghost use Rattle.sector_store.specs.Slots.{IsExchanged, IsEmpty, leaf_slot};

use crate::slot::Slot;
use std::alloc::{AllocError, Allocator};
use std::marker::Model;
use std::mem::replace;

/// How many slots a leaf has.
pub const LEAF: usize = 16;

/// 16 slots, since a page that is written far from all others needs a leaf of its own. Contracts see the list of their layers.
#[derive(Drop)]
pub struct Leaf<A: Allocator> {
    slots: Vec<Slot<A>, A>,
}

impl<A: Allocator> Model for Leaf<A> {
    ghost use Rattle.std.specs.Prelude.{◌≡◌, List, length};
    ghost use Rattle.sector_store.specs.Layers.{Layers};

    ghost Value = { List Layers };

    ghost view = { λ l. l.slots.items };

    ghost invariant = { λ l. length l.slots.items ≡ 16 };
}

impl<A: Allocator> Leaf<A> {
    /// A leaf with no pages.
    ///
    /// # Errors
    /// If there is no memory.
    #[tactic(auto, using(crate::proofs::LevelLemmas::is_empty_push))]
    pub fn new(alloc: A) -> Result<Self, AllocError>
        ensures { IfOk result (λ l. IsEmpty (leaf_slot l)) }
    {
        let mut slots = Vec::with_capacity(alloc, LEAF)?;
        for _ in 0..LEAF {
            slots.push(Slot::empty())?;
        }
        Ok(Leaf { slots })
    }

    /// The slot at a place.
    pub fn slot(&self, place: usize) -> Option<&Slot<A>>
        ensures slot { option_copied result ≡ leaf_slot self.now place }
        ensures made { place < 16 → is_some (leaf_slot self.now place) ≡ true }
    {
        self.slots.get(place)
    }

    /// Puts a slot at a place, and hands out the one that was there.
    pub fn exchange(&mut self, place: usize, slot: Slot<A>) -> Slot<A>
        requires { is_some (leaf_slot self.old place) ≡ true }
        ensures out { leaf_slot self.old place ≡ Some result }
        ensures slots { IsExchanged place slot (leaf_slot self.old) (leaf_slot self.new) }
    {
        replace(&mut self.slots[place], slot)
    }
}
