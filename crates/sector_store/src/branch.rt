//! The middle level of a table: 2,048 leaves, each made when it is first needed.

ghost use Rattle.std.specs.Prelude.{◌≡◌, ◌<◌, true, Some, is_some, IfOk, OnOk};
ghost use Rattle.std.specs.Option.{option_copied};
ghost use Rattle.sector_store.specs.Slots.{HasGrown, IsEmpty, IsExchanged, branch_slot};

use crate::leaf::{LEAF, Leaf};
use crate::slot::Slot;
use std::alloc::{AllocError, Allocator};
use std::marker::Model;

/// How many leaves a branch has.
const LEAVES: usize = 2048;

/// How many slots a branch has.
pub const BRANCH: usize = 32_768;

/// 2,048 leaves or places for them. Contracts see the list of the leaves.
#[derive(Drop)]
pub struct Branch<A: Allocator> {
    leaves: Vec<Option<Leaf<A>>, A>,
}

impl<A: Allocator> Model for Branch<A> {
    ghost use Rattle.std.specs.Prelude.{◌≡◌, List, length, Option};
    ghost use Rattle.sector_store.specs.Layers.{Layers};

    ghost Value = { List (Option (List Layers)) };

    ghost view = { λ b. b.leaves.items };

    ghost invariant = { λ b. length b.leaves.items ≡ 2048 };
}

impl<A: Allocator> Branch<A> {
    /// A branch with no leaves.
    ///
    /// # Errors
    /// If there is no memory.
    #[tactic(auto, using(crate::proofs::LevelLemmas::none_push, crate::proofs::LevelLemmas::is_empty_level))]
    pub fn new(alloc: A) -> Result<Self, AllocError>
        ensures { IfOk result (λ b. IsEmpty (branch_slot b)) }
    {
        let mut leaves = Vec::with_capacity(alloc, LEAVES)?;
        for _ in 0..LEAVES {
            leaves.push(None)?;
        }
        Ok(Branch { leaves })
    }

    /// The slot at a place.
    pub fn slot(&self, place: usize) -> Option<&Slot<A>>
        ensures { option_copied result ≡ branch_slot self.now place }
    {
        match self.leaves.get(place / LEAF) {
            Some(Some(leaf)) => leaf.slot(place % LEAF),
            _ => None,
        }
    }

    /// Makes the slot at a place, if it isn't there.
    ///
    /// # Errors
    /// If there is no memory.
    pub fn make(&mut self, alloc: A, place: usize) -> Result<(), AllocError>
        requires { place < 32768 }
        ensures made { OnOk result (is_some (branch_slot self.new place) ≡ true) }
        ensures grown { HasGrown (branch_slot self.old) (branch_slot self.new) }
    {
        let index = place / LEAF;
        if let Some(leaf) = &self.leaves[index] {
            let _made = leaf.slot(place % LEAF);
            return Ok(());
        }
        let leaf = Leaf::new(alloc)?;
        let _made = leaf.slot(place % LEAF);
        self.leaves[index] = Some(leaf);
        Ok(())
    }

    /// Puts a slot at a place, and hands out the one that was there.
    pub fn exchange(&mut self, place: usize, slot: Slot<A>) -> Slot<A>
        requires { is_some (branch_slot self.old place) ≡ true }
        ensures out { branch_slot self.old place ≡ Some result }
        ensures slots { IsExchanged place slot (branch_slot self.old) (branch_slot self.new) }
    {
        if let Some(leaf) = &mut self.leaves[place / LEAF] {
            return leaf.exchange(place % LEAF, slot);
        }
        slot
    }
}
