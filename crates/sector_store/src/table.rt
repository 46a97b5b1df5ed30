//! The slots of all page numbers, in three levels.

ghost use Rattle.std.specs.Prelude.{◌≡◌, ◌<◌, ◌≤◌, true, Some, is_some, IfOk, OnOk};
ghost use Rattle.std.specs.Option.{option_copied};
ghost use Rattle.sector_store.specs.Slots.{HasGrown, IsEmpty, IsExchanged, slot_at, table_span};

use crate::branch::{BRANCH, Branch};
use crate::slot::Slot;
use std::alloc::{AllocError, Allocator};
use std::marker::Model;

/// Branches or places for them, each of which is made when it is first needed. Contracts see the list of the branches, and
/// know a slot by `slot_at`.
#[derive(Drop)]
pub struct Table<A: Allocator> {
    branches: Vec<Option<Branch<A>>, A>,
}

impl<A: Allocator> Model for Table<A> {
    ghost use Rattle.std.specs.Prelude.{List, Option};
    ghost use Rattle.sector_store.specs.Layers.{Layers};

    ghost Value = { List (Option (List (Option (List Layers)))) };

    ghost view = { λ t. t.branches.items };
}

impl<A: Allocator> Table<A> {
    /// A table of no pages, with room for so many numbers.
    ///
    /// # Errors
    /// If there is no memory.
    #[tactic(auto, using(crate::proofs::LevelLemmas::none_push, crate::proofs::LevelLemmas::is_empty_level), unfolding(crate::specs::Slots::slot_at, crate::specs::Slots::table_span))]
    pub fn new(alloc: A, pages: u32) -> Result<Self, AllocError>
        ensures span { IfOk result (λ t. pages ≤ table_span t) }
        ensures empty { IfOk result (λ t. IsEmpty (slot_at t)) }
    {
        let count = pages as usize / BRANCH + 1;
        let mut branches = Vec::with_capacity(alloc, count)?;
        for _ in 0..count {
            branches.push(None)?;
        }
        Ok(Table { branches })
    }

    /// The slot of a number.
    #[tactic(auto, unfolding(crate::specs::Slots::slot_at))]
    pub fn slot(&self, number: u32) -> Option<&Slot<A>>
        ensures { option_copied result ≡ slot_at self.now number }
    {
        let number = number as usize;
        match self.branches.get(number / BRANCH) {
            Some(Some(branch)) => branch.slot(number % BRANCH),
            _ => None,
        }
    }

    /// Puts a slot at a number, and hands out the one that was there.
    #[tactic(auto, using(crate::proofs::LevelLemmas::part_inside), unfolding(crate::specs::Slots::slot_at, crate::specs::Slots::table_span))]
    pub fn exchange(&mut self, number: u32, slot: Slot<A>) -> Slot<A>
        requires { is_some (slot_at self.old number) ≡ true }
        ensures out { slot_at self.old number ≡ Some result }
        ensures slots { IsExchanged number slot (slot_at self.old) (slot_at self.new) }
        ensures span { table_span self.new ≡ table_span self.old }
    {
        let number = number as usize;
        if let Some(branch) = &mut self.branches[number / BRANCH] {
            return branch.exchange(number % BRANCH, slot);
        }
        slot
    }
}

impl<A: Allocator + Copy> Table<A> {
    /// Makes the slot of a number, if it isn't there.
    ///
    /// # Errors
    /// If there is no memory.
    #[tactic(auto, unfolding(crate::specs::Slots::slot_at, crate::specs::Slots::table_span))]
    pub fn make(&mut self, alloc: A, number: u32) -> Result<(), AllocError>
        requires { number < table_span self.old }
        ensures made { OnOk result (is_some (slot_at self.new number) ≡ true) }
        ensures grown { HasGrown (slot_at self.old) (slot_at self.new) }
        ensures span { table_span self.new ≡ table_span self.old }
    {
        let number = number as usize;
        let index = number / BRANCH;
        if let Some(branch) = &mut self.branches[index] {
            return branch.make(alloc, number % BRANCH);
        }
        let mut branch = Branch::new(alloc)?;
        let made = branch.make(alloc, number % BRANCH);
        self.branches[index] = Some(branch);
        made
    }
}
