//! How the upper layer ends.

ghost use Rattle.std.specs.Prelude.{◌≡◌};
ghost use Rattle.sector_store.specs.Slots.{slot_at};
ghost use Rattle.sector_store.specs.Shown.{IsKept, IsRestored};

use crate::change;
use crate::pages::Pages;
use std::alloc::Allocator;

impl<B, A: Allocator> Pages<B, A> {
    /// Moves each page of the upper layer into the lower one.
    pub(super) fn keep_all(&mut self)
        ensures kept { IsKept (slot_at self.old.table) (slot_at self.new.table) }
        ensures base { self.new.base ≡ self.old.base }
        ensures sectors { self.new.sectors ≡ self.old.sectors }
    {
        while let Some(number) = self.touched.pop() {
            change::keep(&mut self.table, number);
        }
    }

    /// Drops each page of the upper layer.
    pub(super) fn restore_all(&mut self)
        ensures restored { IsRestored (slot_at self.old.table) (slot_at self.new.table) }
        ensures base { self.new.base ≡ self.old.base }
        ensures sectors { self.new.sectors ≡ self.old.sectors }
    {
        while let Some(number) = self.touched.pop() {
            change::restore(&mut self.table, number);
        }
    }
}
