//! How one slot of a table changes.

ghost use Rattle.std.specs.Prelude.{◌≡◌, ◌<◌, true, false, Some, length, is_some};
ghost use Rattle.sector_store.specs.Layers.{IsSlotWritten, kept_layers, dropped_layers, zero_page};
ghost use Rattle.sector_store.specs.Slots.{layers_of, slot_at, table_span};
ghost use Rattle.sector_store.specs.Shown.{ChangesAt, is_held};

use crate::page::Page;
use crate::slot::Slot;
use crate::table::Table;
use std::alloc::Allocator;

/// Says in a slot that its number is in the list of touched pages.
#[tactic(auto, using(crate::proofs::ChangeLemmas::exchanged_here, crate::proofs::ChangeLemmas::exchanged_twice))]
pub fn touch<A: Allocator>(table: &mut Table<A>, number: u32)
    requires { is_some (slot_at table.old number) ≡ true }
    ensures others { ChangesAt number (slot_at table.old) (slot_at table.new) }
    ensures layers { layers_of (slot_at table.new number) ≡ record (layers_of (slot_at table.old number)) { touched = true } }
    ensures span { table_span table.new ≡ table_span table.old }
{
    let mut slot = table.exchange(number, Slot::empty());
    slot.touch();
    let _empty = table.exchange(number, slot);
}

/// Puts a page into the upper layer of a slot.
#[tactic(auto, using(crate::proofs::ChangeLemmas::exchanged_here, crate::proofs::ChangeLemmas::exchanged_twice))]
pub fn put<A: Allocator>(table: &mut Table<A>, number: u32, page: Page<A>)
    requires { is_some (slot_at table.old number) ≡ true }
    ensures others { ChangesAt number (slot_at table.old) (slot_at table.new) }
    ensures layers { layers_of (slot_at table.new number) ≡ record (layers_of (slot_at table.old number)) { upper = Some page; held = true; touched = true } }
    ensures span { table_span table.new ≡ table_span table.old }
{
    let mut slot = table.exchange(number, Slot::empty());
    slot.put(page);
    let _empty = table.exchange(number, slot);
}

/// Makes the page of a slot's upper layer one of zeros, which takes no memory.
#[tactic(auto, using(crate::proofs::ChangeLemmas::exchanged_here, crate::proofs::ChangeLemmas::exchanged_twice))]
pub fn zero<A: Allocator>(table: &mut Table<A>, number: u32)
    requires { is_some (slot_at table.old number) ≡ true }
    ensures others { ChangesAt number (slot_at table.old) (slot_at table.new) }
    ensures layers { layers_of (slot_at table.new number) ≡ record (layers_of (slot_at table.old number)) { upper = Some zero_page; held = false; touched = true } }
    ensures span { table_span table.new ≡ table_span table.old }
{
    let mut slot = table.exchange(number, Slot::empty());
    slot.zero();
    let _empty = table.exchange(number, slot);
}

/// Writes the sector at a place of the page in the upper layer of a slot.
#[tactic(auto, using(crate::proofs::ChangeLemmas::exchanged_here, crate::proofs::ChangeLemmas::exchanged_twice))]
pub fn write<A: Allocator>(table: &mut Table<A>, number: u32, place: usize, sector: &[u8])
    requires place { place < 8 }
    requires sector { length sector.now ≡ 512 }
    requires held { is_held (slot_at table.old) number ≡ true }
    ensures others { ChangesAt number (slot_at table.old) (slot_at table.new) }
    ensures layers { IsSlotWritten place sector.now (layers_of (slot_at table.old number)) (layers_of (slot_at table.new number)) }
    ensures span { table_span table.new ≡ table_span table.old }
{
    let mut slot = table.exchange(number, Slot::empty());
    slot.write(place, sector);
    let _empty = table.exchange(number, slot);
}

/// Moves the page of a slot's upper layer into the lower one.
#[tactic(auto, using(crate::proofs::ChangeLemmas::exchanged_here, crate::proofs::ChangeLemmas::exchanged_twice))]
pub fn keep<A: Allocator>(table: &mut Table<A>, number: u32)
    requires { is_some (slot_at table.old number) ≡ true }
    ensures others { ChangesAt number (slot_at table.old) (slot_at table.new) }
    ensures layers { layers_of (slot_at table.new number) ≡ kept_layers (layers_of (slot_at table.old number)) }
    ensures span { table_span table.new ≡ table_span table.old }
{
    let mut slot = table.exchange(number, Slot::empty());
    slot.keep();
    let _empty = table.exchange(number, slot);
}

/// Drops the page of a slot's upper layer.
#[tactic(auto, using(crate::proofs::ChangeLemmas::exchanged_here, crate::proofs::ChangeLemmas::exchanged_twice))]
pub fn restore<A: Allocator>(table: &mut Table<A>, number: u32)
    requires { is_some (slot_at table.old number) ≡ true }
    ensures others { ChangesAt number (slot_at table.old) (slot_at table.new) }
    ensures layers { layers_of (slot_at table.new number) ≡ dropped_layers (layers_of (slot_at table.old number)) }
    ensures span { table_span table.new ≡ table_span table.old }
{
    let mut slot = table.exchange(number, Slot::empty());
    slot.restore();
    let _empty = table.exchange(number, slot);
}
