//! The steps on the board's word, on plain seats of the table.
ghost use Rattle.std.specs.Prelude.{◌≡◌, ◌<◌, true, false, length};
ghost use Rattle.word_bits.specs.Places.{bits, has_place};
ghost use Rattle.tag_board.specs.View.{after_seen, after_tried, after_gave};
ghost use Rattle.tag_board.specs.Partition.{Stands};

use crate::rule::{FreeOrHeld, Give, Load, Try};
use crate::view::View;
use atomic_table::{Seat, Shared};
use word_bits::{is_set, place};

pub(crate) type Word = Shared<(), View, u32, FreeOrHeld>;

pub(crate) type Place = Seat<(), View>;

pub(crate) fn load(word: &Word, place: &mut Place) -> u32
    requires own { place.old.table_id ≡ word.now.table_id }
    requires depth { place.old.me.0.depth ≡ word.now.key }
    requires one { word.now.table_id.words ≡ 1 }
    ensures same { place.new.table_id ≡ place.old.table_id }
    ensures view { place.new.me ≡ (after_seen place.old.me.0 result, place.old.me.1) }
    ensures before { Stands result place.old.me.0 }
    ensures after { Stands result place.new.me.0 }
{
    word.load::<Load>(place, 0) as u32
}

/// True where the word had the tag.
pub(crate) fn fetch_and(word: &Word, seat: &mut Place, tag: u8) -> bool
    requires own { seat.old.table_id ≡ word.now.table_id }
    requires depth { seat.old.me.0.depth ≡ word.now.key }
    requires one { word.now.table_id.words ≡ 1 }
    requires below { tag < 32 }
    requires tags { length seat.old.me.0.tags ≡ 32 }
    ensures same { seat.new.table_id ≡ seat.old.table_id }
    ensures view { seat.new.me ≡ (after_tried seat.old.me.0 tag result, seat.old.me.1) }
    ensures fresh { result ≡ true → has_place seat.old.me.0.tags tag ≡ false }
    ensures after { result ≡ true → (left : _) × Stands left seat.new.me.0 }
{
    let others = !place(tag);
    let found = word.fetch_and::<Try>(seat, 0, others as u64);
    is_set(found as u32, tag)
}

/// The seat has the tag.
pub(crate) fn fetch_or(word: &Word, seat: &mut Place, tag: u8)
    requires own { seat.old.table_id ≡ word.now.table_id }
    requires depth { seat.old.me.0.depth ≡ word.now.key }
    requires one { word.now.table_id.words ≡ 1 }
    requires below { tag < 32 }
    requires held { has_place seat.old.me.0.tags tag ≡ true }
    ensures same { seat.new.table_id ≡ seat.old.table_id }
    ensures view { seat.new.me ≡ (after_gave seat.old.me.0 tag, seat.old.me.1) }
    ensures after { (left : _) × Stands left seat.new.me.0 × (has_place (bits left) tag ≡ true) }
{
    word.fetch_or::<Give>(seat, 0, place(tag) as u64);
}
