//! The tag of a set that an order names.

ghost use Rattle.std.specs.Prelude.{◌≡◌, MatchOption};
ghost use Rattle.word_bits.specs.Places.{bits, no_places};
ghost use Rattle.device_choice.specs.Orders.{Names, IsDrawn, IsNext};

use word_bits::{highest, is_set, lowest};

/// In which order the device goes on with the tags of a set.
#[derive(Clone, Copy, Debug, PartialEq, Eq)]
pub enum Order {
    /// The lowest tag first.
    Lowest,
    /// The highest tag first.
    Highest,
    /// The one that a draw falls on.
    Drawn,
    /// The first one from the place that a draw says, going round past 31 to 0.
    Round,
}

/// The tag of a set that an order names, or `None` if the set is empty. A draw is any number; `Drawn` and `Round` look at it.
pub fn tag_of(order: Order, set: u32, draw: u64) -> Option<u8>
    ensures { MatchOption result (bits set ≡ no_places) (Names order draw (bits set)) }
{
    match order {
        Order::Lowest => lowest(set),
        Order::Highest => highest(set),
        Order::Drawn => drawn(set, draw),
        Order::Round => next_from(set, draw),
    }
}

/// The tag that a draw falls on.
#[tactic(auto, using(word_bits::proofs::BitsLemmas::bits_zero, crate::proofs::OrdersLemmas::draw_begins, crate::proofs::OrdersLemmas::draw_goes_by, crate::proofs::OrdersLemmas::draw_stays, crate::proofs::OrdersLemmas::draw_falls, crate::proofs::OrdersLemmas::draw_has_fallen, crate::proofs::OrdersLemmas::some_ones))]
fn drawn(set: u32, draw: u64) -> Option<u8>
    ensures { MatchOption result (bits set ≡ no_places) (IsDrawn draw (bits set)) }
{
    if set == 0 {
        return None;
    }
    let mut below = draw % u64::from(set.count_ones());
    for tag in 0..32u8 {
        if is_set(set, tag) {
            if below == 0 {
                return Some(tag);
            }
            below -= 1;
        }
    }
    None
}

/// The tag that comes first from the draw's place on. The draw counts modulo 32, and place 0 comes after 31.
#[tactic(auto, using(crate::proofs::OrdersLemmas::round_goes_by, crate::proofs::OrdersLemmas::round_comes, crate::proofs::OrdersLemmas::round_is_over))]
fn next_from(set: u32, draw: u64) -> Option<u8>
    ensures { MatchOption result (bits set ≡ no_places) (IsNext draw (bits set)) }
{
    let first = (draw % 32) as u8;
    for step in 0..32u8 {
        let tag = (first + step) % 32;
        if is_set(set, tag) {
            return Some(tag);
        }
    }
    None
}
