//! The tags of one Set Device Bits FIS.

ghost use Rattle.std.specs.Prelude.{◌≡◌, slice_index};
ghost use Rattle.std.specs.List.{position_or_len};
ghost use Rattle.word_bits.specs.Places.{bits, has_place};
ghost use Rattle.device_choice.specs.Turns.{AreNamed, IsTurn};

use crate::order::{Order, tag_of};
use arrayvec::ArrayVec;
use word_bits::{is_set, without_bit};

/// The tags of a set that the device completes in one turn: up to `most`, each named by the order out of those that are left, with a
/// draw for each. A draw that isn't there is 0. The list ends before the first tag that is to fail; if that comes first, it is alone.
pub fn turn_of(order: Order, set: u32, failing: u32, most: u32, draws: &[u64]) -> ArrayVec<u8, 32>
    ensures { IsTurn order draws.now most (bits failing) (bits set) result.items }
{
    let mut tags = named(order, set, most, draws);
    let good = before_failing(tags.as_slice(), failing);
    tags.truncate(good.max(1));
    tags
}

/// How many tags come before the first that is to fail.
#[tactic(auto, using(crate::proofs::TurnsLemmas::first_failing))]
fn before_failing(tags: &[u8], failing: u32) -> usize
    ensures { result ≡ position_or_len (has_place (bits failing)) tags.now }
{
    for (at, tag) in tags.iter().enumerate() {
        if is_set(failing, *tag) {
            return at;
        }
    }
    tags.len()
}

/// The tags that the order names one after the other.
fn named(order: Order, set: u32, most: u32, draws: &[u64]) -> ArrayVec<u8, 32>
    ensures { AreNamed order draws.now most 0 (bits set) result.items }
{
    let mut tags = ArrayVec::new();
    let mut left = set;
    for at in 0..most.min(32) as usize {
        let Some(tag) = tag_of(order, left, draw_at(draws, at)) else {
            return tags;
        };
        tags.push(tag);
        left = without_bit(left, tag);
    }
    tags
}

/// The draw at a place, or 0.
fn draw_at(draws: &[u64], at: usize) -> u64
    ensures { result ≡ slice_index draws.now at }
{
    draws.get(at).copied().unwrap_or(0)
}
