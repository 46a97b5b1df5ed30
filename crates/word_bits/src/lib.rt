//! The set of a 32-bit word's bits, as the contracts of the crates above see it.
#![tactic(auto)]

ghost use Rattle.std.specs.Prelude.{◌≡◌, ◌-◌, ◌^◌, ◌<◌, ◌≤◌, MatchOption};
ghost use Rattle.word_bits.specs.Places.{bits, has_place, no_places, all_places, with_place, without_place, only_below, IsLowest, IsHighest};

/// The word in which the bit of one place, below 32, is alone.
#[tactic(auto, using(crate::proofs::BitsLemmas::bits_one))]
pub fn place(tag: u8) -> u32
    requires { tag < 32 }
    ensures value { result ≡ 2 ^ tag }
    ensures set { bits result ≡ with_place no_places tag }
{
    1 << tag
}

/// Whether the word has the bit of a place; from place 32 on it has none.
#[tactic(auto, using(crate::proofs::BitsLemmas::test_shifted, crate::proofs::BitsLemmas::has_bit_past))]
pub fn is_set(word: u32, tag: u8) -> bool
    ensures { result ≡ has_place (bits word) tag }
{
    tag < 32 && (word >> tag) & 1 == 1
}

/// The word with the bit of one place, below 32, set.
#[tactic(auto, using(crate::proofs::BitsLemmas::bits_set))]
pub fn with_bit(word: u32, tag: u8) -> u32
    requires { tag < 32 }
    ensures { bits result ≡ with_place (bits word) tag }
{
    word | 1 << tag
}

/// The word with the bit of one place, below 32, cleared.
#[tactic(auto, using(crate::proofs::BitsLemmas::bits_clear))]
pub fn without_bit(word: u32, tag: u8) -> u32
    requires { tag < 32 }
    ensures { bits result ≡ without_place (bits word) tag }
{
    word & !(1 << tag)
}

/// The word with the bits of the places below a depth of at most 32.
#[tactic(auto, using(crate::proofs::BitsLemmas::bits_ones_shifted))]
pub fn below(depth: u32) -> u32
    requires { depth ≤ 32 }
    ensures value { result ≡ 2 ^ depth - 1 }
    ensures set { bits result ≡ only_below depth all_places }
{
    ((1u64 << depth) - 1) as u32
}

/// The lowest place whose bit is set, or `None` where the word is 0.
#[tactic(auto, using(crate::proofs::BitsLemmas::bits_zero))]
pub fn lowest(word: u32) -> Option<u8>
    ensures { MatchOption result (bits word ≡ no_places) (IsLowest (bits word)) }
{
    if word == 0 {
        return None;
    }
    Some(word.trailing_zeros() as u8)
}

/// The highest place whose bit is set, or `None` where the word is 0.
#[tactic(auto, using(crate::proofs::BitsLemmas::bits_zero))]
pub fn highest(word: u32) -> Option<u8>
    ensures { MatchOption result (bits word ≡ no_places) (IsHighest (bits word)) }
{
    if word == 0 {
        return None;
    }
    Some(31 - word.leading_zeros() as u8)
}
