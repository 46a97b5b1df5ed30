//! Words at both ends, by values worked out by hand.
use crate::table::equal;
use word_bits::{below, highest, is_set, lowest, place, with_bit, without_bit};

/// A tag and its word.
static PLACES: [(u8, u32); 3] = [(0, 1), (7, 0x80), (31, 0x8000_0000)];

#[test]
fn words_and_places_agree_at_both_ends_of_the_word(rt: HostRuntime) {
    for (row, (tag, word)) in PLACES.iter().enumerate() {
        assert!(rt; *tag < 32);
        let (with, without) = (with_bit(0x10, *tag), without_bit(0xffff_ffff, *tag));
        let found = (place(*tag), with, without, is_set(*word, *tag));
        equal(&rt, row, &found, &(*word, 0x10 | *word, !*word, true));
    }
    equal(
        &rt,
        3,
        &(is_set(0x80, 6), is_set(0xffff_ffff, 32)),
        &(false, false),
    );
}

/// A depth and its mask.
static MASKS: [(u32, u32); 5] = [
    (0, 0),
    (1, 1),
    (4, 0xf),
    (31, 0x7fff_ffff),
    (32, 0xffff_ffff),
];

#[test]
fn a_mask_has_the_places_below_its_depth(rt: HostRuntime) {
    for (row, (depth, word)) in MASKS.iter().enumerate() {
        assert!(rt; *depth <= 32);
        equal(&rt, row, &below(*depth), word);
    }
}

/// A word, its lowest place and its highest.
static ENDS: [(u32, Option<u8>, Option<u8>); 3] = [
    (0, None, None),
    (0x0002_0100, Some(8), Some(17)),
    (0xffff_ffff, Some(0), Some(31)),
];

#[test]
fn the_ends_of_a_word_are_found(rt: HostRuntime) {
    for (row, (word, low, high)) in ENDS.iter().enumerate() {
        equal(&rt, row, &(lowest(*word), highest(*word)), &(*low, *high));
    }
}
