//! Which tag an order names, and the tags of a turn: worked out by hand.
use ahci_ffi::{Status, choose_tag, choose_tags};
use device_choice::{Order, tag_of, turn_of};
use port_refusal::Refusal;

/// The tags 1, 3, 4 and 9.
const SET: u32 = 0x21A;

/// The tags 1, 5 and 30.
const ENDS: u32 = 0x4000_0022;

/// An order, a set, a draw, and the tag that is named.
struct Named(Order, u32, u64, Option<u8>);

static NAMED: [Named; 23] = [
    Named(Order::Lowest, SET, 2, Some(1)),
    Named(Order::Lowest, 0x8000_0000, 0, Some(31)),
    Named(Order::Lowest, 0, 2, None),
    Named(Order::Highest, SET, 2, Some(9)),
    Named(Order::Highest, 1, 0, Some(0)),
    Named(Order::Highest, 0, 0, None),
    Named(Order::Drawn, SET, 0, Some(1)),
    Named(Order::Drawn, SET, 1, Some(3)),
    Named(Order::Drawn, SET, 2, Some(4)),
    Named(Order::Drawn, SET, 3, Some(9)),
    Named(Order::Drawn, SET, 4, Some(1)),
    // 2^64 - 1 is 3 modulo 4, and 15 modulo 16
    Named(Order::Drawn, SET, 0xffff_ffff_ffff_ffff, Some(9)),
    Named(Order::Drawn, 0xffff_0000, 0xffff_ffff_ffff_ffff, Some(31)),
    Named(Order::Drawn, 0, 3, None),
    Named(Order::Round, ENDS, 0, Some(1)),
    Named(Order::Round, ENDS, 1, Some(1)),
    Named(Order::Round, ENDS, 2, Some(5)),
    Named(Order::Round, ENDS, 6, Some(30)),
    Named(Order::Round, ENDS, 30, Some(30)),
    Named(Order::Round, ENDS, 31, Some(1)),
    Named(Order::Round, ENDS, 34, Some(5)),
    // 2^64 - 1 is 31 modulo 32
    Named(Order::Round, ENDS, 0xffff_ffff_ffff_ffff, Some(1)),
    Named(Order::Round, 0, 3, None),
];

#[test]
fn an_order_names_a_tag_of_the_set(rt: HostRuntime) {
    for (row, Named(order, set, draw, tag)) in NAMED.iter().enumerate() {
        assert_eq!(rt; tag_of(*order, *set, *draw), *tag, "at row {row}");
    }
}

/// An order, the tags that are to fail, how many tags there may be, and the tags of the turn.
struct Turn(Order, u32, u32, &'static [u8]);

static TURNS: [Turn; 14] = [
    Turn(Order::Lowest, 0, 1, &[1]),
    Turn(Order::Lowest, 0, 3, &[1, 3, 4]),
    Turn(Order::Lowest, 0, 0xffff_ffff, &[1, 3, 4, 9]),
    Turn(Order::Lowest, 0, 0, &[]),
    Turn(Order::Highest, 0, 2, &[9, 4]),
    // of 4 tags number 2, of the 3 that are left number 1, of 2 number 7 modulo 2; the last has no draw
    Turn(Order::Drawn, 0, 32, &[4, 3, 9, 1]),
    Turn(Order::Drawn, 0x8, 32, &[4]),
    // from 6 on 9, of 1, 3, 4 from 1 on 1, of 3, 4 from 7 on 3; the last has no draw
    Turn(Order::Round, 0, 32, &[9, 1, 3, 4]),
    Turn(Order::Round, 0x8, 32, &[9, 1]),
    Turn(Order::Lowest, 0x10, 32, &[1, 3]),
    Turn(Order::Lowest, 0x12, 32, &[1]),
    Turn(Order::Highest, 0x210, 32, &[9]),
    Turn(Order::Highest, 0x10, 1, &[9]),
    // none of those that are to fail is in the set
    Turn(Order::Lowest, 0xffff_fde5, 32, &[1, 3, 4, 9]),
];

/// The draws of the tags of a turn.
static DRAWS: [u64; 3] = [6, 1, 7];

#[test]
fn a_turn_has_tags_up_to_one_that_is_to_fail(rt: HostRuntime) {
    for (row, Turn(order, failing, most, tags)) in TURNS.iter().enumerate() {
        let turn = turn_of(*order, SET, *failing, *most, &DRAWS);
        assert_eq!(rt; turn.as_slice(), *tags, "at row {row}");
    }
}

/// No tag can be chosen.
const NONE: Status = Status::Refused(Refusal::BadTags);

/// The number of an order, a set, and what is answered for a tag, and for a list of 4 tags over a buffer of 3.
struct Answers(u32, u32, Status, Status);

static ANSWERS: [Answers; 5] = [
    Answers(4, SET, Status::BadKind, Status::BadKind),
    Answers(0xffff_ffff, 0, Status::BadKind, Status::BadKind),
    Answers(0, 0, NONE, NONE),
    Answers(2, 0, NONE, NONE),
    Answers(1, SET, Status::Done, Status::BufferTooSmall),
];

#[test]
fn a_number_that_is_no_order_is_refused_first(rt: HostRuntime) {
    for (row, Answers(order, set, of_tag, of_list)) in ANSWERS.iter().enumerate() {
        let (mut tag, mut tags, mut len) = (99, [0xEE; 3], 9);
        let one = choose_tag(*order, *set, 6, &mut tag);
        let list = choose_tags(*order, *set, 0, 4, &DRAWS, &mut tags, &mut len);
        assert_eq!(rt;
            (one, list, tags, len),
            (*of_tag, *of_list, [0xEE; 3], 9),
            "at row {row}"
        );
    }
}

#[test]
fn chosen_tags_are_copied_to_the_beginning_of_a_buffer(rt: HostRuntime) {
    let (mut tags, mut len) = ([0xEE; 3], 9);
    let answer = choose_tags(1, SET, 0, 2, &DRAWS, &mut tags, &mut len);
    assert_eq!(rt; (answer, tags, len), (Status::Done, [9, 4, 0xEE], 2));
}
