//! Which tag the device goes on with, with no port.

ghost use Rattle.std.specs.Prelude.{◌≡◌};
ghost use Rattle.ahci_ffi.specs.Choosing.{AnswersNamed, AnswersTag, AnswersTurn, AnswersTurnOf, order_numbered};

use crate::fises::put;
use crate::status::Status;
use device_choice::{Order, tag_of, turn_of};
use port_refusal::Refusal;

/// The tag of a set that the order of a number names. Only `Drawn` and `Round` look at the draw.
pub fn choose_tag(order: u32, set: u32, draw: u64, tag: &mut u32) -> Status
    ensures { AnswersTag order set draw result tag.old tag.new }
{
    match order_numbered(order) {
        Some(order) => put_named(order, set, draw, tag),
        None => Status::BadKind,
    }
}

/// Copies the tags of a set that the device completes in one turn, each named by the order of a number, and says how many there are.
pub fn choose_tags(
    order: u32,
    set: u32,
    failing: u32,
    most: u32,
    draws: &[u64],
    tags: &mut [u8],
    len: &mut usize,
) -> Status
    ensures { AnswersTurn order set failing most draws.now result tags.old tags.new len.old len.new }
{
    match order_numbered(order) {
        Some(order) => put_turn(order, set, failing, most, draws, tags, len),
        None => Status::BadKind,
    }
}

/// The order of a number, if there is one.
fn order_numbered(number: u32) -> Option<Order>
    ensures { result ≡ order_numbered number }
{
    match number {
        0 => Some(Order::Lowest),
        1 => Some(Order::Highest),
        2 => Some(Order::Drawn),
        3 => Some(Order::Round),
        _ => None,
    }
}

/// The tag that an order names, if the set has one.
fn put_named(order: Order, set: u32, draw: u64, tag: &mut u32) -> Status
    ensures { AnswersNamed order set draw result tag.old tag.new }
{
    let Some(named) = tag_of(order, set, draw) else {
        return Status::Refused(Refusal::BadTags);
    };
    *tag = u32::from(named);
    Status::Done
}

/// The tags of a turn, if the set has some.
fn put_turn(
    order: Order,
    set: u32,
    failing: u32,
    most: u32,
    draws: &[u64],
    tags: &mut [u8],
    len: &mut usize,
) -> Status
    ensures { AnswersTurnOf order set failing most draws.now result tags.old tags.new len.old len.new }
{
    if set == 0 {
        return Status::Refused(Refusal::BadTags);
    }
    let turn = turn_of(order, set, failing, most, draws);
    put(turn.as_slice(), &[], tags, len)
}
