//! The tag board, once it is made.
ghost use Rattle.std.specs.Prelude.{◌≡◌};

use super::unasked;
use crate::tests::heap::{Heap, refuse_from};
use refusing_allocator::Refusing;
use std::process::Abort;
use std::test::Fail;
use tag_board::{TagBoard, TagSeat};
use word_bits::is_set;

/// A board with two seats.
#[derive(Drop)]
struct Pair<'a> {
    board: TagBoard<&'a Heap>,
    first: TagSeat,
    second: TagSeat,
    ghost own: { first.board ≡ board },
    ghost other: { second.board ≡ board },
}

/// What is done with it. The seats are `false`, the first, and `true`.
#[derive(Clone, Copy, Debug)]
enum Call {
    Claim(bool),
    /// Where the seat has the tag.
    GiveBack(bool, u8),
    FreeNow(bool),
    Held(bool),
}

/// What a row has in place of a tag where the claim is full.
const FULL: u32 = 99;

impl<'a> Pair<'a> {
    fn goes(&mut self, call: Call) -> u32 {
        match call {
            Call::Claim(false) => self.board.claim(&mut self.first).map_or(FULL, u32::from),
            Call::Claim(true) => self.board.claim(&mut self.second).map_or(FULL, u32::from),
            Call::GiveBack(false, tag) => {
                if is_set(self.first.held(), tag) {
                    self.board.give_back(&mut self.first, tag);
                }
                self.first.held()
            }
            Call::GiveBack(true, tag) => {
                if is_set(self.second.held(), tag) {
                    self.board.give_back(&mut self.second, tag);
                }
                self.second.held()
            }
            Call::FreeNow(false) => self.board.free_now(&mut self.first),
            Call::FreeNow(true) => self.board.free_now(&mut self.second),
            Call::Held(false) => self.first.held(),
            Call::Held(true) => self.second.held(),
        }
    }

    /// Joins the seats and ends the board: the tags that are free at the end.
    fn closes(self) -> u32 {
        let Pair {
            board,
            mut first,
            second,
        } = self;
        board.join(&mut first, second);
        board.close(first)
    }
}

// Once two seats have claimed 0 to 31 in turn.
static LATER: [(Call, u32); 9] = [
    (Call::Claim(false), FULL),
    (Call::Held(false), 0x5555_5555),
    (Call::GiveBack(true, 17), 0xAAA8_AAAA),
    (Call::FreeNow(false), 0x0002_0000),
    (Call::Claim(false), 17),
    (Call::Held(false), 0x5557_5555),
    (Call::Claim(true), FULL),
    (Call::GiveBack(false, 32), 0x5557_5555),
    (Call::FreeNow(true), 0),
];

fn pair_of<'a>(heap: &'a Heap) -> Result<Pair<'a>, Fail> {
    let (board, mut first) = TagBoard::new(heap, 32)?;
    refuse_from(heap, 0);
    let second = board.split(&mut first);
    Ok(Pair {
        board,
        first,
        second,
    })
}

#[test]
fn a_board_needs_memory_once(rt: HostRuntime) -> Result<(), Fail> {
    let heap = Refusing::new(rt.alloc());
    let mut pair = pair_of(&heap)?;
    for tag in 0..32u32 {
        let call = Call::Claim(tag % 2 == 1);
        unasked(&rt, &heap, &call, &pair.goes(call), &tag);
    }
    for (call, wanted) in LATER {
        unasked(&rt, &heap, &call, &pair.goes(call), &wanted);
    }
    for tag in 0..32u8 {
        let _left = pair.goes(Call::GiveBack(false, tag));
        let _left = pair.goes(Call::GiveBack(true, tag));
    }
    unasked(&rt, &heap, &"close", &pair.closes(), &u32::MAX);
    Ok(())
}
