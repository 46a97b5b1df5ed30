//! One thread with two seats: the worked story, and boards of several depths.
ghost use Rattle.std.specs.Prelude.{◌≡◌};

use std::process::Abort;
use std::test::Fail;
use tag_board::{Full, TagBoard, TagSeat};
use word_bits::is_set;

/// What a row has in place of a tag where the claim is `Full`.
const FULL: u32 = 99;

/// One call of a seat.
#[derive(Clone, Copy, Debug)]
enum Step {
    /// Answers the tag, or `FULL`.
    Claim,
    /// Gives a tag back where the seat has it, and answers the tags that are left.
    Give(u8),
    /// Answers the word.
    Look,
}

use Step::{Claim, Give, Look};

fn goes(board: &TagBoard, seat: &mut TagSeat, step: Step) -> u32
    requires { seat.old.board ≡ board.now }
    ensures { seat.new.board ≡ board.now }
{
    match step {
        Claim => match board.claim(seat) {
            Ok(tag) => u32::from(tag),
            Err(Full) => FULL,
        },
        Give(tag) => {
            if is_set(seat.held(), tag) {
                board.give_back(seat, tag);
            }
            seat.held()
        }
        Look => board.free_now(seat),
    }
}

fn equal(rt: &impl Abort, step: Step, found: u32, wanted: u32) {
    assert!(rt; found == wanted, "{step:?} answers {found}, not {wanted}");
}

fn gives_all_back(board: &TagBoard, seat: &mut TagSeat)
    requires { seat.old.board ≡ board.now }
    ensures { seat.new.board ≡ board.now }
{
    for tag in 0..32u8 {
        goes(board, seat, Give(tag));
    }
}

#[test]
fn two_seats_claim_in_turn_until_the_board_is_full(rt: HostRuntime) -> Result<(), Fail> {
    static LATER: [(Step, u32); 4] = [
        (Claim, FULL),
        (Look, 0),
        (Give(16), 0x5556_5555),
        (Look, 0x1_0000),
    ];
    let (board, mut first) = TagBoard::new(rt.alloc(), 32)?;
    let mut second = board.split(&mut first);
    for pair in 0..16u32 {
        equal(&rt, Claim, goes(&board, &mut first, Claim), 2 * pair);
        equal(&rt, Claim, goes(&board, &mut second, Claim), 2 * pair + 1);
    }
    equal(&rt, Claim, goes(&board, &mut first, Claim), FULL);
    equal(
        &rt,
        Give(17),
        goes(&board, &mut second, Give(17)),
        0xaaa8_aaaa,
    );
    equal(&rt, Look, goes(&board, &mut first, Look), 0x0002_0000);
    equal(&rt, Claim, goes(&board, &mut first, Claim), 17);
    for (step, wanted) in LATER {
        equal(&rt, step, goes(&board, &mut first, step), wanted);
    }
    gives_all_back(&board, &mut first);
    gives_all_back(&board, &mut second);
    board.join(&mut first, second);
    equal(&rt, Look, board.close(first), 0xffff_ffff);
    Ok(())
}

#[test]
fn a_board_has_as_many_tags_as_its_depth(rt: HostRuntime) -> Result<(), Fail> {
    static DEPTHS: [(u32, u32); 4] = [(1, 1), (3, 7), (31, 0x7fff_ffff), (32, 0xffff_ffff)];
    for (depth, all) in DEPTHS {
        let (board, mut seat) = TagBoard::new(rt.alloc(), depth)?;
        for tag in 0..depth {
            equal(&rt, Claim, goes(&board, &mut seat, Claim), tag);
        }
        equal(&rt, Claim, goes(&board, &mut seat, Claim), FULL);
        equal(&rt, Give(32), goes(&board, &mut seat, Give(32)), all);
        equal(&rt, Look, goes(&board, &mut seat, Look), 0);
        gives_all_back(&board, &mut seat);
        equal(&rt, Look, goes(&board, &mut seat, Look), all);
        equal(&rt, Look, board.close(seat), all);
    }
    Ok(())
}

#[test]
fn the_tags_of_a_dropped_seat_stay_taken(rt: HostRuntime) -> Result<(), Fail> {
    let (board, mut first) = TagBoard::new(rt.alloc(), 3)?;
    let mut second = board.split(&mut first);
    equal(&rt, Claim, goes(&board, &mut second, Claim), 0);
    drop(second);
    equal(&rt, Claim, goes(&board, &mut first, Claim), 1);
    equal(&rt, Look, goes(&board, &mut first, Look), 4);
    equal(&rt, Look, board.close(first), 4);
    Ok(())
}
