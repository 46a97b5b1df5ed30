//! The worked stories of the model, from events written by hand: orders, strangers, errors and recoveries.
mod count;
mod story;

use Look::{Byte, Entries, Owed, Stands, Tags};
use Note::{Accept, Collect, Complete, Fail as Failing, Read, Recover, Reissue, Write, Zero};
use Step::{Answer, Failure, Falling, Never, Next, Rising, Shows};
use ncq_journal::{Outcome, Phase, Plain};
use std::test::Fail;
use story::{Look, Note, Step, tells};

static TWO_WRITES: [Step; 9] = [
    Next(&[Write(0, 3, 0xaa), Write(1, 3, 0xbb)]),
    Next(&[Accept(0), Accept(1), Complete(1), Complete(0), Collect(0)]),
    Next(&[Read(2, 3, 1), Accept(2), Complete(2), Collect(2)]),
    Shows(Entries(11)),
    Shows(Byte(3, Some(0xaa))),
    Shows(Owed(1)),
    Answer(0, 5, Outcome::Wrote, None),
    Answer(1, 4, Outcome::Wrote, None),
    Answer(7, 9, Outcome::Read, Some(0xaa)),
];

#[test]
fn writes_count_in_the_order_of_their_completion(rt: HostRuntime) -> Result<(), Fail> {
    tells(&rt, rt.alloc(), 8, 4, TWO_WRITES.as_slice())
}

static READ_BETWEEN_WRITES: [Step; 6] = [
    Next(&[Write(0, 7, 0xaa), Write(1, 7, 0xbb), Read(2, 7, 1)]),
    Next(&[Accept(0), Accept(1), Accept(2)]),
    Next(&[Complete(1), Complete(2), Complete(0), Collect(2)]),
    Answer(2, 7, Outcome::Read, Some(0xbb)),
    Shows(Byte(7, Some(0xaa))),
    Shows(Byte(8, None)),
];

#[test]
fn a_read_between_two_writes_has_the_first_completed(rt: HostRuntime) -> Result<(), Fail> {
    tells(&rt, rt.alloc(), 8, 3, READ_BETWEEN_WRITES.as_slice())
}

static ZEROS: [Step; 11] = [
    Next(&[Write(0, 3, 0xaa), Accept(0), Complete(0), Collect(0)]),
    Never(&[Zero(3, 0), Zero(7, 2), Zero(8, 1), Zero(u64::MAX, 1)]),
    Next(&[Zero(2, 2)]),
    Shows(Byte(3, Some(0))),
    Next(&[Read(0, 2, 2)]),
    Never(&[Zero(0, 8)]),
    Next(&[Accept(0), Complete(0), Collect(0), Write(1, 3, 0xbb)]),
    Next(&[Accept(1), Complete(1), Zero(4, 4)]),
    Answer(5, 7, Outcome::Read, Some(0)),
    Shows(Byte(3, Some(0xbb))),
    Shows(Stands(1, Phase::Done)),
];

#[test]
fn a_zero_counts_until_its_sectors_are_written(rt: HostRuntime) -> Result<(), Fail> {
    tells(&rt, rt.alloc(), 8, 2, ZEROS.as_slice())
}

static STRANGERS: [Step; 11] = [
    Next(&[Write(0, 0, 0x11)]),
    Never(&[Collect(0), Complete(0), Read(0, 0, 1), Read(1, 0, 1)]),
    Next(&[Accept(0), Complete(0), Collect(0)]),
    Never(&[Collect(0), Accept(0), Complete(0)]),
    Never(&[Read(0, 0, 0), Read(0, 0, 65_537), Read(0, 1 << 48, 1)]),
    Next(&[Read(0, 0, 1)]),
    Never(&[Complete(0), Write(0, 0, 0x22), Write(1, 0, 0x22)]),
    Next(&[Accept(0)]),
    Never(&[Accept(0)]),
    Next(&[Complete(0), Collect(0)]),
    Answer(4, 6, Outcome::Read, Some(0x11)),
];

#[test]
fn one_slot_serves_one_request_at_a_time(rt: HostRuntime) -> Result<(), Fail> {
    tells(&rt, rt.alloc(), 8, 1, STRANGERS.as_slice())
}

static ERROR_IN_A_QUEUE: [Step; 24] = [
    Next(&[Read(0, 0, 1), Read(1, 7, 1), Write(2, 9, 0x5a)]),
    Next(&[Accept(0), Accept(1), Accept(2)]),
    Never(&[Failing(1, 0x40, 8), Recover(1), Reissue(0)]),
    Never(&[Note::Plain(Plain::Identify)]),
    Next(&[Failing(1, 0x40, 7)]),
    Shows(Tags(7, 0, 0)),
    Never(&[Complete(0), Read(3, 0, 1), Failing(0, 0x40, 0)]),
    Never(&[Collect(1), Recover(0)]),
    Next(&[Recover(1)]),
    Shows(Tags(0, 0, 0)),
    Shows(Stands(0, Phase::Held)),
    Shows(Stands(1, Phase::Done)),
    Shows(Stands(2, Phase::Held)),
    Shows(Stands(3, Phase::Free)),
    Shows(Owed(9)),
    Never(&[Recover(1), Reissue(1), Accept(0)]),
    Next(&[Collect(1), Reissue(0), Reissue(2)]),
    Next(&[Accept(0), Complete(0), Accept(2), Complete(2)]),
    Next(&[Collect(0), Collect(2)]),
    Failure(1, 6, 0x40, 7),
    Answer(0, 12, Outcome::Read, Some(0)),
    Answer(2, 14, Outcome::Wrote, None),
    Shows(Byte(9, Some(0x5a))),
    Shows(Entries(17)),
];

#[test]
fn an_error_in_a_queue_fails_one_command_and_holds_the_others(rt: HostRuntime) -> Result<(), Fail> {
    tells(&rt, rt.alloc(), 1000, 32, ERROR_IN_A_QUEUE.as_slice())
}

static LAST_SECTOR: [Step; 9] = [
    Next(&[Read(0, 7, 1), Accept(0), Complete(0), Write(1, 8, 0xff)]),
    Never(&[Accept(1), Complete(1), Failing(1, 0x10, 7)]),
    Never(&[Failing(1, 0x10, 9), Failing(1, 0x40, 8)]),
    Next(&[Failing(1, 0x10, 8)]),
    Shows(Tags(2, 2, 0)),
    Next(&[Recover(1), Collect(1), Read(1, 7, 2)]),
    Failure(3, 4, 0x10, 8),
    Never(&[Accept(1), Failing(1, 0x10, 7)]),
    Next(&[Failing(1, 0x10, 8)]),
];

#[test]
fn a_command_past_the_last_sector_is_refused_when_it_is_accepted(
    rt: HostRuntime,
) -> Result<(), Fail> {
    tells(&rt, rt.alloc(), 8, 2, LAST_SECTOR.as_slice())
}

static BROKEN_WRITE: [Step; 12] = [
    Next(&[Write(0, 0, 0x11), Write(1, 0, 0x22), Accept(1)]),
    Never(&[Failing(0, 0x40, 0), Note::Plain(Plain::Flush)]),
    Next(&[Failing(1, 0x84, 0)]),
    Shows(Tags(3, 1, 0)),
    Never(&[Note::Plain(Plain::Flush), Collect(0)]),
    Next(&[Recover(1)]),
    Never(&[Write(1, 0, 0x33), Note::Plain(Plain::ReadLog)]),
    Next(&[Note::Plain(Plain::Flush), Reissue(0)]),
    Next(&[Accept(0), Complete(0), Collect(1)]),
    Failure(1, 3, 0x84, 0),
    Answer(0, 8, Outcome::Wrote, None),
    Shows(Byte(0, Some(0x11))),
];

#[test]
fn a_broken_write_leaves_the_image_and_an_issued_one_is_held(rt: HostRuntime) -> Result<(), Fail> {
    tells(&rt, rt.alloc(), 8, 2, BROKEN_WRITE.as_slice())
}

/// No tag of 32 is left out.
const NONE: u8 = 32;

static CROWD: [Step; 14] = [
    Rising(NONE, &[Write(0, 0, 1)]),
    Shows(Tags(u32::MAX, u32::MAX, 0)),
    Rising(NONE, &[Accept(0)]),
    Shows(Tags(u32::MAX, 0, u32::MAX)),
    Next(&[Failing(17, 0x40, 17)]),
    Shows(Tags(u32::MAX, 0, 0)),
    Next(&[Recover(17), Collect(17)]),
    Shows(Owed(124)),
    Rising(17, &[Reissue(0)]),
    Shows(Tags(0xfffd_ffff, 0xfffd_ffff, 0)),
    Falling(17, &[Accept(0), Complete(0), Collect(0)]),
    Shows(Entries(191)),
    Shows(Byte(17, Some(0))),
    Shows(Byte(16, Some(1))),
];

#[test]
fn a_queue_of_32_loses_one_command_and_serves_the_others(rt: HostRuntime) -> Result<(), Fail> {
    tells(&rt, rt.alloc(), 64, 32, CROWD.as_slice())
}
