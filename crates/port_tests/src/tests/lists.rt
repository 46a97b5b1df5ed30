//! Lists of tags that are served by one call, with one Set Device Bits FIS; and lists that are refused whole.
use super::story::Row::{
    Accepts, Collect, Entries, Failure, Issue, Received, Recover, Register, Reissue, Sector,
    Serves, Step,
};
use super::story::{Row, goes, goes_on, port_of};
use ahci_port::Stepped::{Accepted, Failed};
use ahci_port::{Port, StepFault};
use ncq_journal::Outcome;
use std::alloc::Global;
use std::process::Abort;
use std::test::Fail;
use test_helpers::TableStep;
use test_helpers::TableStep::{Accept, Serve};

pub const IN_ITS_ORDER: &[Row] = &[
    Issue(0, 3, Some(0xAA), Ok(0)),
    Issue(1, 3, Some(0xBB), Ok(1)),
    Issue(2, 3, None, Ok(2)),
    Accepts(&[0, 1, 2], 3),
    Step(Serve(&[0, 0]), Err(StepFault::BadTags)),
    Step(Serve(&[0, 3, 3]), Err(StepFault::NotAccepted)),
    Step(Serve(&[]), Err(StepFault::BadTags)),
    Step(Serve(&[0, 1, 2, 1]), Err(StepFault::BadTags)),
    Sector(3, 0),
    Serves(&[1, 2, 0], 6, 3),
    Register(0x134, Ok(0)),
    Received(0x58, [0xA1, 0x40, 0x40, 0, 7, 0, 0, 0]),
    Collect(2, 2, Ok((7, Outcome::Read, 0xBB))),
    Collect(0, 0, Ok((8, Outcome::Wrote, 0xAA))),
    Collect(1, 1, Ok((6, Outcome::Wrote, 0xBB))),
    Sector(3, 0xAA),
];

/// Tag 1 fails with error 40h at LBA 1.
const FAIL_1_AT_1: TableStep = TableStep::Fail(1, 0x40, 1);

// The held commands are accepted no more, until they are issued again.
pub const AFTER_A_FAILURE: &[Row] = &[
    Issue(0, 0, None, Ok(0)),
    Issue(1, 1, None, Ok(1)),
    Issue(2, 2, Some(0x77), Ok(2)),
    Accepts(&[0, 1, 2], 3),
    Step(FAIL_1_AT_1, Ok(Failed(6))),
    Step(Serve(&[0, 2]), Err(StepFault::Halted)),
    Step(Serve(&[2]), Err(StepFault::Halted)),
    Step(Serve(&[]), Err(StepFault::Halted)),
    Step(Serve(&[0, 0]), Err(StepFault::Halted)),
    Step(Serve(&[3, 255]), Err(StepFault::Halted)),
    Recover(Ok(1)),
    Step(Serve(&[0, 2]), Err(StepFault::NotAccepted)),
    Reissue(0, Ok(())),
    Reissue(2, Ok(())),
    Accepts(&[0], 10),
    Step(Serve(&[0, 2]), Err(StepFault::NotAccepted)),
    Accepts(&[2], 11),
    Serves(&[2, 0], 12, 2),
    Received(0x58, [0xA1, 0x40, 0x40, 0, 5, 0, 0, 0]),
    Register(0x134, Ok(0)),
    Failure(1, 1, (6, 0x40, 1), 0),
    Sector(2, 0x77),
    Entries(15),
];

/// A port of 8 sectors and so many slots, whose commands are all accepted. Each is of sector 5: an even tag writes the number
/// that follows it, an odd tag reads.
fn full(rt: &impl Abort, alloc: Global, depth: u8) -> Result<Port, Fail> {
    let mut port = port_of(alloc, 8, u32::from(depth))?;
    for tag in 0..depth {
        let byte = (tag % 2 == 0).then_some(tag.wrapping_add(1));
        let number = u64::from(tag);
        let row = Issue(tag, 5, byte, Ok(number));
        goes(rt, alloc, &mut port, usize::from(tag), row)?;
    }
    for tag in 0..depth {
        let entry = u64::from(depth) + u64::from(tag);
        let row = Step(Accept(tag), Ok(Accepted(entry)));
        goes(rt, alloc, &mut port, usize::from(tag), row)?;
    }
    Ok(port)
}

/// Every tag, falling.
const FALLING: &[u8] = &[
    31, 30, 29, 28, 27, 26, 25, 24, 23, 22, 21, 20, 19, 18, 17, 16, 15, 14, 13, 12, 11, 10, 9, 8,
    7, 6, 5, 4, 3, 2, 1, 0,
];

/// Every tag but 31, falling.
const FALLING_FROM_30: &[u8] = &[
    30, 29, 28, 27, 26, 25, 24, 23, 22, 21, 20, 19, 18, 17, 16, 15, 14, 13, 12, 11, 10, 9, 8, 7, 6,
    5, 4, 3, 2, 1, 0,
];

/// Every tag but 0, falling, and tag 31 again.
const FALLING_AND_31: &[u8] = &[
    31, 30, 29, 28, 27, 26, 25, 24, 23, 22, 21, 20, 19, 18, 17, 16, 15, 14, 13, 12, 11, 10, 9, 8,
    7, 6, 5, 4, 3, 2, 1, 31,
];

static THIRTY_TWO: [Row; 7] = [
    Step(Serve(FALLING_AND_31), Err(StepFault::BadTags)),
    Serves(FALLING, 64, 32),
    Register(0x134, Ok(0)),
    Register(0x110, Ok(8)),
    Received(0x58, [0xA1, 0x40, 0x40, 0, 0xFF, 0xFF, 0xFF, 0xFF]),
    Entries(96),
    Sector(5, 1),
];

/// What is collected of a full port of 32 slots whose tags were served falling, from entry 64 on: a read has what the write
/// of the tag above it wrote, and that of tag 31, before which there was none, has zeros.
fn falling_row(tag: u8) -> Row {
    let number = u64::from(tag);
    let entry = 95u64.saturating_sub(number);
    let (outcome, byte) = match tag {
        31 => (Outcome::Read, 0),
        _ if tag % 2 == 1 => (Outcome::Read, tag.wrapping_add(2)),
        _ => (Outcome::Wrote, tag.wrapping_add(1)),
    };
    Collect(tag, number, Ok((entry, outcome, byte)))
}

#[test]
fn thirty_two_commands_are_served_by_one_call(rt: HostRuntime) -> Result<(), Fail> {
    let alloc = rt.alloc();
    let mut port = full(&rt, alloc, 32)?;
    goes_on(&rt, alloc, &mut port, "32 tags", &THIRTY_TWO)?;
    for tag in 0..32u8 {
        let row = falling_row(tag);
        goes(&rt, alloc, &mut port, usize::from(tag), row)?;
    }
    Ok(())
}

// Tag 16, in the middle of the list, is done, then free, then issued and not yet accepted.
static ONE_OF_ANOTHER_PHASE: [Row; 13] = [
    Serves(&[16], 64, 1),
    Received(0x58, [0xA1, 0x40, 0x40, 0, 0, 0, 1, 0]),
    Step(Serve(FALLING), Err(StepFault::NotAccepted)),
    Collect(16, 16, Ok((64, Outcome::Wrote, 17))),
    Step(Serve(FALLING), Err(StepFault::NotAccepted)),
    Issue(16, 5, None, Ok(66)),
    Step(Serve(FALLING), Err(StepFault::NotAccepted)),
    Accepts(&[16], 67),
    Sector(5, 17),
    Serves(FALLING, 68, 32),
    Received(0x58, [0xA1, 0x40, 0x40, 0, 0xFF, 0xFF, 0xFF, 0xFF]),
    Collect(16, 66, Ok((83, Outcome::Read, 19))),
    Sector(5, 1),
];

#[test]
fn a_list_with_a_tag_of_another_phase_is_refused_whole(rt: HostRuntime) -> Result<(), Fail> {
    let mut port = full(&rt, rt.alloc(), 32)?;
    goes_on(&rt, rt.alloc(), &mut port, "32 tags", &ONE_OF_ANOTHER_PHASE)
}

static THIRTY_ONE: [Row; 9] = [
    Step(Serve(&[31]), Err(StepFault::NotAccepted)),
    Step(Serve(&[255]), Err(StepFault::NotAccepted)),
    Step(Serve(&[30, 31]), Err(StepFault::NotAccepted)),
    Step(Serve(FALLING), Err(StepFault::NotAccepted)),
    Sector(5, 0),
    Serves(FALLING_FROM_30, 62, 31),
    Register(0x134, Ok(0)),
    Received(0x58, [0xA1, 0x40, 0x40, 0, 0xFF, 0xFF, 0xFF, 0x7F]),
    Sector(5, 1),
];

#[test]
fn a_port_of_31_slots_has_no_tag_31(rt: HostRuntime) -> Result<(), Fail> {
    let mut port = full(&rt, rt.alloc(), 31)?;
    goes_on(&rt, rt.alloc(), &mut port, "31 tags", &THIRTY_ONE)
}
