//! The port in use: each call once with memory, and the worked rows.
use super::errors::{ERROR_IN_A_QUEUE, HELD, LAST_SECTOR};
use super::lists::{AFTER_A_FAILURE, IN_ITS_ORDER};
use super::reset;
use super::story::Row::{
    Accepts, Acknowledge, Collect, Entries, Flush, Identify, Issue, Received, Register, Sector,
    Serves, Step, Zero,
};
use super::story::{Row, goes_on, port_of};
use ahci_port::Stepped::Failed;
use ahci_port::{PlainFault, ZeroFault};
use ahci_regs::RegFault;
use ncq_journal::Outcome;
use std::test::Fail;
use test_helpers::FAIL_1_AT_7;

const REGISTERS: &[Row] = &[
    Issue(0, 1, Some(0xAA), Ok(0)),
    Register(0x134, Ok(1)),
    Register(0x138, Ok(1)),
    Accepts(&[0], 1),
    Register(0x134, Ok(1)),
    Register(0x138, Ok(0)),
    Serves(&[0], 2, 1),
    Register(0x134, Ok(0)),
    Register(0x110, Ok(8)),
    Acknowledge(8),
    Register(0x110, Ok(0)),
    Register(0x102, Err(RegFault::Unaligned)),
    Register(0x11C, Err(RegFault::NoSuchRegister)),
    Received(0x58, [0xA1, 0x40, 0x40, 0, 1, 0, 0, 0]),
];

const READ_BETWEEN_WRITES: &[Row] = &[
    Issue(0, 7, Some(0xAA), Ok(0)),
    Issue(1, 7, Some(0xBB), Ok(1)),
    Issue(2, 7, None, Ok(2)),
    Accepts(&[0, 1, 2], 3),
    Serves(&[1], 6, 1),
    Serves(&[2], 7, 1),
    Serves(&[0], 8, 1),
    Collect(2, 2, Ok((7, Outcome::Read, 0xBB))),
    Sector(7, 0xAA),
];

const UNQUEUED: &[Row] = &[
    Identify(75, Ok([0x1F, 0])),
    Identify(100, Ok([0xE8, 3])),
    Identify(27, Ok([0x4F, 0x53])),
    Issue(0, 0, None, Ok(3)),
    Identify(0, Err(PlainFault::QueueBusy)),
    Accepts(&[0], 4),
    Flush(Err(PlainFault::QueueBusy)),
    Serves(&[0], 5, 1),
    Flush(Ok(())),
    Register(0x110, Ok(0xB)),
    Collect(0, 3, Ok((5, Outcome::Read, 0))),
    Entries(8),
];

const ZEROS: &[Row] = &[
    Issue(0, 3, Some(0xAA), Ok(0)),
    Zero(0, 8, Err(ZeroFault::QueueBusy)),
    Accepts(&[0], 1),
    Serves(&[0], 2, 1),
    Zero(0, 8, Err(ZeroFault::SlotOwned)),
    Collect(0, 0, Ok((2, Outcome::Wrote, 0xAA))),
    Zero(0, 0, Err(ZeroFault::NoSuchSector)),
    Zero(7, 2, Err(ZeroFault::NoSuchSector)),
    Sector(3, 0xAA),
    Zero(2, 2, Ok(())),
    Sector(3, 0),
    Entries(5),
    Issue(1, 7, Some(0xBB), Ok(5)),
    Accepts(&[1], 6),
    Step(FAIL_1_AT_7, Ok(Failed(7))),
    Zero(0, 1, Err(ZeroFault::Halted)),
];

/// What a story shows, how many sectors of zeros and how many slots its port has, and its rows.
type Story = (&'static str, usize, u32, &'static [Row]);

static STORIES: [Story; 12] = [
    ("a command moves the registers", 8, 4, REGISTERS),
    (
        "a read sees the writes served before it",
        8,
        3,
        READ_BETWEEN_WRITES,
    ),
    ("unqueued commands wait for the queue", 1000, 32, UNQUEUED),
    ("sectors become zeros while no slot is owned", 8, 4, ZEROS),
    (
        "an error in a queue is recovered",
        1000,
        32,
        ERROR_IN_A_QUEUE,
    ),
    (
        "a command past the last sector is refused",
        8,
        2,
        LAST_SECTOR,
    ),
    ("a held command keeps its slot", 8, 2, HELD),
    ("a list is served in its order", 8, 4, IN_ITS_ORDER),
    (
        "no list is served while a failure stands",
        8,
        4,
        AFTER_A_FAILURE,
    ),
    (
        "a reset drops requests, and none of them changes a sector",
        8,
        4,
        reset::DROPPED,
    ),
    ("a reset port is not halted", 8, 2, reset::HALTED),
    ("a reset drops held commands", 8, 2, reset::HELD),
];

#[test]
fn each_story_goes_as_its_rows_say(rt: HostRuntime) -> Result<(), Fail> {
    for (name, sectors, depth, rows) in STORIES {
        assert!(rt; sectors <= 131_072);
        let mut port = port_of(rt.alloc(), sectors, depth)?;
        goes_on(&rt, rt.alloc(), &mut port, name, rows)?;
    }
    Ok(())
}
