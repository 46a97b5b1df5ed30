//! The disk alone: commands by their bytes, served and failed over a host in memory.
mod hostile;
mod memory;
mod pages;
mod refusals;
mod rig;
mod sizes;

use crate::table::equal;
use memory::{Link, QUIET};
use ncq_core::{Disk, ServeFault, Taken};
use ncq_journal::Plain;
use rig::Call::{Fail as Failing, Queue, ReadLog, Serve, Take, TakeShort};
use rig::{ABORTED, ACCEPTED, FLUSH, IDENTIFY, READ_LOG, Row, WRITE, plays};
use std::test::Fail;

static A_WRITE: [Row; 5] = [
    (Take(WRITE, ACCEPTED), 2, false),
    (Take(WRITE, ABORTED), 2, false),
    (Take(IDENTIFY, ABORTED), 2, false),
    (TakeShort(WRITE, ABORTED), 2, false),
    (Serve(1, Ok(())), 0, false),
];

/// What one sector of a write with tag 1 sends.
const A_SECTOR: Link = Link {
    setup: [
        0x41, 0, 0, 0, 1, 0, 0, 0, 0, 0, 0, 0, 0, 0, 0, 0, 0, 0, 0, 0, 0, 2, 0, 0, 0, 0, 0, 0,
    ],
    setups: 1,
    offset: 512,
    head: [0; 4],
    activate: [0x39, 0, 0, 0],
    activates: 1,
    data: 1,
    last: 516,
};

/// The FIS that says which tags are completed: SActive has its low byte first.
static COMPLETIONS: [(u32, [u8; 8]); 4] = [
    (0x0000_0002, [0xA1, 0x40, 0x40, 0, 0x02, 0, 0, 0]),
    (0x0000_0107, [0xA1, 0x40, 0x40, 0, 0x07, 0x01, 0, 0]),
    (0x8000_0000, [0xA1, 0x40, 0x40, 0, 0, 0, 0, 0x80]),
    (0xFFFF_FFFF, [0xA1, 0x40, 0x40, 0, 0xFF, 0xFF, 0xFF, 0xFF]),
];

#[test]
fn a_completion_names_its_tags(rt: HostRuntime) {
    for (row, (tags, fis)) in COMPLETIONS.iter().enumerate() {
        equal(&rt, row, &Disk::completed(*tags), fis);
    }
}

#[test]
fn a_write_is_taken_and_served(rt: HostRuntime) -> Result<(), Fail> {
    let image = [0, 0, 0, 0x5A, 0, 0, 0, 0];
    plays(&rt, rt.alloc(), (4, 0, 0x5A), &A_WRITE, &A_SECTOR, &image)
}

static AN_ERROR: [Row; 16] = [
    (Queue(0x60, 3, 7, 1, ACCEPTED), 8, false),
    (Queue(0x61, 0, 6, 2, ACCEPTED), 9, false),
    (
        Failing(3, 0x40, 8, Err(ServeFault::OutsideCommand)),
        9,
        false,
    ),
    (Failing(2, 0x40, 7, Err(ServeFault::NotAccepted)), 9, false),
    (
        Failing(3, 0x40, 7, Ok([0xA1, 0x40, 0x41, 0x40, 0, 0, 0, 0])),
        0,
        true,
    ),
    (Serve(3, Err(ServeFault::Stopped)), 0, true),
    (Failing(0, 4, 6, Err(ServeFault::Stopped)), 0, true),
    (Take(WRITE, ABORTED), 0, true),
    (Take(IDENTIFY, ABORTED), 0, true),
    (Take(FLUSH, ABORTED), 0, true),
    (TakeShort(READ_LOG, ABORTED), 0, true),
    (Take(READ_LOG, Taken::Plain(Plain::ReadLog)), 0, true),
    (
        ReadLog(&[(0, 3), (2, 0x41), (3, 0x40), (4, 7), (511, 0x75)]),
        0,
        false,
    ),
    (Take(READ_LOG, ABORTED), 0, false),
    (Take(IDENTIFY, Taken::Plain(Plain::Identify)), 0, false),
    (Take(FLUSH, Taken::Plain(Plain::Flush)), 0, false),
];

#[test]
fn an_error_is_told_by_the_log(rt: HostRuntime) -> Result<(), Fail> {
    plays(
        &rt,
        rt.alloc(),
        (4, 0x77, 0x11),
        &AN_ERROR,
        &QUIET,
        &[0x77; 8],
    )
}

#[test]
fn answers_of_commands_that_are_not_queued(rt: HostRuntime) {
    let pio = [
        0x5F, 0x60, 0x48, 0, 0, 0, 0, 0, 0, 0, 0, 0, 0, 0, 0, 0x40, 0, 2, 0, 0,
    ];
    equal(&rt, 0, &Disk::pio_setup(), &pio);
    let flushed = [
        0x34, 0x40, 0x40, 0, 0, 0, 0, 0, 0, 0, 0, 0, 0, 0, 0, 0, 0, 0, 0, 0,
    ];
    equal(&rt, 1, &Disk::flushed(), &flushed);
}
