//! Stories of a driver and its disk. Their values are those of AHCI 1.3.1, Serial ATA and ACS-3, and of docs/LAYOUTS.md where the standards
//! leave a choice.

use crate::tests::player::Row::{
    Answered, Does, Fails, Fetches, Fills, Has, HasAll, Interrupt, Issues, Queues, Reads, Refuses,
    Sector, Signs, Takes, Writes,
};
use crate::tests::player::{Row, Story, plays};
use crate::tests::registers::{
    GHC, IS, PX_CI, PX_CLB, PX_CMD, PX_FB, PX_IE, PX_IS, PX_SACT, PX_SERR, PX_SIG, PX_TFD,
};
use crate::tests::settings::{
    DATA, IDENTIFY, LIST, MEMORY, ONE, OTHER, READ, READ_DMA, READ_LOG, RECEIVED, RESTART, SECTOR,
    START, TABLE, WRITE,
};
use std::test::Fail;

/// AHCI 1.3.1, section 10.1.2, step by step; then IDENTIFY DEVICE with PRDBC, and words 53, 60 and 75: the queue depth less one.
const FIRST_STEPS: &[Row] = &[
    Reads(PX_SIG, 0xFFFF_FFFF),
    Reads(PX_TFD, 0x80),
    Writes(GHC, 0x8000_0002),
    Writes(PX_CLB, 0x1000),
    Writes(PX_FB, 0x400),
    Writes(PX_CMD, 0x10),
    Writes(PX_SERR, 0x0400_0000),
    Signs,
    Reads(PX_SIG, 0x101),
    Reads(PX_TFD, 0x150),
    Has(
        RECEIVED + 0x40,
        &[0x34, 0x00, 0x50, 0x01, 1, 0, 0, 0, 0, 0, 0, 0, 1, 0],
    ),
    Writes(PX_SERR, 0xFFFF_FFFF),
    Writes(PX_IS, 0xFFFF_FFFF),
    Writes(PX_IE, 0x7800_002F),
    Writes(PX_CMD, 0x11),
    Issues(0, ONE, TABLE, IDENTIFY, SECTOR),
    Does(0),
    Reads(PX_CI, 0),
    Reads(PX_TFD, 0x40),
    Reads(PX_IS, 2),
    Reads(IS, 1),
    Interrupt(true),
    Has(LIST + 4, &[0, 2, 0, 0]),
    Has(DATA + 2 * 53, &[6, 0]),
    Has(DATA + 2 * 60, &[8, 0]),
    Has(DATA + 2 * 75, &[3, 0]),
];

const WRITTEN_AND_READ: &[Row] = &[
    Fills(DATA, 512, 0xAA),
    Queues(1, ONE, OTHER, WRITE, SECTOR),
    Does(1),
    Reads(PX_SACT, 0),
    Reads(PX_CI, 0),
    Reads(PX_IS, 8),
    Has(RECEIVED + 0x58, &[0xA1, 0x40, 0x40, 0, 2, 0, 0, 0]),
    Fills(DATA, 1024, 0),
    Issues(0, ONE, TABLE, READ_DMA, SECTOR),
    Does(0),
    HasAll(DATA, 512, 0xAA),
    HasAll(DATA + 512, 512, 0),
    Has(LIST + 4, &[0, 2, 0, 0]),
    Reads(PX_CI, 0),
    Reads(PX_IS, 9),
];

const DROPPED: &[Row] = &[
    Fills(DATA, 512, 0xAA),
    Queues(1, ONE, OTHER, WRITE, SECTOR),
    Takes(1),
    Reads(PX_SACT, 2),
    Reads(PX_CI, 0),
    Writes(PX_CMD, 0x10),
    Sector(3, 0),
    Reads(PX_SACT, 0),
    Does(1),
    Writes(PX_CMD, 0x11),
    Does(1),
    Sector(3, 0),
    Reads(PX_SACT, 0),
];

/// UNC in a queue, ST cleared and set, and the log.
const FAILED: &[Row] = &[
    Queues(1, ONE, OTHER, READ, SECTOR),
    Takes(1),
    Fails(1, 0x40, 3),
    Reads(PX_TFD, 0x4041),
    Reads(PX_IS, 0x4000_0008),
    Reads(PX_SACT, 2),
    Has(RECEIVED + 0x58, &[0xA1, 0x40, 0x41, 0x40, 0, 0, 0, 0]),
];

/// While the log is not read, any other command is aborted, a queued one too.
const ABORTED: &[Row] = &[
    Queues(1, ONE, OTHER, READ, SECTOR),
    Does(1),
    Answered(0x41, 4, 0, 0),
    Reads(PX_TFD, 0x441),
    Reads(PX_SACT, 2),
    Writes(PX_CMD, 0x10),
    Writes(PX_IS, 0xFFFF_FFFF),
    Writes(PX_CMD, 0x11),
    Issues(0, ONE, TABLE, READ_DMA, SECTOR),
    Does(0),
    Reads(PX_TFD, 0x441),
    Reads(PX_IS, 0x4000_0001),
];

/// The disk fails the command that reads the log. The log can be read later.
const NO_LOG: &[Row] = &[
    Issues(0, ONE, TABLE, READ_LOG, SECTOR),
    Fetches(0),
    Refuses(0, 4, 0),
    Answered(0x41, 4, 0, 0),
    Reads(PX_IS, 0x4000_0001),
    Reads(PX_TFD, 0x441),
];

/// IPS stays while PxIS has an enabled bit, and the line follows it and GHC.IE (AHCI 1.3.1, section 10.7).
const INTERRUPTS: &[Row] = &[
    Writes(PX_IE, 0),
    Issues(0, ONE, TABLE, READ_DMA, SECTOR),
    Does(0),
    Reads(PX_IS, 1),
    Reads(IS, 0),
    Interrupt(false),
    Writes(PX_IE, 2),
    Reads(IS, 0),
    Writes(PX_IE, 3),
    Reads(IS, 1),
    Interrupt(true),
    Writes(IS, 1),
    Reads(IS, 1),
    Writes(GHC, 0x8000_0000),
    Interrupt(false),
    Writes(GHC, 0x8000_0002),
    Interrupt(true),
    Writes(PX_IS, 1),
    Reads(IS, 1),
    Interrupt(true),
    Writes(IS, 1),
    Reads(IS, 0),
    Interrupt(false),
];

const LOGGED: &[Row] = &[
    Issues(0, ONE, TABLE, READ_LOG, SECTOR),
    Does(0),
    Has(DATA, &[1, 0, 0x41, 0x40, 3, 0, 0, 0]),
    Has(DATA + 511, &[0x7B]),
    Reads(PX_IS, 2),
    // and the disk goes on
    Issues(0, ONE, TABLE, READ_DMA, SECTOR),
    Does(0),
    Reads(PX_TFD, 0x40),
    Reads(PX_CI, 0),
    // there is no failure any more: NQ is 1
    Issues(0, ONE, TABLE, READ_LOG, SECTOR),
    Does(0),
    Has(DATA, &[0x80, 0, 0, 0]),
    Has(DATA + 511, &[0x80]),
];

static STORIES: [Story; 5] = [
    Story {
        name: "a driver initialises the port and identifies the disk",
        sectors: 8,
        depth: 4,
        memory: MEMORY,
        parts: &[FIRST_STEPS],
    },
    Story {
        name: "what is written by a queued command is read by another one",
        sectors: 8,
        depth: 32,
        memory: MEMORY,
        parts: &[START, WRITTEN_AND_READ],
    },
    Story {
        name: "a command that is dropped moves nothing any more",
        sectors: 8,
        depth: 32,
        memory: MEMORY,
        parts: &[START, DROPPED],
    },
    Story {
        name: "a failed command is named by the log",
        sectors: 8,
        depth: 32,
        memory: MEMORY,
        parts: &[
            START, FAILED, RESTART, ABORTED, RESTART, NO_LOG, RESTART, LOGGED,
        ],
    },
    Story {
        name: "an interrupt stays until it is acknowledged",
        sectors: 8,
        depth: 32,
        memory: MEMORY,
        parts: &[START, INTERRUPTS],
    },
];

#[test]
fn a_driver_and_its_disk_go_as_the_standards_say(rt: HostRuntime) -> Result<(), Fail> {
    for story in &STORIES {
        plays(&rt, rt.alloc(), story)?;
    }
    Ok(())
}
