//! Stories of PRDTs: long ones, and addresses above 4 GiB (AHCI 1.3.1, section 4.2.3).

use crate::tests::guest::Stretch;
use crate::tests::player::Pieces::{Down, These, Up};
use crate::tests::player::Row::{
    Does, Fills, Has, HasAll, Issues, Queues, Reads, Sector, Signs, Writes,
};
use crate::tests::player::{Row, Story, plays};
use crate::tests::registers::{
    PX_CI, PX_CLB, PX_CLBU, PX_CMD, PX_FB, PX_FBU, PX_IS, PX_SACT, PX_SERR,
};
use crate::tests::settings::{
    DATA, MEMORY, ONE, OTHER, READ, READ_DMA, RESTART, SECTOR, START, TABLE,
};
use std::test::Fail;

/// Memory for Linux's long lists.
const LONG: &[Stretch] = &[
    (0, 0x4000),
    (0x027F_0D00, 0xB00),
    (0x02D1_C000, 0x3_F000),
    (0x0C31_0000, 0x1_5000),
];

/// Linux reads 504 sectors into 63 pages, each below the one before it.
const READ_LONG: &[Row] = &[
    Fills(0x02D1_C000, 512, 0xEE),
    Fills(0x02D5_A000, 4096, 0xEE),
    Queues(
        24,
        0x003F_0005,
        0x027F_0D00,
        [0x2780_60F8, 0x0802_0040, 0x0000_0001, 0xC000_0008],
        Down(0x02D5_A000, 63, 4096),
    ),
    Does(24),
    Reads(PX_IS, 8),
    Reads(PX_SACT, 0),
    HasAll(0x02D5_A000, 512, 0x51),
    HasAll(0x02D5_A200, 3584, 0),
    HasAll(0x02D1_C000, 3584, 0),
    HasAll(0x02D1_CE00, 512, 0x52),
];

/// The first and the last of those sectors, and one below them.
const MARKED: &[Row] = &[
    Fills(0x0C31_0000, 512, 0x51),
    Issues(
        0,
        ONE,
        TABLE,
        [0x2780_CA00, 0x0802_0040, 0, 0x0100_0000],
        These(&[(0x0C31_0000, 512)]),
    ),
    Does(0),
    Fills(0x0C31_0000, 512, 0x52),
    Issues(
        0,
        ONE,
        TABLE,
        [0x2780_CA00, 0xFF03_0040, 0, 0x0100_0000],
        These(&[(0x0C31_0000, 512)]),
    ),
    Does(0),
    Writes(PX_IS, 1),
    Sector(520, 0x51),
    Sector(1023, 0x52),
];

/// Linux writes by 168 entries, each of 512 bytes.
const WRITTEN_LONG: &[Row] = &[
    Fills(0x0C31_0000, 512, 0x61),
    Fills(0x0C31_0200, 512, 0x62),
    Fills(0x0C32_4E00, 512, 0x63),
    Queues(
        3,
        0x00A8_0045,
        0x027F_0D00,
        [0x2780_61A8, 0x0200_0040, 0, 0x1800_0008],
        Up(0x0C31_0000, 168, 512),
    ),
    Does(3),
    Reads(PX_IS, 8),
    Sector(1, 0),
    Sector(2, 0x61),
    Sector(3, 0x62),
    Sector(4, 0),
    Sector(169, 0x63),
    Sector(170, 0),
];

/// Entries are read 32 at a time: a list that ends with such a run, and one with an entry after it.
const READ_AGAIN: &[Row] = &[
    Issues(
        0,
        0x0040_0005,
        0x027F_0D00,
        [0x2780_C800, 0x0200_0040, 0, 0x4000_0000],
        Up(0x0C31_0000, 64, 512),
    ),
    Does(0),
    HasAll(0x0C31_0000, 512, 0x61),
    HasAll(0x0C31_0200, 512, 0x62),
    Issues(
        0,
        0x0021_0005,
        0x027F_0D00,
        [0x2780_C800, 0x8900_0040, 0, 0x2100_0000],
        Up(0x0C31_0000, 33, 512),
    ),
    Does(0),
    HasAll(0x0C31_0000, 0x4000, 0),
    HasAll(0x0C31_4000, 512, 0x63),
];

/// Linux with memory above 4 GiB.
const HIGH: &[Stretch] = &[
    (0x1_02B6_0000, 0x500),
    (0x1_02B7_1800, 0x100),
    (0x1_02C8_9000, 0x4000),
];

const BASES: &[Row] = &[
    Writes(PX_CLBU, 1),
    Writes(PX_CLB, 0x02B6_0000),
    Writes(PX_FBU, 1),
    Writes(PX_FB, 0x02B6_0400),
    Reads(PX_CLBU, 1),
    Reads(PX_FBU, 1),
    Writes(PX_CMD, 0x16),
    Writes(PX_SERR, 0x0405_0000),
    Signs,
    Writes(PX_CMD, 0x17),
    Has(0x1_02B6_0440, &[0x34, 0, 0x50, 1]),
];

const READ_HIGH: &[Row] = &[
    Fills(0x1_02C8_9000, 0x4000, 0xEE),
    Queues(
        25,
        0x0004_0005,
        0x1_02B7_1800,
        [0x2780_6020, 0xFC00_0040, 0, 0xC800_0008],
        Down(0x1_02C8_C000, 4, 4096),
    ),
    Does(25),
    Reads(PX_IS, 8),
    Reads(PX_SACT, 0),
    HasAll(0x1_02C8_9000, 0x4000, 0),
    Has(0x1_02B6_0458, &[0xA1, 0x40, 0x40, 0, 0, 0, 0, 2]),
];

/// A command that is not queued has any slot. The device aborts a queued one whose tag is at or above its depth of 4 (ACS-3, IDENTIFY DEVICE,
/// word 75), and takes one below it.
const HIGH_SLOTS: &[Row] = &[
    Fills(DATA, 512, 0xAA),
    Issues(
        31,
        ONE,
        OTHER,
        [0x2780_CA00, 0x0300_0040, 0, 0x0100_0000],
        SECTOR,
    ),
    Does(31),
    Reads(PX_CI, 0),
    Sector(3, 0xAA),
    Fills(DATA, 512, 0),
    Queues(
        3,
        ONE,
        TABLE,
        [0x2780_6001, 0x0300_0040, 0, 0x1800_0000],
        SECTOR,
    ),
    Does(3),
    Reads(PX_SACT, 0),
    HasAll(DATA, 512, 0xAA),
    Writes(PX_IS, 0xFFFF_FFFF),
    Fills(DATA, 512, 0x55),
    Queues(
        4,
        ONE,
        TABLE,
        [0x2780_6001, 0x0300_0040, 0, 0x2000_0000],
        SECTOR,
    ),
    Does(4),
    Row::Answered(0x41, 4, 0, 0),
    Reads(PX_IS, 0x4000_0001),
    Reads(PX_SACT, 0x10),
    Reads(PX_CI, 0x10),
    HasAll(DATA, 512, 0x55),
];

/// Entries behind the data are read with the last 32 at most: those behind them lie in no memory.
const UNREAD: &[Row] = &[
    Fills(DATA, 512, 0xAA),
    Issues(0, 0x0040_0005, 0xFD80, READ_DMA, These(&[(DATA, 512)])),
    Does(0),
    Reads(PX_IS, 1),
    Reads(PX_CI, 0),
    HasAll(DATA, 512, 0),
];

/// A list with more entries, and more bytes in its last one, than the command's sector.
const SPARE: &[Row] = &[
    Fills(DATA, 0x800, 0xEE),
    Queues(
        1,
        0x0004_0005,
        OTHER,
        READ,
        These(&[
            (DATA, 2),
            (DATA + 0x200, 0x8000_0006),
            (DATA + 0x400, 0x400),
            (0xFFFF_0000, 512),
        ]),
    ),
    Does(1),
    Reads(PX_SACT, 0),
    Reads(PX_IS, 0x28),
    HasAll(DATA, 2, 0),
    HasAll(DATA + 2, 0x1FE, 0xEE),
    HasAll(DATA + 0x200, 6, 0),
    HasAll(DATA + 0x206, 0x1FA, 0xEE),
    HasAll(DATA + 0x400, 0x1F8, 0),
    HasAll(DATA + 0x5F8, 0x208, 0xEE),
];

static LONG_LISTS: [Story; 4] = [
    Story {
        name: "a list has up to 168 entries",
        sectors: 1024,
        depth: 32,
        memory: LONG,
        parts: &[START, MARKED, READ_LONG, RESTART, WRITTEN_LONG, READ_AGAIN],
    },
    Story {
        name: "addresses have 64 bits",
        sectors: 288,
        depth: 32,
        memory: HIGH,
        parts: &[BASES, READ_HIGH],
    },
    Story {
        name: "a device has the tags below its depth, and commands that are not queued any slot",
        sectors: 8,
        depth: 4,
        memory: MEMORY,
        parts: &[START, HIGH_SLOTS],
    },
    Story {
        name: "what a list has beyond the data is not used",
        sectors: 8,
        depth: 32,
        memory: MEMORY,
        parts: &[START, SPARE, RESTART, UNREAD],
    },
];

#[test]
fn long_lists_and_high_addresses_are_followed(rt: HostRuntime) -> Result<(), Fail> {
    for story in &LONG_LISTS {
        plays(&rt, rt.alloc(), story)?;
    }
    Ok(())
}
