//! Stories of entries of a PRDT whose I is 1 (AHCI 1.3.1, sections 3.3.5, DPS, 4.2.3.3 and 5.4.2): DPS is set once all of an entry's bytes have moved.

use crate::tests::fatal::GOES_ON;
use crate::tests::player::Pieces::These;
use crate::tests::player::Row::{
    Does, Fails, Fetches, Fills, HasAll, Interrupt, Issues, Queues, Reads, Refuses, Steps, StepsBy,
    Takes, Writes,
};
use crate::tests::player::{Pieces, Row};
use crate::tests::registers::{IS, PX_IE, PX_IS};
use crate::tests::settings::{
    COMRESET, DATA, ONE, OTHER, READ, READ_DMA, START, SmallStory, TABLE, WRITE, play_small,
};
use std::test::Fail;

/// Dword 0 of a header with two entries.
const TWO: u32 = 0x0002_0005;

/// A sector of data in one entry, whose I is 1.
const SECTOR_WITH_I: Pieces = These(&[(DATA, 0x8000_0200)]);

/// Three sectors in two entries: the first one has 700 bytes, and I is 1.
const THREE_WITH_I: Pieces = These(&[(DATA, 0x8000_02BC), (DATA + 0x800, 836)]);

/// DPS alone can interrupt, does so once, and is cleared by writing 1.
const INTERRUPTED: &[Row] = &[
    Writes(PX_IE, 0x20),
    Issues(
        0,
        TWO,
        TABLE,
        READ_DMA,
        These(&[(DATA, 0x8000_0100), (DATA + 0x200, 256)]),
    ),
    Does(0),
    Reads(PX_IS, 0x21),
    Interrupt(true),
    Writes(PX_IS, 0x20),
    Writes(IS, 1),
    Reads(PX_IS, 1),
    Interrupt(false),
    Writes(PX_IS, 1),
    Writes(PX_IE, 0x7800_002F),
];

/// The data end before the last byte of the entry with I: in it, or before it.
const NOT_WHOLE: &[Row] = &[
    Issues(
        0,
        TWO,
        TABLE,
        READ_DMA,
        These(&[(DATA, 256), (DATA + 0x200, 0x8000_0102)]),
    ),
    Does(0),
    Reads(PX_IS, 1),
    Writes(PX_IS, 1),
    Issues(
        0,
        TWO,
        TABLE,
        READ_DMA,
        These(&[(DATA, 512), (DATA + 0x200, 0x8000_0002)]),
    ),
    Does(0),
    Reads(PX_IS, 1),
    Writes(PX_IS, 1),
];

/// Queued, in both directions.
const QUEUED: &[Row] = &[
    Queues(1, ONE, OTHER, READ, SECTOR_WITH_I),
    Does(1),
    Reads(PX_IS, 0x28),
    Writes(PX_IS, 0x28),
    Queues(
        1,
        TWO,
        OTHER,
        WRITE,
        These(&[(DATA, 0x8000_01FE), (DATA + 0x200, 2)]),
    ),
    Does(1),
    Reads(PX_IS, 0x28),
    Writes(PX_IS, 0x28),
    Queues(1, ONE, OTHER, WRITE, These(&[(DATA, 0x8000_0202)])),
    Does(1),
    Reads(PX_IS, 8),
    Writes(PX_IS, 8),
];

/// WRITE DMA, WRITE BUFFER DMA and READ BUFFER.
const NOT_QUEUED: &[Row] = &[
    Issues(
        0,
        ONE,
        TABLE,
        [0x2780_CA00, 0x0300_0040, 0, 0x0100_0000],
        SECTOR_WITH_I,
    ),
    Does(0),
    Reads(PX_IS, 0x21),
    Writes(PX_IS, 0x21),
    Issues(0, ONE, TABLE, [0x2780_EB00, 0, 0, 0], SECTOR_WITH_I),
    Does(0),
    Reads(PX_IS, 0x21),
    Writes(PX_IS, 0x21),
    Issues(0, ONE, TABLE, [0x2780_E400, 0, 0, 0], SECTOR_WITH_I),
    Does(0),
    Reads(PX_IS, 0x22),
    Writes(PX_IS, 0x22),
];

/// Three sectors by PIO, and an entry of 700 bytes: its last byte is in the second block, to the device and to the driver.
const BY_BLOCKS: &[Row] = &[
    Issues(
        0,
        TWO,
        TABLE,
        [0x2780_3000, 0x0200_0040, 0, 0x0300_0000],
        THREE_WITH_I,
    ),
    StepsBy(0, 5),
    Reads(PX_IS, 0),
    Steps(0),
    Reads(PX_IS, 0),
    Steps(0),
    Reads(PX_IS, 0x22),
    Writes(PX_IS, 0x22),
    Steps(0),
    Reads(PX_IS, 2),
    Writes(PX_IS, 2),
    Steps(0),
    Reads(PX_IS, 1),
    Writes(PX_IS, 1),
    Issues(
        0,
        TWO,
        TABLE,
        [0x2780_2000, 0x0200_0040, 0, 0x0300_0000],
        THREE_WITH_I,
    ),
    StepsBy(0, 5),
    Reads(PX_IS, 0),
    Steps(0),
    Reads(PX_IS, 2),
    Writes(PX_IS, 2),
    Steps(0),
    Reads(PX_IS, 0x22),
    Writes(PX_IS, 0x22),
    Steps(0),
    Reads(PX_IS, 2),
    Writes(PX_IS, 2),
];

/// A list that is too short is filled, and so its entry has moved whole.
const FILLED: &[Row] = &[
    Issues(0, ONE, TABLE, READ_DMA, These(&[(DATA, 0x8000_0100)])),
    Does(0),
    Reads(PX_IS, 0x0100_0021),
    Writes(PX_IS, 0x0100_0021),
];

/// A read that fails at its second sector has processed the entry of the first one, and one of two bytes more it has not.
const FAILED: &[Row] = &[
    Issues(
        0,
        TWO,
        TABLE,
        [0x2780_C800, 0x0200_0040, 0, 0x0200_0000],
        These(&[(DATA, 0x8000_0200), (DATA + 0x800, 512)]),
    ),
    Fetches(0),
    Refuses(0, 0x40, 3),
    Reads(PX_IS, 0x4000_0021),
];

const FAILED_WITHIN: &[Row] = &[
    Queues(
        1,
        TWO,
        OTHER,
        [0x2780_6002, 0x0200_0040, 0, 0x0800_0000],
        These(&[(DATA, 0x8000_0202), (DATA + 0x800, 510)]),
    ),
    Takes(1),
    Writes(PX_IS, 0xFFFF_FFFF),
    Fails(1, 0x40, 3),
    Reads(PX_IS, 0x4000_0008),
];

/// A fatal error behind an entry that is in memory stops the answer, and DPS with it (profile).
const STOPPED: &[Row] = &[
    Fills(DATA, 512, 0xEE),
    Issues(
        0,
        TWO,
        TABLE,
        READ_DMA,
        These(&[(DATA, 0x8000_0100), (0x2_0000, 256)]),
    ),
    Does(0),
    HasAll(DATA, 256, 0),
    Reads(PX_IS, 0x2000_0000),
];

static STORIES: [SmallStory; 2] = [
    (
        "entries with I",
        &[
            START,
            INTERRUPTED,
            NOT_WHOLE,
            QUEUED,
            NOT_QUEUED,
            BY_BLOCKS,
            FILLED,
            GOES_ON,
            FAILED,
        ],
    ),
    (
        "answers that fail within an entry with I",
        &[START, STOPPED, COMRESET, FAILED_WITHIN],
    ),
];

#[test]
fn an_entry_with_i_sets_dps_once_it_has_moved_whole(rt: HostRuntime) -> Result<(), Fail> {
    play_small(&rt, rt.alloc(), &STORIES)
}
