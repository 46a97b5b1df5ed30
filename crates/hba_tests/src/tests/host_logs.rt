//! Stories of the logs that are the host's (ACS-3, "Host Specific logs", "WRITE LOG EXT" and "SMART WRITE LOG").

use crate::tests::player::Pieces::These;
use crate::tests::player::Row::{
    Answered, Does, Fetches, Fills, Has, HasAll, Issues, PioSetup, Reads, Steps, Writes,
};
use crate::tests::player::{Pieces, Row};
use crate::tests::registers::{GHC, PX_CI, PX_IS, PX_TFD};
use crate::tests::settings::{
    COMRESET, DATA, LIST, NO_PIECES, NONE, ONE, RECEIVED, RESTART, SECTOR, START, SmallStory,
    TABLE, play_small,
};
use std::test::Fail;

const TWO: Pieces = These(&[(DATA, 1024)]);

const FOUR: Pieces = These(&[(DATA, 700), (DATA + 700, 1348)]);

const FILLED: &[Row] = &[
    Fills(DATA, 512, 0x11),
    Fills(DATA + 512, 512, 0x22),
    Fills(RECEIVED, 256, 0xEE),
    Writes(PX_IS, 0xFFFF_FFFF),
];

/// WRITE LOG EXT of pages 01h and 02h of log 80h, up to the first block.
const BEGUN: &[Row] = &[
    Issues(
        0,
        ONE,
        TABLE,
        [0x2780_3F00, 0x8001_0000, 0, 0x0200_0000],
        TWO,
    ),
    Fetches(0),
    Steps(0),
    Reads(PX_CI, 1),
    Steps(0),
    PioSetup(0x00, 0xC0, 512),
    Reads(PX_TFD, 0xC0),
    Reads(PX_IS, 0),
];

/// READ LOG EXT of pages 00h to 03h.
const READ: &[Row] = &[
    Fills(DATA, 2048, 0xEE),
    Issues(
        0,
        0x0002_0005,
        TABLE,
        [0x2780_2F00, 0x8000_0000, 0, 0x0400_0000],
        FOUR,
    ),
    Does(0),
    Reads(PX_CI, 0),
    Reads(PX_TFD, 0x40),
    Has(LIST + 4, &[0, 8, 0, 0]),
];

/// A page that was never written is zeros, and so is one of a write that was dropped.
const ZEROS: &[Row] = &[HasAll(DATA, 2048, 0)];

/// The last block, and the end.
const ENDED: &[Row] = &[
    Steps(0),
    Has(RECEIVED + 0x20, &[0x5F, 0x40, 0x48]),
    Reads(PX_IS, 2),
    Reads(PX_CI, 1),
    Steps(0),
    Answered(0x40, 0, 0, 0),
    Reads(PX_TFD, 0x40),
    Reads(PX_CI, 0),
    Has(LIST + 4, &[0, 4, 0, 0]),
];

const WRITTEN: &[Row] = &[
    HasAll(DATA, 512, 0),
    HasAll(DATA + 512, 512, 0x11),
    HasAll(DATA + 1024, 512, 0x22),
    HasAll(DATA + 1536, 512, 0),
];

const RESET: &[Row] = &[Writes(GHC, 0x8000_0001)];

/// SMART WRITE LOG of pages 00h and 01h.
const BY_SMART: &[Row] = &[
    Fills(DATA, 512, 0x33),
    Fills(DATA + 512, 512, 0x44),
    Issues(
        0,
        ONE,
        TABLE,
        [0x2780_B0D6, 0x804F_C200, 0, 0x0200_0000],
        TWO,
    ),
    Does(0),
    Answered(0x40, 0, 0, 0),
    Has(LIST + 4, &[0, 4, 0, 0]),
];

/// SMART READ LOG of pages 00h to 03h.
const READ_BY_SMART: &[Row] = &[
    Fills(DATA, 2048, 0xEE),
    Issues(
        0,
        0x0002_0005,
        TABLE,
        [0x2780_B0D5, 0x804F_C200, 0, 0x0400_0000],
        FOUR,
    ),
    Does(0),
    Reads(PX_CI, 0),
    HasAll(DATA, 512, 0x33),
    HasAll(DATA + 512, 512, 0x44),
    HasAll(DATA + 1024, 512, 0x22),
    HasAll(DATA + 1536, 512, 0),
];

/// WRITE LOG DMA EXT of the last two pages of log 9Fh, and READ LOG DMA EXT of the last three.
const BY_DMA: &[Row] = &[
    Fills(DATA, 512, 0x55),
    Fills(DATA + 512, 512, 0x66),
    Issues(
        0,
        ONE,
        TABLE,
        [0x2780_5700, 0x9F0E_0000, 0, 0x0200_0000],
        TWO,
    ),
    Does(0),
    Answered(0x40, 0, 0, 0),
    Has(LIST + 4, &[0, 4, 0, 0]),
    Fills(DATA, 2048, 0xEE),
    Issues(
        0,
        0x0002_0005,
        TABLE,
        [0x2780_4700, 0x9F0D_0000, 0, 0x0300_0000],
        FOUR,
    ),
    Does(0),
    HasAll(DATA, 512, 0),
    HasAll(DATA + 512, 512, 0x55),
    HasAll(DATA + 1024, 512, 0x66),
    HasAll(DATA + 1536, 512, 0xEE),
];

const DISABLED: &[Row] = &[
    Issues(0, NONE, TABLE, [0x2780_B0D9, 0x004F_C200, 0, 0], NO_PIECES),
    Does(0),
    Answered(0x40, 0, 0, 0),
];

/// While SMART operations are disabled its two commands are aborted.
const NOT_BY_SMART: &[Row] = &[
    Fills(DATA, 512, 0x77),
    Issues(
        0,
        ONE,
        TABLE,
        [0x2780_B0D6, 0x804F_C200, 0, 0x0100_0000],
        SECTOR,
    ),
    Does(0),
    Answered(0x41, 4, 0, 0),
];

const UNREAD_BY_SMART: &[Row] = &[
    Issues(
        0,
        ONE,
        TABLE,
        [0x2780_B0D5, 0x804F_C200, 0, 0x0100_0000],
        SECTOR,
    ),
    Does(0),
    Answered(0x41, 4, 0, 0),
];

const KEPT: &[Row] = &[
    HasAll(DATA, 512, 0x33),
    HasAll(DATA + 512, 512, 0x44),
    HasAll(DATA + 1024, 512, 0x22),
    HasAll(DATA + 1536, 512, 0),
];

static STORY: SmallStory = (
    "the host's logs",
    &[
        START,
        READ,
        ZEROS,
        FILLED,
        BEGUN,
        COMRESET,
        READ,
        ZEROS,
        FILLED,
        BEGUN,
        ENDED,
        READ,
        WRITTEN,
        RESET,
        START,
        READ,
        WRITTEN,
        BY_SMART,
        READ_BY_SMART,
        BY_DMA,
        DISABLED,
        NOT_BY_SMART,
        RESTART,
        UNREAD_BY_SMART,
        RESTART,
        READ,
        KEPT,
    ],
);

#[test]
fn what_the_host_writes_to_its_logs_is_read_and_stays(rt: HostRuntime) -> Result<(), Fail> {
    play_small(&rt, rt.alloc(), &[STORY])
}
