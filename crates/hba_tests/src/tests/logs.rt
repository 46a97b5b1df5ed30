//! Stories of the logs (ACS-3, "General Purpose Log directory" and "IDENTIFY DEVICE data log").

use crate::tests::player::Pieces::These;
use crate::tests::player::Row;
use crate::tests::player::Row::{Does, Fills, Has, HasAll, Issues, Reads, Steps, Writes};
use crate::tests::registers::{PX_CI, PX_IS, PX_TFD};
use crate::tests::settings::{
    DATA, IDENTIFY, LIST, ONE, RECEIVED, SECTOR, START, SmallStory, TABLE, play_small,
};
use std::test::Fail;

/// Logs 80h to 9Fh, which are the host's, of 16 pages each.
const HOSTS: &[u8] = &[
    16, 0, 16, 0, 16, 0, 16, 0, 16, 0, 16, 0, 16, 0, 16, 0, 16, 0, 16, 0, 16, 0, 16, 0, 16, 0, 16,
    0, 16, 0, 16, 0, 16, 0, 16, 0, 16, 0, 16, 0, 16, 0, 16, 0, 16, 0, 16, 0, 16, 0, 16, 0, 16, 0,
    16, 0, 16, 0, 16, 0, 16, 0, 16, 0,
];

/// The directory, by PIO and by DMA: logs 03h, 07h, 10h and 11h of one page, log 04h of two, log 30h of seven, logs 80h to 9Fh of 16.
const DIRECTORY: &[Row] = &[
    Issues(0, ONE, TABLE, [0x2780_2F00, 0, 0, 0x0100_0000], SECTOR),
    Does(0),
    Reads(PX_IS, 2),
    Has(DATA, &[1, 0, 0, 0, 0, 0, 1, 0, 2, 0, 0, 0, 0, 0, 1, 0]),
    HasAll(DATA + 0x10, 0x10, 0),
    Has(DATA + 0x20, &[1, 0, 1, 0]),
    HasAll(DATA + 0x24, 0x3C, 0),
    Has(DATA + 0x60, &[7, 0]),
    HasAll(DATA + 0x62, 0x9E, 0),
    Has(DATA + 0x100, HOSTS),
    HasAll(DATA + 0x140, 0xC0, 0),
    Fills(DATA, 512, 0xEE),
    Writes(PX_IS, 0xFFFF_FFFF),
    Issues(0, ONE, TABLE, [0x2780_4700, 0, 0, 0x0100_0000], SECTOR),
    Does(0),
    Reads(PX_IS, 1),
    Has(DATA + 0x60, &[7, 0]),
    Has(LIST + 4, &[0, 2, 0, 0]),
];

/// The words of IDENTIFY DEVICE that speak of logs: 84 and 87 (bits 0, 1 and 5), 86 (bit 15), 119 and 120 (bits 2 and 3).
const WORDS: &[Row] = &[
    Issues(0, ONE, TABLE, IDENTIFY, SECTOR),
    Does(0),
    Has(DATA + 2 * 84, &[0x63, 0x41]),
    Has(DATA + 2 * 86, &[0x00, 0xB4, 0x63, 0x41]),
    Has(DATA + 2 * 119, &[0x0C, 0x40, 0x0C, 0x40]),
];

/// Page 00h: a header with revision 1, seven pages, and their numbers.
const SUPPORTED: &[Row] = &[
    Fills(DATA, 512, 0xEE),
    Writes(PX_IS, 0xFFFF_FFFF),
    Issues(
        0,
        ONE,
        TABLE,
        [0x2780_2F00, 0x3000_0000, 0, 0x0100_0000],
        SECTOR,
    ),
    Does(0),
    Reads(PX_IS, 2),
    Reads(PX_TFD, 0x40),
    Reads(PX_CI, 0),
    Has(LIST + 4, &[0, 2, 0, 0]),
    Has(RECEIVED + 0x20, &[0x5F, 0x60, 0x48, 0]),
    Has(RECEIVED + 0x2F, &[0x40, 0, 2]),
    Has(DATA, &[1, 0, 0, 0, 0, 0, 0, 0, 7, 0, 1, 2, 3, 4, 5, 6]),
    HasAll(DATA + 16, 496, 0),
];

/// The world wide name of the serial number and the model number, in words 108 to 111: NAA 3, and a number in base 257.
const NAME: &[u8] = &[0xDC, 0x35, 0xCA, 0x9A, 0x33, 0x3C, 0x99, 0xC9];

/// The same as a number, its low byte first.
const NAME_IN_LOG: &[u8] = &[0x99, 0xC9, 0x33, 0x3C, 0xCA, 0x9A, 0xDC, 0x35];

/// Page 01h: what IDENTIFY DEVICE reads, of 8 sectors and 32 tags.
const COPY: &[Row] = &[
    Fills(DATA, 512, 0xEE),
    Issues(
        0,
        ONE,
        TABLE,
        [0x2780_2F00, 0x3001_0000, 0, 0x0100_0000],
        SECTOR,
    ),
    Does(0),
    Has(DATA + 2 * 27, b"OSTFAWER"),
    Has(DATA + 2 * 60, &[8, 0, 0, 0]),
    Has(DATA + 2 * 75, &[31, 0]),
    Has(DATA + 2 * 82, &[0x49, 0x30, 0x08, 0x74, 0x63, 0x41]),
    Has(DATA + 2 * 88, &[0x3F, 0x20]),
    Has(DATA + 2 * 100, &[8, 0, 0, 0, 0, 0, 0, 0]),
    Has(DATA + 2 * 108, NAME),
    Has(DATA + 2 * 119, &[0x0C, 0x40, 0x0C, 0x40]),
];

/// Page 02h: 8 sectors, of 512 bytes each.
const CAPACITY: &[Row] = &[
    Fills(DATA, 512, 0xEE),
    Issues(
        0,
        ONE,
        TABLE,
        [0x2780_2F00, 0x3002_0000, 0, 0x0100_0000],
        SECTOR,
    ),
    Does(0),
    Has(DATA, &[1, 0, 2, 0, 0, 0, 0, 0x80]),
    Has(DATA + 8, &[8, 0, 0, 0, 0, 0, 0, 0x80]),
    Has(DATA + 16, &[0, 0, 0, 0, 0, 0, 0, 0x80]),
    HasAll(DATA + 24, 488, 0),
];

/// The first three pages by PIO, a block each, in pieces that end within pages.
const ALL_BY_PIO: &[Row] = &[
    Fills(DATA, 0x1000, 0xEE),
    Writes(PX_IS, 0xFFFF_FFFF),
    Issues(
        0,
        0x0002_0005,
        TABLE,
        [0x2780_2F00, 0x3000_0000, 0, 0x0300_0000],
        These(&[(DATA, 700), (DATA + 700, 836)]),
    ),
    Steps(0),
    Steps(0),
    Steps(0),
    Reads(PX_IS, 2),
    Reads(PX_TFD, 0xC0),
    Reads(PX_CI, 1),
    Has(LIST + 4, &[0, 2, 0, 0]),
    Has(RECEIVED + 0x2F, &[0xC0, 0, 2]),
    Does(0),
    Reads(PX_TFD, 0x40),
    Reads(PX_CI, 0),
    Has(LIST + 4, &[0, 6, 0, 0]),
    Has(RECEIVED + 0x2F, &[0x40, 0, 2]),
    Has(DATA, &[1, 0, 0, 0, 0, 0, 0, 0, 7, 0, 1, 2]),
    Has(DATA + 512 + 2 * 60, &[8, 0, 0, 0]),
    Has(DATA + 1024, &[1, 0, 2, 0, 0, 0, 0, 0x80, 8, 0]),
    HasAll(DATA + 1536, 512, 0xEE),
];

/// Pages 01h and 02h by DMA.
const TWO_BY_DMA: &[Row] = &[
    Fills(DATA, 0x1000, 0xEE),
    Writes(PX_IS, 0xFFFF_FFFF),
    Issues(
        0,
        ONE,
        TABLE,
        [0x2780_4700, 0x3001_0000, 0, 0x0200_0000],
        These(&[(DATA, 1024)]),
    ),
    Does(0),
    Row::Answered(0x40, 0, 0, 0),
    Reads(PX_IS, 1),
    Reads(PX_CI, 0),
    Has(LIST + 4, &[0, 4, 0, 0]),
    Has(DATA + 2 * 60, &[8, 0, 0, 0]),
    Has(DATA + 512, &[1, 0, 2, 0, 0, 0, 0, 0x80, 8, 0]),
    HasAll(DATA + 1024, 512, 0xEE),
];

/// Pages 03h to 06h by DMA, each with its header.
const THE_OTHERS: &[Row] = &[
    Fills(DATA, 0x1000, 0xEE),
    Issues(
        0,
        ONE,
        TABLE,
        [0x2780_4700, 0x3003_0000, 0, 0x0400_0000],
        These(&[(DATA, 2048)]),
    ),
    Does(0),
    Row::Answered(0x40, 0, 0, 0),
    Has(LIST + 4, &[0, 8, 0, 0]),
    Has(DATA, &[1, 0, 3, 0, 0, 0, 0, 0x80]),
    Has(DATA + 8, &[0x86, 0x19, 0xD1, 0x1A, 0x18, 0, 0, 0x80]),
    HasAll(DATA + 16, 15, 0),
    Has(DATA + 31, &[0x80]),
    HasAll(DATA + 32, 24, 0),
    Has(DATA + 56, NAME_IN_LOG),
    Has(DATA + 64, &[0, 0, 0, 0, 0, 0, 0, 0x80]),
    Has(DATA + 72, &[1, 0, 0, 0, 0, 0, 0, 0x80]),
    HasAll(DATA + 80, 432, 0),
    Has(DATA + 512, &[1, 0, 4, 0, 0, 0, 0, 0x80]),
    Has(DATA + 520, &[0, 3, 0, 0, 0, 0, 0, 0x80]),
    Has(DATA + 528, &[0, 0, 0, 0, 0, 0, 0, 0x80]),
    HasAll(DATA + 536, 488, 0),
    Has(DATA + 1024, &[1, 0, 5, 0, 0, 0, 0, 0x80]),
    Has(DATA + 1032, b"00000010            "),
    Has(DATA + 1056, b".1 0    "),
    Has(DATA + 1072, b"OSTFAWERN QCD SI K"),
    Has(DATA + 1536, &[1, 0, 6, 0, 0, 0, 0, 0x80]),
    HasAll(DATA + 1544, 15, 0),
    Has(DATA + 1559, &[0x80]),
    Has(DATA + 1576, &[0, 0, 0, 0, 0, 0, 0, 0x80]),
    Has(DATA + 1584, &[0, 0, 0, 0, 0, 0, 0, 0x80]),
    HasAll(DATA + 1592, 456, 0),
    HasAll(DATA + 2048, 512, 0xEE),
];

static READING: SmallStory = (
    "logs are read",
    &[
        START, DIRECTORY, WORDS, SUPPORTED, COPY, CAPACITY, ALL_BY_PIO, TWO_BY_DMA, THE_OTHERS,
        SUPPORTED,
    ],
);

#[test]
fn the_logs_that_the_directory_names_are_read(rt: HostRuntime) -> Result<(), Fail> {
    play_small(&rt, rt.alloc(), &[READING])
}
