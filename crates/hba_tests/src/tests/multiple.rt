//! READ and WRITE MULTIPLE, whose blocks have as many sectors as SET MULTIPLE MODE has set (ACS-3, by the commands' titles; Serial ATA, "PIO Setup").

use crate::tests::blocks::{EMPTIED, FILLED, LAST_READ, SERVED, THREE, THREE_WRITTEN};
use crate::tests::player::Pieces::These;
use crate::tests::player::Row;
use crate::tests::player::Row::{
    Does, Fills, Has, HasAll, Issues, Lays, PioSetup, Reads, Sector, Steps, Writes,
};
use crate::tests::registers::{PX_CI, PX_IS, PX_TFD};
use crate::tests::resets::SOFTWARE_RESET;
use crate::tests::settings::{
    COMRESET, DATA, IDENTIFY, LIST, NO_PIECES, NONE, ONE, RECEIVED, RESTART, SECTOR, START,
    SmallStory, TABLE, play_small,
};
use std::test::Fail;

/// IDENTIFY DEVICE: a block has 16 sectors at most (word 47), and none is set (word 59). Ultra DMA mode 5 is selected (words 63 and 88).
const UNSET: &[Row] = &[
    Issues(0, ONE, TABLE, IDENTIFY, SECTOR),
    Does(0),
    Has(DATA + 2 * 47, &[0x10, 0x80]),
    Has(DATA + 2 * 59, &[0, 0]),
    Has(DATA + 2 * 63, &[7, 0]),
    Has(DATA + 2 * 88, &[0x3F, 0x20]),
];

/// While none is set, READ MULTIPLE is aborted, and WRITE MULTIPLE changes no sector.
const READ_ABORTED: &[Row] = &[
    Fills(DATA, 512, 0xEE),
    Issues(
        0,
        ONE,
        TABLE,
        [0x2780_C400, 0x0200_0040, 0, 0x0100_0000],
        SECTOR,
    ),
    Does(0),
    Row::Answered(0x41, 4, 0, 0),
    Reads(PX_CI, 1),
    HasAll(DATA, 512, 0xEE),
];

const WRITE_ABORTED: &[Row] = &[
    Issues(
        0,
        ONE,
        TABLE,
        [0x2780_C500, 0x0200_0040, 0, 0x0100_0000],
        SECTOR,
    ),
    Does(0),
    Row::Answered(0x41, 4, 0, 0),
    Sector(2, 0),
];

/// SET MULTIPLE MODE of two sectors, which word 59 shows.
const SETS_TWO: &[Row] = &[
    Issues(
        0,
        NONE,
        TABLE,
        [0x2780_C600, 0xA0, 0, 0x0200_0000],
        NO_PIECES,
    ),
    Does(0),
    Row::Answered(0x40, 0, 0, 0),
];

const HAS_TWO: &[Row] = &[
    Issues(0, ONE, TABLE, IDENTIFY, SECTOR),
    Does(0),
    Has(DATA + 2 * 59, &[2, 1]),
];

/// WRITE MULTIPLE and READ MULTIPLE of three sectors from LBA 2 on.
const WRITE_MULTIPLE: [u32; 4] = [0x2780_C500, 0x0200_0040, 0, 0x0300_0000];

const READ_MULTIPLE: [u32; 4] = [0x2780_C400, 0x0200_0040, 0, 0x0300_0000];

/// WRITE MULTIPLE of three sectors: a block of two, whose PIO Setup FIS has no I and 1,024 bytes, and one of one.
const WRITTEN: &[Row] = &[Lays(0, 0x0002_0045, TABLE, WRITE_MULTIPLE, THREE)];

const BLOCKS_OUT: &[Row] = &[
    Steps(0),
    PioSetup(0x00, 0xC0, 1024),
    Reads(PX_TFD, 0xC0),
    Reads(PX_IS, 0),
    Reads(PX_CI, 1),
    Steps(0),
    Has(RECEIVED + 0x20, &[0x5F, 0x40, 0x48]),
    Has(RECEIVED + 0x2F, &[0xC0, 0, 2]),
    Reads(PX_TFD, 0xC0),
    Reads(PX_IS, 2),
    Reads(PX_CI, 1),
    Writes(PX_IS, 2),
    Steps(0),
    Row::Answered(0x40, 0, 0, 0),
    Reads(PX_IS, 1),
];

/// READ MULTIPLE of the same: PSS comes with each block, and E_Status of the last one ends the command.
const READ: &[Row] = &[Lays(0, 0x0002_0005, TABLE, READ_MULTIPLE, THREE)];

const BLOCKS_IN: &[Row] = &[
    Steps(0),
    PioSetup(0x60, 0xC0, 1024),
    Reads(PX_TFD, 0xC0),
    Reads(PX_IS, 2),
    Reads(PX_CI, 1),
    Has(LIST + 4, &[0, 4, 0, 0]),
    HasAll(DATA, 512, 0x11),
    HasAll(DATA + 512, 188, 0x22),
    HasAll(DATA + 0x800, 324, 0x22),
    HasAll(DATA + 0x944, 512, 0xEE),
    Writes(PX_IS, 2),
    Steps(0),
];

/// READ MULTIPLE past the last sector: a block of two sectors, and one of the last one; then the FIS with IDNF.
const READ_PAST: &[Row] = &[
    Fills(DATA, 2048, 0xAA),
    Issues(
        0,
        ONE,
        TABLE,
        [0x2780_C400, 0x0500_0040, 0, 0x0400_0000],
        These(&[(DATA, 2048)]),
    ),
    Does(0),
    Row::Answered(0x41, 0x10, 8, 0),
    Reads(PX_CI, 1),
    Has(LIST + 4, &[0, 6, 0, 0]),
    Has(RECEIVED + 0x2F, &[0xC0, 0, 2]),
    HasAll(DATA, 1536, 0),
    HasAll(DATA + 1536, 512, 0xAA),
];

/// Blocks of 16 sectors at most: WRITE MULTIPLE FUA EXT and READ MULTIPLE EXT of eight sectors have one block of 4,096 bytes, and so has WRITE MULTIPLE EXT.
const SETS_SIXTEEN: &[Row] = &[
    Issues(
        0,
        NONE,
        TABLE,
        [0x2780_C600, 0xA0, 0, 0x1000_0000],
        NO_PIECES,
    ),
    Does(0),
    Fills(DATA, 4096, 0x44),
    Issues(
        0,
        0x0001_0045,
        TABLE,
        [0x2780_CE00, 0x0000_0040, 0, 0x0800_0000],
        These(&[(DATA, 4096)]),
    ),
    Does(0),
    Row::Answered(0x40, 0, 0, 0),
    PioSetup(0x00, 0xC0, 4096),
    Sector(0, 0x44),
    Sector(7, 0x44),
    Fills(DATA, 4096, 0x55),
    Issues(
        0,
        0x0001_0045,
        TABLE,
        [0x2780_3900, 0x0600_0040, 0, 0x0200_0000],
        These(&[(DATA, 1024)]),
    ),
    Does(0),
    Has(RECEIVED + 0x2F, &[0xC0, 0, 4]),
    Sector(5, 0x44),
    Sector(6, 0x55),
    Issues(
        0,
        ONE,
        TABLE,
        [0x2780_2900, 0x0000_0040, 0, 0x0800_0000],
        These(&[(DATA, 4096)]),
    ),
    Does(0),
    Reads(PX_CI, 0),
    Has(RECEIVED + 0x2F, &[0x40, 0, 0x10]),
    HasAll(DATA, 3072, 0x44),
    HasAll(DATA + 3072, 1024, 0x55),
];

/// SET FEATURES 03h selects multiword DMA mode 2, and CCh says that a software reset reverts to the defaults.
const REVERTS: &[Row] = &[
    Issues(
        0,
        NONE,
        TABLE,
        [0x2780_EF03, 0xA0, 0, 0x2200_0000],
        NO_PIECES,
    ),
    Does(0),
    Issues(0, ONE, TABLE, IDENTIFY, SECTOR),
    Does(0),
    Has(DATA + 2 * 63, &[7, 4]),
    Has(DATA + 2 * 88, &[0x3F, 0]),
    Issues(0, NONE, TABLE, [0x2780_EFCC, 0xA0, 0, 0], NO_PIECES),
    Does(0),
];

/// SET MULTIPLE MODE of none disables the commands.
const SETS_NONE: &[Row] = &[
    Issues(0, NONE, TABLE, [0x2780_C600, 0xA0, 0, 0], NO_PIECES),
    Does(0),
    Row::Answered(0x40, 0, 0, 0),
];

static STORY: SmallStory = (
    "READ and WRITE MULTIPLE",
    &[
        START,
        UNSET,
        READ_ABORTED,
        RESTART,
        WRITE_ABORTED,
        RESTART,
        SETS_TWO,
        HAS_TWO,
        FILLED,
        WRITTEN,
        SERVED,
        BLOCKS_OUT,
        THREE_WRITTEN,
        EMPTIED,
        READ,
        SERVED,
        BLOCKS_IN,
        LAST_READ,
        SOFTWARE_RESET,
        HAS_TWO,
        COMRESET,
        UNSET,
        READ_ABORTED,
        RESTART,
        SETS_TWO,
        REVERTS,
        HAS_TWO,
        SOFTWARE_RESET,
        UNSET,
        SETS_SIXTEEN,
        SETS_TWO,
        SETS_NONE,
        UNSET,
        READ_ABORTED,
    ],
);

static PAST: SmallStory = (
    "READ MULTIPLE past the last sector",
    &[START, SETS_TWO, READ_PAST],
);

#[test]
fn read_and_write_multiple_move_in_blocks_of_several_sectors(rt: HostRuntime) -> Result<(), Fail> {
    play_small(&rt, rt.alloc(), &[STORY])?;
    play_small(&rt, rt.alloc(), &[PAST])
}
