//! EDK2 2022.11, as OVMF: its accesses as they were recorded up to the port's bases. Of those that follow the recording has how often each
//! comes, and that four writes of PxCMD are around each command: 16h, 4017h, C016h and 4006h.

use crate::tests::player::Pieces::These;
use crate::tests::player::Row::{
    Does, Fills, Has, HasAll, Lays, Reads, ReadsBits, Sector, Signs, Writes,
};
use crate::tests::player::{Pieces, Row, Story};
use crate::tests::registers::{
    CAP, GHC, IS, PI, PX_CI, PX_CLB, PX_CLBU, PX_CMD, PX_FB, PX_FBU, PX_IE, PX_IS, PX_SCTL,
    PX_SERR, PX_SIG, PX_SSTS, PX_TFD,
};

pub static STORY: Story = Story {
    name: "EDK2",
    sectors: 16,
    depth: 32,
    memory: &[(0x1E5F_D000, 0x2400), (0x1E60_0000, 0x100)],
    parts: &[
        RESET,
        PORT,
        STARTED,
        IDENTIFIED,
        STOPPED,
        STARTED,
        MODE_SET,
        STOPPED,
        STARTED,
        WRITTEN,
        STOPPED,
        STARTED,
        READ,
        STOPPED,
        STARTED,
        READ_BY_PIO,
        STOPPED,
    ],
};

/// Where the commands are, and the data. Each entry has its I bit set, so its data set DPS.
const TABLE: u64 = 0x1E5F_D000;

const ONE: Pieces = These(&[(0x1E5F_E000, 0x8000_0200)]);

const TWO: Pieces = These(&[(0x1E5F_E000, 0x8000_0400)]);

const RESET: &[Row] = &[
    Reads(CAP, 0xC124_9F00),
    Reads(GHC, 0x8000_0000),
    Reads(GHC, 0x8000_0000),
    Writes(GHC, 0x8000_0001),
    Reads(GHC, 0x8000_0000),
    Reads(CAP, 0xC124_9F00),
    Reads(GHC, 0x8000_0000),
    Reads(PI, 1),
    Reads(CAP, 0xC124_9F00),
    Reads(PI, 1),
];

const PORT: &[Row] = &[
    Writes(PX_FB, 0x1E60_0000),
    Writes(PX_FBU, 0),
    Writes(PX_CLB, 0x1E5F_F000),
    Writes(PX_CLBU, 0),
    Reads(PX_CMD, 0x6),
    Reads(PX_SCTL, 0),
    Writes(PX_SCTL, 0x300),
    Reads(PX_IE, 0),
    Writes(PX_IE, 0),
    Reads(PX_CMD, 0x6),
    Writes(PX_CMD, 0x16),
    Signs,
    Reads(PX_CMD, 0x4016),
    Reads(PX_SSTS, 0x123),
    Reads(PX_TFD, 0x150),
    Reads(PX_SIG, 0x101),
    Reads(PX_SIG, 0x101),
    Reads(PX_SERR, 0x0405_0000),
    Writes(PX_SERR, 0x0405_0000),
    Writes(PX_CMD, 0x4006),
];

/// Before each command.
const STARTED: &[Row] = &[
    Reads(CAP, 0xC124_9F00),
    Reads(PX_SERR, 0),
    Writes(PX_SERR, 0),
    ReadsBits(PX_IS, 0x4040_0040, 0),
    Writes(PX_IS, 0xFFFF_FFFF),
    Reads(IS, 0),
    Writes(IS, 0),
    Reads(PX_CMD, 0x6),
    Writes(PX_CMD, 0x16),
    Reads(PX_CMD, 0x4016),
    ReadsBits(PX_TFD, 0x88, 0),
    Reads(PX_CMD, 0x4016),
    Writes(PX_CMD, 0x4017),
    Reads(PX_CI, 0),
    Writes(PX_CI, 0),
];

/// After each command.
const STOPPED: &[Row] = &[
    ReadsBits(PX_TFD, 0x89, 0),
    Reads(PX_CMD, 0xC017),
    Writes(PX_CMD, 0xC016),
    Reads(PX_CMD, 0x4016),
    Reads(PX_CMD, 0x4016),
    Writes(PX_CMD, 0x4006),
    Reads(PX_CMD, 0x6),
    Reads(PX_CI, 0),
];

/// Data in by PIO count only if PRDBC has all of them. Word 53 says that word 88 is valid, and that has Ultra DMA.
const IDENTIFIED: &[Row] = &[
    Lays(0, 0x0001_0005, TABLE, [0x2780_EC00, 0x0000_00E0, 0, 0], ONE),
    Writes(PX_CI, 1),
    Does(0),
    Reads(PX_IS, 0x22),
    Has(0x1E5F_F004, &[0, 2, 0, 0]),
    Has(0x1E5F_E000 + 2 * 53, &[0x06, 0x00]),
    Has(0x1E5F_E000 + 2 * 88, &[0x3F, 0x20]),
];

const MODE_SET: &[Row] = &[
    Lays(
        0,
        0x0000_0005,
        TABLE,
        [0x2780_EF03, 0x0000_00E0, 0, 0x4500_0000],
        These(&[]),
    ),
    Writes(PX_CI, 1),
    Does(0),
    Reads(PX_IS, 1),
];

const WRITTEN: &[Row] = &[
    Fills(0x1E5F_E000, 512, 0x11),
    Fills(0x1E5F_E200, 512, 0x22),
    Lays(
        0,
        0x0001_0045,
        TABLE,
        [0x2780_CA00, 0x0700_00E0, 0, 0x0200_0000],
        TWO,
    ),
    Writes(PX_CI, 1),
    Does(0),
    Reads(PX_IS, 0x21),
    Sector(7, 0x11),
    Sector(8, 0x22),
];

const READ: &[Row] = &[
    Fills(0x1E5F_E000, 1024, 0xEE),
    Lays(
        0,
        0x0001_0005,
        TABLE,
        [0x2780_C800, 0x0800_00E0, 0, 0x0100_0000],
        ONE,
    ),
    Writes(PX_CI, 1),
    Does(0),
    Reads(PX_IS, 0x21),
    HasAll(0x1E5F_E000, 512, 0x22),
    HasAll(0x1E5F_E200, 512, 0xEE),
];

/// READ SECTOR(S), which it takes of a disk with no DMA.
const READ_BY_PIO: &[Row] = &[
    Fills(0x1E5F_E000, 1024, 0xEE),
    Lays(
        0,
        0x0001_0005,
        TABLE,
        [0x2780_2000, 0x0700_00E0, 0, 0x0200_0000],
        TWO,
    ),
    Writes(PX_CI, 1),
    Does(0),
    Reads(PX_IS, 0x22),
    Has(0x1E5F_F004, &[0, 4, 0, 0]),
    HasAll(0x1E5F_E000, 512, 0x11),
    HasAll(0x1E5F_E200, 512, 0x22),
];
