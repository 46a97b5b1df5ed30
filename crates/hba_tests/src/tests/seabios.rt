//! SeaBIOS 1.16.2: its accesses from power-on to the first sector, and two sectors that are written and read again, as they were recorded.

use crate::tests::player::Pieces::These;
use crate::tests::player::Row::{Does, Fills, Has, HasAll, Lays, Reads, Sector, Signs, Writes};
use crate::tests::player::{Pieces, Row, Story};
use crate::tests::registers::{
    CAP, GHC, PI, PX_CI, PX_CLB, PX_CLBU, PX_CMD, PX_FB, PX_FBU, PX_IE, PX_IS, PX_SERR, PX_SSTS,
    PX_TFD,
};

pub static STORY: Story = Story {
    name: "SeaBIOS",
    sectors: 256,
    depth: 32,
    memory: &[
        (0x7C00, 0x800),
        (0x1EFE_6DD8, 0x200),
        (0x1EFE_8800, 0xB00),
        (0x1FFD_FA00, 0x600),
    ],
    parts: &[ROWS],
};

/// Where its commands are, first and later.
const EARLY: u64 = 0x1EFE_9000;

const LATE: u64 = 0x1FFD_FA00;

const PAGE: Pieces = These(&[(0x1EFE_6DD8, 512)]);

const SECTORS: Pieces = These(&[(0x8000, 1024)]);

const ROWS: &[Row] = &[
    Reads(GHC, 0x8000_0000),
    Writes(GHC, 0x8000_0000),
    Reads(CAP, 0xC124_9F00),
    Reads(PI, 1),
    Writes(PX_CLB, 0x1EFE_8800),
    Writes(PX_FB, 0x1EFE_9200),
    Writes(PX_CLBU, 0),
    Writes(PX_FBU, 0),
    Reads(PX_CMD, 0x6),
    Writes(PX_IE, 0),
    Reads(PX_IS, 0x0040_0040),
    Writes(PX_IS, 0x0040_0040),
    Reads(PX_CMD, 0x6),
    Writes(PX_CMD, 0x16),
    Writes(PX_CMD, 0x16),
    Reads(PX_SSTS, 0x123),
    Reads(PX_SERR, 0x0405_0000),
    Writes(PX_SERR, 0x0405_0000),
    Signs,
    Reads(PX_TFD, 0x150),
    Writes(PX_CMD, 0x17),
    // IDENTIFY PACKET DEVICE is aborted: the received FIS has the signature of a disk
    Reads(PX_IS, 0),
    Lays(0, 0x0001_0005, EARLY, [0x2780_A100, 0, 0, 0], PAGE),
    Writes(PX_CI, 1),
    Does(0),
    Reads(PX_IS, 0x4000_0001),
    Has(
        0x1EFE_9240,
        &[0x34, 0x40, 0x41, 4, 1, 0, 0, 0, 0, 0, 0, 0, 1, 0],
    ),
    Writes(PX_IS, 0x4000_0001),
    Reads(PX_CMD, 0xC017),
    Writes(PX_CMD, 0xC016),
    Reads(PX_CMD, 0x4016),
    Reads(PX_SERR, 0),
    Writes(PX_SERR, 0),
    Reads(PX_IS, 0),
    Writes(PX_IS, 0),
    Reads(PX_TFD, 0x441),
    Reads(PX_CMD, 0x4016),
    Writes(PX_CMD, 0x4017),
    // IDENTIFY DEVICE: PRDBC, and words 47 to 50, 60 and 83
    Reads(PX_IS, 0),
    Lays(0, 0x0001_0005, EARLY, [0x2780_EC00, 0, 0, 0], PAGE),
    Writes(PX_CI, 1),
    Does(0),
    Reads(PX_IS, 2),
    Writes(PX_IS, 2),
    Has(0x1EFE_8804, &[0, 2, 0, 0]),
    Has(
        0x1EFE_6DD8 + 2 * 47,
        &[0x10, 0x80, 0x00, 0x40, 0x00, 0x0F, 0x00, 0x40],
    ),
    Has(0x1EFE_6DD8 + 2 * 60, &[0x00, 0x01, 0x00, 0x00]),
    Has(0x1EFE_6DD8 + 2 * 83, &[0x08, 0x74]),
    // SET FEATURES, with W and an entry of 4 MiB that isn't used
    Reads(PX_IS, 0),
    Lays(
        0,
        0x0001_0045,
        EARLY,
        [0x2780_EF03, 0, 0, 0x4500_0000],
        These(&[(0, 0x40_0000)]),
    ),
    Writes(PX_CI, 1),
    Does(0),
    Reads(PX_IS, 1),
    Writes(PX_IS, 1),
    // the port is stopped, and FISes are no longer received, by one write; then both begin by one write, elsewhere
    Reads(PX_CMD, 0xC017),
    Writes(PX_CMD, 0xC006),
    Reads(PX_CMD, 0x6),
    Writes(PX_IE, 0),
    Reads(PX_IS, 0),
    Writes(PX_CLB, 0x1FFD_FC00),
    Writes(PX_FB, 0x1FFD_FB00),
    Reads(PX_CMD, 0x6),
    Writes(PX_CMD, 0x17),
    // READ DMA of the first sector
    Fills(0x7C00, 512, 0xEE),
    Reads(PX_IS, 0),
    Lays(
        0,
        0x0001_0005,
        LATE,
        [0x2780_C801, 0x0000_0040, 0, 0x0100_0000],
        These(&[(0x7C00, 512)]),
    ),
    Writes(PX_CI, 1),
    Does(0),
    Reads(PX_IS, 1),
    Writes(PX_IS, 1),
    HasAll(0x7C00, 512, 0),
    // WRITE DMA of two sectors, and READ DMA of them
    Fills(0x8000, 1024, 0xB5),
    Reads(PX_IS, 0),
    Lays(
        0,
        0x0001_0045,
        LATE,
        [0x2780_CA01, 0xC800_0040, 0, 0x0200_0000],
        SECTORS,
    ),
    Writes(PX_CI, 1),
    Does(0),
    Reads(PX_IS, 1),
    Writes(PX_IS, 1),
    Sector(200, 0xB5),
    Sector(201, 0xB5),
    Sector(202, 0),
    Fills(0x8000, 1024, 0xEE),
    Reads(PX_IS, 0),
    Lays(
        0,
        0x0001_0005,
        LATE,
        [0x2780_C801, 0xC800_0040, 0, 0x0200_0000],
        SECTORS,
    ),
    Writes(PX_CI, 1),
    Does(0),
    Reads(PX_IS, 1),
    Writes(PX_IS, 1),
    HasAll(0x8000, 1024, 0xB5),
];
