//! GRUB 2.06 with its own driver, after SeaBIOS: its accesses as they were recorded. The recording has no addresses of its commands, and
//! these are chosen.

use crate::tests::player::Pieces::These;
use crate::tests::player::Row::{
    Does, Fills, Has, HasAll, Lays, Reads, ReadsBits, Sector, Signs, Writes,
};
use crate::tests::player::{Pieces, Row, Story};
use crate::tests::registers::{
    PX_CI, PX_CLB, PX_CLBU, PX_CMD, PX_FB, PX_FBU, PX_IE, PX_IS, PX_SACT, PX_SERR, PX_SSTS, PX_TFD,
};

pub static STORY: Story = Story {
    name: "GRUB",
    sectors: 16,
    depth: 32,
    memory: &[
        (0x1EFE_8800, 0xB00),
        (0x1FF1_D000, 0x100),
        (0x1FF1_EC00, 0x400),
        (0x1FF2_0000, 0x1000),
    ],
    parts: &[
        FIRMWARE, STOPPED, STARTED, IDENTIFIED, WRITTEN, READ, STOPPED,
    ],
};

/// Where the commands are, and the data.
const TABLE: u64 = 0x1FF2_0000;

const DATA: Pieces = These(&[(0x1FF2_0800, 512)]);

/// What SeaBIOS leaves: a port that is started.
const FIRMWARE: &[Row] = &[
    Writes(PX_CLB, 0x1EFE_8800),
    Writes(PX_FB, 0x1EFE_9200),
    Writes(PX_CMD, 0x16),
    Signs,
    Writes(PX_SERR, 0x0405_0000),
    Writes(PX_CMD, 0x17),
    Reads(PX_SERR, 0),
    Writes(PX_SERR, 0),
    Reads(PX_SERR, 0),
];

/// FRE is cleared while ST is 1, and then ST.
const STOPPED: &[Row] = &[
    Reads(PX_CMD, 0xC017),
    Writes(PX_CMD, 0xC007),
    Reads(PX_CMD, 0x8007),
    Reads(PX_CMD, 0x8007),
    Writes(PX_CMD, 0x8006),
    Reads(PX_CMD, 0x6),
];

const STARTED: &[Row] = &[
    Writes(PX_IE, 0),
    Writes(PX_IS, 0xFFFF_FFFF),
    Reads(PX_SERR, 0),
    Writes(PX_FB, 0x1FF1_D000),
    Writes(PX_FBU, 0),
    Writes(PX_CLB, 0x1FF1_EC00),
    Writes(PX_CLBU, 0),
    Writes(PX_CI, 0),
    Reads(PX_CMD, 0x6),
    Writes(PX_CMD, 0x16),
    Reads(PX_CMD, 0x4016),
    Reads(PX_SERR, 0),
    Reads(PX_CMD, 0x4016),
    Writes(PX_CMD, 0x4016),
    Reads(PX_CMD, 0x4016),
    Writes(PX_CMD, 0x1000_4016),
    Reads(PX_CMD, 0x4016),
    Reads(PX_SSTS, 0x123),
    ReadsBits(PX_TFD, 0x89, 0),
    Writes(PX_CMD, 0x4017),
    Reads(PX_CMD, 0xC017),
];

/// Each command has its bit of PxSACT set, and none is queued. No Set Device Bits FIS clears it.
const IDENTIFIED: &[Row] = &[
    Lays(0, 0x0001_0005, TABLE, [0x2780_EC00, 0, 0, 0], DATA),
    Writes(PX_SACT, 1),
    Writes(PX_CI, 1),
    Does(0),
    Reads(PX_CI, 0),
    Reads(PX_SACT, 1),
    Reads(PX_SERR, 0),
    ReadsBits(PX_TFD, 0x89, 0),
    ReadsBits(PX_IS, 0x4000_0002, 2),
    Has(0x1FF2_0800 + 2 * 60, &[16, 0, 0, 0]),
    Has(0x1FF2_0800 + 2 * 100, &[16, 0, 0, 0, 0, 0, 0, 0]),
];

const WRITTEN: &[Row] = &[
    Fills(0x1FF2_0800, 512, 0xA7),
    Lays(
        0,
        0x0001_0045,
        TABLE,
        [0x2780_CA00, 0x0500_0040, 0, 0x0100_0000],
        DATA,
    ),
    Writes(PX_SACT, 1),
    Writes(PX_CI, 1),
    Does(0),
    Reads(PX_CI, 0),
    Sector(5, 0xA7),
    Sector(6, 0),
];

const READ: &[Row] = &[
    Fills(0x1FF2_0800, 512, 0),
    Lays(
        0,
        0x0001_0005,
        TABLE,
        [0x2780_C800, 0x0500_0040, 0, 0x0100_0000],
        DATA,
    ),
    Writes(PX_SACT, 1),
    Writes(PX_CI, 1),
    Does(0),
    Reads(PX_SERR, 0),
    ReadsBits(PX_TFD, 0x89, 0),
    ReadsBits(PX_IS, 0x4000_0001, 1),
    Reads(PX_CI, 0),
    HasAll(0x1FF2_0800, 512, 0xA7),
];
