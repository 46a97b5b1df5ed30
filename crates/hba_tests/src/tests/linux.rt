//! Linux 6.1, libahci: its accesses from power-on to its first queued read and write, as they were recorded.

use crate::tests::player::Pieces::These;
use crate::tests::player::Row::{
    Does, Fills, Has, HasAll, Interrupt, Lays, Reads, ReadsBits, Sector, Signs, Takes, Writes,
};
use crate::tests::player::{Row, Story};
use crate::tests::registers::{
    CAP, GHC, IS, PI, PX_CI, PX_CLB, PX_CLBU, PX_CMD, PX_FB, PX_FBU, PX_IE, PX_IS, PX_SACT,
    PX_SCTL, PX_SERR, PX_SIG, PX_SSTS, PX_TFD, VS,
};

pub static STORY: Story = Story {
    name: "Linux",
    sectors: 8192,
    depth: 32,
    memory: &[
        (0x3B52_4000, 0x1000),
        (0x3C11_6600, 0x200),
        (0x3C11_7780, 0x200),
        (0x3C12_0000, 0xA000),
        (0x4AAD_A000, 0x1000),
        (0x4AAD_D000, 0x1000),
    ],
    parts: &[
        PROBED,
        STARTED,
        LINK_RESET,
        IDENTIFIED,
        MODE_SET,
        QUEUED_READ,
        QUEUED_WRITES,
    ],
};

/// Capabilities, some of registers that there are none of, and a reset of the HBA, which ends at once.
const PROBED: &[Row] = &[
    Reads(CAP, 0xC124_9F00),
    Reads(GHC, 0x8000_0000),
    Reads(VS, 0x0001_0301),
    Reads(0x24, 0), // CAP2
    Reads(PI, 1),
    Reads(PX_CMD, 0x6),
    Reads(0x1C, 0), // EM_LOC
    Reads(0x20, 0), // EM_CTL
    Reads(GHC, 0x8000_0000),
    Writes(GHC, 0x8000_0001),
    Reads(GHC, 0x8000_0000),
    Writes(CAP, 0xC124_9F00),
    Writes(PI, 1),
    Reads(PI, 1),
    Writes(PX_CMD, 0),
    Reads(PX_CMD, 0x6),
    Writes(PX_CMD, 0x6),
    Reads(PX_CMD, 0x6),
    Reads(PX_SERR, 0x0405_0000),
    Writes(PX_SERR, 0x0405_0000),
    Reads(PX_IS, 0),
    Writes(IS, 1),
    Reads(PX_CMD, 0x6),
    Reads(GHC, 0x8000_0000),
    Writes(GHC, 0x8000_0002),
    Reads(GHC, 0x8000_0002),
];

const STARTED: &[Row] = &[
    Reads(PX_CMD, 0x6),
    Writes(PX_CMD, 0x1000_0006), // ICC: active
    Writes(PX_CLBU, 0),
    Writes(PX_CLB, 0x3C12_0000),
    Writes(PX_FBU, 0),
    Writes(PX_FB, 0x3C12_0400),
    Reads(PX_CMD, 0x6),
    Writes(PX_CMD, 0x16),
    Signs,
    Reads(PX_CMD, 0x4016),
    Writes(PX_CMD, 0x4017),
    Reads(PX_CMD, 0xC017),
    Writes(PX_CMD, 0xC017),
    Writes(PX_IE, 0),
    Reads(PX_SCTL, 0),
];

/// COMRESET, with FRE still set: the signature comes again.
const LINK_RESET: &[Row] = &[
    Writes(PX_IE, 0),
    Reads(PX_CMD, 0xC017),
    Writes(PX_CMD, 0xC016),
    Reads(PX_CMD, 0x4016),
    Reads(PX_SERR, 0),
    Writes(PX_SERR, 0),
    Reads(PX_IS, 0),
    Writes(IS, 1),
    Reads(PX_SCTL, 0),
    Writes(PX_SCTL, 0x301),
    Reads(PX_SCTL, 0x301),
    Reads(PX_SSTS, 0),
    ReadsBits(PX_TFD, 0xFF, 0x7F),
    Writes(PX_SCTL, 0x300),
    Reads(PX_SCTL, 0x300),
    Reads(PX_SSTS, 0x123),
    Reads(PX_IS, 0x0040_0040),
    Reads(PX_SERR, 0x0405_0000),
    Writes(PX_SERR, 0x0405_0000),
    Signs,
    Reads(PX_SSTS, 0x123),
    Reads(PX_TFD, 0x150),
    Reads(PX_CMD, 0x4016),
    Writes(PX_CMD, 0x4017),
    Reads(PX_CMD, 0xC017),
    Reads(PX_SIG, 0x101),
    Reads(PX_SSTS, 0x123),
    Reads(PX_IS, 0),
    Writes(PX_IS, 0),
    Writes(IS, 1),
    Writes(PX_IE, 0x7840_007F),
    Reads(PX_IE, 0x7840_007F),
];

/// IDENTIFY DEVICE, with its interrupt; words 53, 75, 76, 83 and 88 make Linux queue commands.
const IDENTIFIED: &[Row] = &[
    Lays(
        0,
        0x0001_0005,
        0x3C12_0500,
        [0x2780_EC00, 0x0000_00A0, 0, 0x0000_0008],
        These(&[(0x3C11_6600, 512)]),
    ),
    Writes(PX_CI, 1),
    Interrupt(false),
    Does(0),
    Interrupt(true),
    Reads(IS, 1),
    Reads(PX_IS, 2),
    Writes(PX_IS, 2),
    Reads(PX_CI, 0),
    Writes(IS, 1),
    Interrupt(false),
    Has(0x3C11_6600 + 2 * 53, &[0x06, 0x00]),
    Has(0x3C11_6600 + 2 * 75, &[31, 0, 0x0E, 0x85]),
    Has(0x3C11_6600 + 2 * 83, &[0x08, 0x74]),
    Has(0x3C11_6600 + 2 * 88, &[0x3F, 0x20]),
];

const MODE_SET: &[Row] = &[
    Lays(
        0,
        0x0000_0005,
        0x3C12_0500,
        [0x2780_EF03, 0x0000_00A0, 0, 0x4500_0008],
        These(&[]),
    ),
    Writes(PX_CI, 1),
    Does(0),
    Interrupt(true),
    Reads(IS, 1),
    Reads(PX_IS, 1),
    Writes(PX_IS, 1),
    Reads(PX_CI, 0),
    Writes(IS, 1),
    Lays(
        0,
        0x0001_0005,
        0x3C12_0500,
        [0x2780_EC00, 0x0000_00A0, 0, 0x0000_0008],
        These(&[(0x3C11_7780, 512)]),
    ),
    Writes(PX_CI, 1),
    Does(0),
    Reads(IS, 1),
    Reads(PX_IS, 2),
    Writes(PX_IS, 2),
    Reads(PX_CI, 0),
    Writes(IS, 1),
    Has(0x3C11_7780 + 2 * 75, &[31, 0]),
];

/// The first queued command has tag 11.
const QUEUED_READ: &[Row] = &[
    Fills(0x3B52_4000, 4096, 0xEE),
    Writes(PX_SACT, 0x800),
    Lays(
        11,
        0x0001_0005,
        0x3C12_7E00,
        [0x2780_6008, 0x0000_0040, 0, 0x5800_0008],
        These(&[(0x3B52_4000, 4096)]),
    ),
    Writes(PX_CI, 0x800),
    Takes(11),
    Reads(PX_CI, 0),
    Reads(PX_SACT, 0x800),
    Interrupt(false),
    Does(11),
    Interrupt(true),
    Reads(IS, 1),
    Reads(PX_IS, 8),
    Writes(PX_IS, 8),
    Reads(PX_SACT, 0),
    Writes(IS, 1),
    Interrupt(false),
    HasAll(0x3B52_4000, 4096, 0),
];

/// Two writes, done in the opposite order; one interrupt may announce both.
const QUEUED_WRITES: &[Row] = &[
    Fills(0x4AAD_A000, 4096, 0x12),
    Fills(0x4AAD_D000, 4096, 0x13),
    Writes(PX_SACT, 0x1000),
    Lays(
        12,
        0x0001_0045,
        0x3C12_8900,
        [0x2780_6108, 0xF01E_0040, 0, 0x6000_0008],
        These(&[(0x4AAD_A000, 4096)]),
    ),
    Writes(PX_CI, 0x1000),
    Takes(12),
    Writes(PX_SACT, 0x2000),
    Lays(
        13,
        0x0001_0045,
        0x3C12_9400,
        [0x2780_6108, 0x6011_0040, 0, 0x6800_0008],
        These(&[(0x4AAD_D000, 4096)]),
    ),
    Writes(PX_CI, 0x2000),
    Takes(13),
    Reads(PX_SACT, 0x3000),
    Does(13),
    Reads(PX_SACT, 0x1000),
    Does(12),
    Reads(IS, 1),
    Reads(PX_IS, 8),
    Writes(PX_IS, 8),
    Reads(PX_SACT, 0),
    Writes(IS, 1),
    Interrupt(false),
    Sector(0x1EF0, 0x12),
    Sector(0x1EF7, 0x12),
    Sector(0x1EF8, 0),
    Sector(0x1160, 0x13),
    Sector(0x1167, 0x13),
];
