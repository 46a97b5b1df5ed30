//! Linux 6.1, libahci: its way back from a queued command that has failed with UNC, as it was recorded, of four commands in place of
//! fifteen. The recording names the failed command by its tag and sector; where its data go is chosen.

use crate::tests::player::Pieces::These;
use crate::tests::player::Row::{
    Does, Fails, Fills, Has, HasAll, Interrupt, Lays, Reads, ReadsBits, Sector, Signs, Takes,
    Writes,
};
use crate::tests::player::{Pieces, Row, Story};
use crate::tests::registers::{
    GHC, IS, PX_CI, PX_CLB, PX_CMD, PX_FB, PX_IE, PX_IS, PX_SACT, PX_SERR, PX_SSTS, PX_TFD,
};

pub static STORY: Story = Story {
    name: "Linux after an error",
    sectors: 2944,
    depth: 32,
    memory: &[
        (0x0276_3AC0, 0x200),
        (0x027E_0000, 0x1_4800),
        (0x02B7_8000, 0x1000),
        (0x0800_5000, 0x3000),
        (0x0801_9000, 0x1000),
    ],
    parts: &[
        STARTED,
        QUEUED,
        FAILED,
        HALTED,
        TOLD,
        STOPPED,
        LOGGED,
        IDENTIFIED,
        MODE_SET,
        IDENTIFIED,
        ISSUED_AGAIN,
        DONE,
    ],
};

const TABLE: u64 = 0x027E_0500;

const PAGE: Pieces = These(&[(0x0276_3AC0, 512)]);

const FAILING: Pieces = These(&[(0x0800_5000, 4096)]);

const WRITTEN: Pieces = These(&[(0x0801_9000, 4096)]);

const READ: Pieces = These(&[(0x0800_7000, 4096)]);

const LATER: Pieces = These(&[(0x02B7_8000, 4096)]);

const STARTED: &[Row] = &[
    Writes(GHC, 0x8000_0002),
    Writes(PX_CLB, 0x027E_0000),
    Writes(PX_FB, 0x027E_0400),
    Writes(PX_CMD, 0x16),
    Writes(PX_CMD, 0x4017),
    Writes(PX_SERR, 0x0405_0000),
    Signs,
    Writes(IS, 1),
    Writes(PX_IE, 0x7840_007F),
];

/// A read with tag 17, a write with tag 26, a read with tag 27.
const QUEUED: &[Row] = &[
    Fills(0x0800_5000, 0x3000, 0xEE),
    Fills(0x0801_9000, 4096, 0x26),
    Writes(PX_SACT, 0x0002_0000),
    Lays(
        17,
        0x0001_0005,
        0x027E_C000,
        [0x2780_6008, 0xE803_0040, 0, 0x8800_0008],
        FAILING,
    ),
    Writes(PX_CI, 0x0002_0000),
    Takes(17),
    Writes(PX_SACT, 0x0400_0000),
    Lays(
        26,
        0x0001_0045,
        0x027F_2300,
        [0x2780_6108, 0xA000_0040, 0, 0xD000_0008],
        WRITTEN,
    ),
    Writes(PX_CI, 0x0400_0000),
    Takes(26),
    Writes(PX_SACT, 0x0800_0000),
    Lays(
        27,
        0x0001_0005,
        0x027F_2E00,
        [0x2780_6008, 0x3009_0040, 0, 0xD800_0008],
        READ,
    ),
    Writes(PX_CI, 0x0800_0000),
    Takes(27),
    Reads(PX_SACT, 0x0C02_0000),
    Reads(PX_CI, 0),
];

const FAILED: &[Row] = &[
    Fails(17, 0x40, 1000),
    Interrupt(true),
    Reads(PX_TFD, 0x4041),
    Reads(PX_SACT, 0x0C02_0000),
    Has(0x027E_0458, &[0xA1, 0x40, 0x41, 0x40, 0, 0, 0, 0]),
];

/// A command that is issued before the failure is seen. The halted port takes its bits, and not the command.
const HALTED: &[Row] = &[
    Writes(PX_SACT, 0x1000_0000),
    Lays(
        28,
        0x0001_0005,
        0x027F_3900,
        [0x2780_6008, 0x700B_0040, 0, 0xE000_0008],
        LATER,
    ),
    Writes(PX_CI, 0x1000_0000),
    Does(28),
    Does(26),
    Reads(PX_SACT, 0x1C02_0000),
    Reads(PX_CI, 0x1000_0000),
];

const TOLD: &[Row] = &[
    Reads(IS, 1),
    Reads(PX_IS, 0x4000_0008),
    Writes(PX_IS, 0x4000_0008),
    Reads(PX_SERR, 0),
    Writes(PX_SERR, 0),
    Writes(IS, 1),
    Interrupt(false),
];

/// ST off and on: no bit is left, and no sector was written.
const STOPPED: &[Row] = &[
    ReadsBits(PX_CMD, 0xFFFF_E0FF, 0xC017),
    Writes(PX_CMD, 0xC016),
    Reads(PX_CMD, 0x4016),
    Reads(PX_CMD, 0x4016),
    Reads(PX_SACT, 0),
    Reads(PX_CI, 0),
    Writes(PX_CMD, 0x4017),
    Reads(PX_CMD, 0xC017),
    Reads(PX_SERR, 0),
    Sector(160, 0),
];

/// READ LOG EXT of log 10h: tag, status, error and LBA of the command that has failed.
const LOGGED: &[Row] = &[
    Lays(
        0,
        0x0001_0005,
        TABLE,
        [0x2780_2F00, 0x1000_00A0, 0, 0x0100_0008],
        PAGE,
    ),
    Writes(PX_CI, 1),
    Does(0),
    Interrupt(true),
    Reads(IS, 1),
    Reads(PX_IS, 2),
    Writes(PX_IS, 2),
    Reads(PX_CI, 0),
    Writes(IS, 1),
    Has(0x0276_3AC0, &[17, 0, 0x41, 0x40, 0xE8, 0x03, 0, 0, 0, 0, 0]),
    Has(0x027E_0004, &[0, 2, 0, 0]),
    Reads(PX_SSTS, 0x123),
];

const IDENTIFIED: &[Row] = &[
    Lays(
        0,
        0x0001_0005,
        TABLE,
        [0x2780_EC00, 0x0000_00A0, 0, 0x0000_0008],
        PAGE,
    ),
    Writes(PX_CI, 1),
    Does(0),
    Reads(IS, 1),
    Reads(PX_IS, 2),
    Writes(PX_IS, 2),
    Reads(PX_CI, 0),
    Writes(IS, 1),
    Has(0x0276_3AC0 + 2 * 60, &[0x80, 0x0B, 0, 0]),
];

const MODE_SET: &[Row] = &[
    Lays(
        0,
        0x0000_0005,
        TABLE,
        [0x2780_EF03, 0x0000_00A0, 0, 0x4500_0008],
        These(&[]),
    ),
    Writes(PX_CI, 1),
    Does(0),
    Reads(IS, 1),
    Reads(PX_IS, 1),
    Writes(PX_IS, 1),
    Reads(PX_CI, 0),
    Writes(IS, 1),
];

/// The commands come back: the dropped read of tag 27 in slot 6, and the others in slots 4, 5 and 7.
const ISSUED_AGAIN: &[Row] = &[
    Writes(PX_SACT, 0x10),
    Lays(
        4,
        0x0001_0005,
        0x027E_3100,
        [0x2780_6008, 0xE803_0040, 0, 0x2000_0008],
        FAILING,
    ),
    Writes(PX_CI, 0x10),
    Writes(PX_SACT, 0x20),
    Lays(
        5,
        0x0001_0045,
        0x027E_3C00,
        [0x2780_6108, 0xA000_0040, 0, 0x2800_0008],
        WRITTEN,
    ),
    Writes(PX_CI, 0x20),
    Writes(PX_SACT, 0x40),
    Lays(
        6,
        0x0001_0005,
        0x027E_4700,
        [0x2780_6008, 0x3009_0040, 0, 0x3000_0008],
        READ,
    ),
    Writes(PX_CI, 0x40),
    Writes(PX_SACT, 0x80),
    Lays(
        7,
        0x0001_0005,
        0x027E_5200,
        [0x2780_6008, 0x700B_0040, 0, 0x3800_0008],
        LATER,
    ),
    Writes(PX_CI, 0x80),
];

const DONE: &[Row] = &[
    Takes(4),
    Takes(5),
    Takes(6),
    Takes(7),
    Reads(PX_SACT, 0xF0),
    Does(6),
    Does(5),
    Does(4),
    Does(7),
    Reads(IS, 1),
    Reads(PX_IS, 8),
    Reads(PX_SACT, 0),
    Reads(PX_TFD, 0x40),
    HasAll(0x0800_5000, 4096, 0),
    HasAll(0x0800_6000, 4096, 0xEE),
    HasAll(0x0800_7000, 4096, 0),
    HasAll(0x02B7_8000, 4096, 0),
    Sector(159, 0),
    Sector(160, 0x26),
    Sector(167, 0x26),
    Sector(168, 0),
];
