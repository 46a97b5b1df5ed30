//! Transfers by PIO, block by block (Serial ATA, "PIO Setup"; ACS-3, "PIO data-in command protocol" and "PIO data-out command protocol").

use crate::tests::player::Pieces::These;
use crate::tests::player::Row::{
    Does, Fills, Has, HasAll, Lays, PioSetup, Reads, ReadsBits, Sector, Steps, StepsBy, Writes,
};
use crate::tests::player::{Pieces, Row};
use crate::tests::registers::{PX_CI, PX_CMD, PX_IS, PX_TFD};
use crate::tests::settings::{
    COMRESET, DATA, LIST, RECEIVED, START, SmallStory, TABLE, play_small,
};
use std::test::Fail;

/// Three sectors, in two pieces: the second sector lies in both.
pub const THREE: Pieces = These(&[(DATA, 700), (DATA + 0x800, 836)]);

/// WRITE SECTOR(S) and READ SECTOR(S) of three sectors from LBA 2 on.
const WRITE_SECTORS: [u32; 4] = [0x2780_3000, 0x0200_0040, 0, 0x0300_0000];

const READ_SECTORS: [u32; 4] = [0x2780_2000, 0x0200_0040, 0, 0x0300_0000];

pub const FILLED: &[Row] = &[
    Fills(DATA, 512, 0x11),
    Fills(DATA + 512, 188, 0x22),
    Fills(DATA + 0x800, 324, 0x22),
    Fills(DATA + 0x944, 512, 0x33),
    Fills(RECEIVED, 256, 0xEE),
    Writes(PX_IS, 0xFFFF_FFFF),
];

/// The command is read, sent, taken and served; no FIS has come.
pub const SERVED: &[Row] = &[
    Writes(PX_CI, 1),
    StepsBy(0, 5),
    ReadsBits(PX_TFD, 0x89, 0x80),
    Reads(PX_IS, 0),
    Reads(PX_CI, 1),
    Has(LIST + 4, &[0, 0, 0, 0]),
    HasAll(RECEIVED, 256, 0xEE),
];

const WRITTEN: &[Row] = &[Lays(0, 0x0002_0045, TABLE, WRITE_SECTORS, THREE)];

/// WRITE SECTOR(S): a PIO Setup FIS for each block, the first one with no I, and a D2H Register FIS behind the last one.
const BLOCKS_OUT: &[Row] = &[
    Steps(0),
    PioSetup(0x00, 0xC0, 512),
    Reads(PX_TFD, 0xC0),
    Reads(PX_IS, 0),
    Reads(PX_CI, 1),
    Steps(0),
    Has(RECEIVED + 0x20, &[0x5F, 0x40, 0x48]),
    Reads(PX_TFD, 0xC0),
    Reads(PX_IS, 2),
    Writes(PX_IS, 2),
    Steps(0),
    Has(RECEIVED + 0x2F, &[0xC0, 0, 2]),
    Reads(PX_TFD, 0xC0),
    Reads(PX_IS, 2),
    Reads(PX_CI, 1),
    HasAll(RECEIVED + 0x40, 20, 0xEE),
    Writes(PX_IS, 2),
    Steps(0),
    Row::Answered(0x40, 0, 0, 0),
    Reads(PX_TFD, 0x40),
    Reads(PX_IS, 1),
];

/// The three sectors are written, and those beside them are not.
pub const THREE_WRITTEN: &[Row] = &[
    Reads(PX_CI, 0),
    Has(LIST + 4, &[0, 6, 0, 0]),
    Sector(1, 0),
    Sector(2, 0x11),
    Sector(3, 0x22),
    Sector(4, 0x33),
    Sector(5, 0),
];

pub const EMPTIED: &[Row] = &[
    Fills(DATA, 0x1000, 0xEE),
    Fills(RECEIVED, 256, 0xEE),
    Writes(PX_IS, 0xFFFF_FFFF),
];

const READ: &[Row] = &[Lays(0, 0x0002_0005, TABLE, READ_SECTORS, THREE)];

/// READ SECTOR(S): for each block a PIO Setup FIS with I, its bytes, PRDBC and PSS.
const BLOCKS_IN: &[Row] = &[
    Steps(0),
    PioSetup(0x60, 0xC0, 512),
    Reads(PX_TFD, 0xC0),
    Reads(PX_IS, 2),
    Reads(PX_CI, 1),
    Has(LIST + 4, &[0, 2, 0, 0]),
    HasAll(DATA, 512, 0x11),
    HasAll(DATA + 512, 512, 0xEE),
    Writes(PX_IS, 2),
    Writes(PX_CMD, 0x01),
    Steps(0),
    Reads(PX_IS, 0),
    Writes(PX_CMD, 0x11),
    Steps(0),
    Reads(PX_TFD, 0xC0),
    Reads(PX_IS, 2),
    Reads(PX_CI, 1),
    Has(LIST + 4, &[0, 4, 0, 0]),
    HasAll(DATA + 512, 188, 0x22),
    HasAll(DATA + 700, 324, 0xEE),
    HasAll(DATA + 0x800, 324, 0x22),
    HasAll(DATA + 0x944, 512, 0xEE),
    Writes(PX_IS, 2),
    Steps(0),
];

/// The last block has one sector. E_Status of its PIO Setup FIS ends the command, with no D2H Register FIS.
pub const LAST_READ: &[Row] = &[
    Has(RECEIVED + 0x2F, &[0x40, 0, 2]),
    Reads(PX_TFD, 0x40),
    Reads(PX_IS, 2),
    Reads(PX_CI, 0),
    Has(LIST + 4, &[0, 6, 0, 0]),
    HasAll(DATA + 0x944, 512, 0x33),
    HasAll(RECEIVED + 0x40, 20, 0xEE),
];

/// A transfer under way ends with ST: no block comes after it, and the next command goes on.
const STOPPED: &[Row] = &[
    Steps(0),
    Has(LIST + 4, &[0, 2, 0, 0]),
    Writes(PX_CMD, 0x10),
    Steps(0),
    Reads(PX_CI, 0),
    Has(LIST + 4, &[0, 2, 0, 0]),
    HasAll(DATA + 512, 512, 0xEE),
];

const AGAIN: &[Row] = &[
    Writes(PX_CI, 1),
    Does(0),
    Reads(PX_CI, 0),
    HasAll(DATA + 0x944, 512, 0x33),
];

static STORY: SmallStory = (
    "transfers by PIO",
    &[
        START,
        FILLED,
        WRITTEN,
        SERVED,
        BLOCKS_OUT,
        THREE_WRITTEN,
        EMPTIED,
        READ,
        SERVED,
        BLOCKS_IN,
        LAST_READ,
        EMPTIED,
        READ,
        SERVED,
        STOPPED,
        COMRESET,
        EMPTIED,
        READ,
        AGAIN,
    ],
);

#[test]
fn a_command_by_pio_moves_block_by_block(rt: HostRuntime) -> Result<(), Fail> {
    play_small(&rt, rt.alloc(), &[STORY])
}
