//! Stories of what ends a command in a fatal error (AHCI 1.3.1, section 6.1).

use crate::tests::player::Pieces::These;
use crate::tests::player::Row;
use crate::tests::player::Row::{
    Does, Fills, Has, HasAll, Issues, Lays, Queues, Reads, ReadsBits, Sector, Writes,
};
use crate::tests::registers::{PX_CI, PX_IS, PX_SACT, PX_TFD};
use crate::tests::settings::{
    COMRESET, DATA, LIST, ONE, OTHER, READ, READ_DMA, RESTART, SECTOR, START, SmallStory, TABLE,
    WRITE, play_small,
};
use std::test::Fail;

/// A queued command that comes to nothing: its bits stay, and no byte moves.
const COMES_TO_NOTHING: &[Row] = &[
    Fills(DATA, 512, 0xAA),
    Writes(PX_SACT, 2),
    Writes(PX_CI, 2),
    Does(1),
    Reads(PX_SACT, 2),
    Reads(PX_CI, 2),
    Sector(3, 0),
    HasAll(DATA, 512, 0xAA),
    Does(1),
    Reads(PX_SACT, 2),
];

/// A write whose list is too short: the port is stuck, with no bit of PxIS.
const NO_ENTRIES: &[Row] = &[Lays(1, 5, OTHER, WRITE, SECTOR)];

const STUCK: &[Row] = &[Reads(PX_IS, 0), ReadsBits(PX_TFD, 0x80, 0x80)];

const WRONG_LENGTH: &[Row] = &[Lays(1, 0x0001_0004, OTHER, READ, SECTOR)];

const PACKET: &[Row] = &[Lays(1, 0x0001_0025, OTHER, READ, SECTOR)];

const NO_COMMAND: &[Row] = &[Lays(
    1,
    ONE,
    OTHER,
    [0x3480_6001, 0x0300_0040, 0, 0x0800_0000],
    SECTOR,
)];

const INTERFACE: &[Row] = &[Reads(PX_IS, 0x0800_0000)];

const NO_TABLE: &[Row] = &[Lays(1, ONE, 0x1_0000_2100, READ, SECTOR)];

const NO_DATA: &[Row] = &[Lays(1, ONE, OTHER, WRITE, These(&[(0x1_0000, 512)]))];

const HOST_BUS_FATAL: &[Row] = &[Reads(PX_IS, 0x2000_0000)];

/// The first piece of a read is written, and the other one is no memory.
const NO_PLACE: &[Row] = &[
    Fills(DATA, 512, 0xAA),
    Queues(
        1,
        0x0002_0005,
        OTHER,
        READ,
        These(&[(DATA, 256), (0x1_0000, 256)]),
    ),
    Does(1),
    Reads(PX_SACT, 2),
    Reads(PX_IS, 0x2000_0000),
    HasAll(DATA + 256, 256, 0xAA),
];

/// A command that is done.
pub const GOES_ON: &[Row] = &[
    Reads(PX_SACT, 0),
    Reads(PX_CI, 0),
    Fills(DATA, 512, 0xAA),
    Issues(0, ONE, TABLE, READ_DMA, SECTOR),
    Does(0),
    ReadsBits(PX_IS, 0x7F00_0001, 1),
    HasAll(DATA, 512, 0),
    Has(LIST + 4, &[0, 2, 0, 0]),
];

/// Commands that end in a fatal error, one after the other.
static FATAL: SmallStory = (
    "fatal errors",
    &[
        START,
        NO_ENTRIES,
        COMES_TO_NOTHING,
        STUCK,
        COMRESET,
        GOES_ON,
        RESTART,
        WRONG_LENGTH,
        COMES_TO_NOTHING,
        INTERFACE,
        RESTART,
        PACKET,
        COMES_TO_NOTHING,
        INTERFACE,
        RESTART,
        NO_COMMAND,
        COMES_TO_NOTHING,
        INTERFACE,
        RESTART,
        GOES_ON,
        RESTART,
        NO_TABLE,
        COMES_TO_NOTHING,
        HOST_BUS_FATAL,
        RESTART,
        NO_DATA,
        COMES_TO_NOTHING,
        HOST_BUS_FATAL,
        RESTART,
        GOES_ON,
        RESTART,
        NO_PLACE,
        RESTART,
        GOES_ON,
    ],
);

#[test]
fn a_fatal_error_halts_the_port(rt: HostRuntime) -> Result<(), Fail> {
    play_small(&rt, rt.alloc(), &[FATAL])
}
