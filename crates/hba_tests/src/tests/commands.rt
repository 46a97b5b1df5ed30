//! Stories of commands that are not queued (ACS-3, by their titles).

use crate::tests::player::Pieces::These;
use crate::tests::player::Row::{
    Does, Fills, Has, HasAll, Issues, Last, Queues, Reads, ReadsBits, Refuses, Sector, Takes,
    Writes,
};
use crate::tests::player::{Pieces, Player, Row};
use crate::tests::registers::{PX_CI, PX_CMD, PX_IS, PX_SACT, PX_TFD};
use crate::tests::settings::{
    DATA, IDENTIFY, LIST, MEMORY, NO_PIECES, NONE, ONE, OTHER, READ, READ_DMA, READ_LOG, RECEIVED,
    RESTART, SECTOR, START, SmallStory, TABLE, play_small,
};
use ahci_port::{EventKind, Plain};
use std::process::Abort;
use std::test::Fail;

/// What a pair is called, its write and its read, and the bit of PxIS that the read sets.
type Mover = (&'static str, [u32; 4], [u32; 4], u32);

/// Commands that write three sectors from LBA 2 on, and those that read them again.
static MOVERS: [Mover; 5] = [
    (
        "WRITE SECTOR(S) and READ SECTOR(S)",
        [0x2780_3000, 0x0200_0040, 0, 0x0300_0000],
        [0x2780_2000, 0x0200_0040, 0, 0x0300_0000],
        2,
    ),
    (
        "WRITE SECTOR(S) EXT and READ SECTOR(S) EXT",
        [0x2780_3400, 0x0200_0040, 0, 0x0300_0000],
        [0x2780_2400, 0x0200_0040, 0, 0x0300_0000],
        2,
    ),
    (
        "WRITE DMA and READ DMA",
        [0x2780_CA00, 0x0200_0040, 0, 0x0300_0000],
        [0x2780_C800, 0x0200_0040, 0, 0x0300_0000],
        1,
    ),
    (
        "WRITE DMA EXT and READ DMA EXT",
        [0x2780_3500, 0x0200_0040, 0, 0x0300_0000],
        [0x2780_2500, 0x0200_0040, 0, 0x0300_0000],
        1,
    ),
    (
        "WRITE FPDMA QUEUED and READ DMA EXT",
        [0x2780_6103, 0x0200_0040, 0, 0],
        [0x2780_2500, 0x0200_0040, 0, 0x0300_0000],
        1,
    ),
];

/// The sectors in memory, in pieces that end within sectors.
const SECTORS: Pieces = These(&[(DATA, 700), (DATA + 0x400, 2), (DATA + 0x800, 834)]);

/// Plays one of them, with a byte of its own.
fn moves(rt: &impl Abort, player: &mut Player, byte: u8, mover: Mover) {
    let (name, write, read, interrupt) = mover;
    let rows = [
        Fills(DATA, 700, byte),
        Fills(DATA + 0x400, 2, byte),
        Fills(DATA + 0x800, 834, byte),
        Issues(0, 0x0003_0045, TABLE, write, SECTORS),
        Does(0),
        Reads(PX_TFD, 0x40),
        Writes(PX_IS, 0xFFFF_FFFF),
        Sector(1, 0),
        Sector(2, byte),
        Sector(4, byte),
        Sector(5, 0),
        Fills(DATA, 0x1000, 0),
        Issues(0, 0x0003_0005, TABLE, read, SECTORS),
        Does(0),
        Reads(PX_IS, interrupt),
        Reads(PX_CI, 0),
        Has(LIST + 4, &[0, 6, 0, 0]),
        HasAll(DATA, 700, byte),
        HasAll(DATA + 700, 0x400 - 700, 0),
        HasAll(DATA + 0x400, 2, byte),
        HasAll(DATA + 0x402, 0x3FE, 0),
        HasAll(DATA + 0x800, 834, byte),
        HasAll(DATA + 0x800 + 834, 64, 0),
        Writes(PX_IS, 0xFFFF_FFFF),
    ];
    player.play(rt, name, usize::from(byte), &rows);
}

#[test]
fn each_read_sees_each_write(rt: HostRuntime) -> Result<(), Fail> {
    let mut player = Player::new(rt.alloc(), 8, 32, MEMORY)?;
    player.play(&rt, "the port is started", 0, START);
    for (mover, byte) in MOVERS.into_iter().zip(0x11u8..0x20) {
        moves(&rt, &mut player, byte, mover);
    }
    Ok(())
}

/// A write that passes the last sector: IDNF names its first one, and nothing moves (ACS-3, "LBA of first unrecoverable error").
const BEYOND: &[Row] = &[
    Fills(DATA, 1024, 0xAA),
    Issues(
        0,
        ONE,
        TABLE,
        [0x2780_CA00, 0x0700_0040, 0, 0x0200_0000],
        These(&[(DATA, 1024)]),
    ),
    Does(0),
    Row::Answered(0x41, 0x10, 7, 0),
    Reads(PX_IS, 0x4000_0001),
    Reads(PX_CI, 1),
    Sector(7, 0),
];

const READ_BEYOND: &[Row] = &[
    Issues(
        0,
        ONE,
        TABLE,
        [0x2780_C800, 0x0900_0040, 0, 0x0100_0000],
        SECTOR,
    ),
    Does(0),
    Row::Answered(0x41, 0x10, 9, 0),
    HasAll(DATA, 1024, 0xAA),
];

/// A read that passes the last sector: those that there are move, and IDNF names the first one that is not there.
const READ_PAST: &[Row] = &[
    Fills(DATA, 2048, 0xAA),
    Issues(
        0,
        ONE,
        TABLE,
        [0x2780_C800, 0x0600_0040, 0, 0x0400_0000],
        These(&[(DATA, 2048)]),
    ),
    Does(0),
    Row::Answered(0x41, 0x10, 8, 0),
    Reads(PX_IS, 0x4000_0001),
    Reads(PX_CI, 1),
    Has(LIST + 4, &[0, 4, 0, 0]),
    HasAll(DATA, 1024, 0),
    HasAll(DATA + 1024, 1024, 0xAA),
];

/// The same by PIO: a block for each sector that there is.
const READ_PAST_BY_PIO: &[Row] = &[
    Fills(DATA, 2048, 0xAA),
    Issues(
        0,
        ONE,
        TABLE,
        [0x2780_2000, 0x0600_0040, 0, 0x0400_0000],
        These(&[(DATA, 2048)]),
    ),
    Does(0),
    Row::Answered(0x41, 0x10, 8, 0),
    Reads(PX_IS, 0x4000_0003),
    Reads(PX_CI, 1),
    Has(LIST + 4, &[0, 4, 0, 0]),
    Has(RECEIVED + 0x2F, &[0xC0]),
    HasAll(DATA, 1024, 0),
    HasAll(DATA + 1024, 1024, 0xAA),
];

/// A queued command beyond the last sector: the refusal is a D2H Register FIS, and PxCI and PxSACT keep its bits.
const QUEUED_BEYOND: &[Row] = &[
    Fills(DATA, 1024, 0xAA),
    Queues(
        1,
        ONE,
        OTHER,
        [0x2780_6001, 0x0800_0040, 0, 0x0800_0000],
        SECTOR,
    ),
    Does(1),
    Reads(PX_TFD, 0x1041),
    ReadsBits(PX_IS, 0x4000_0000, 0x4000_0000),
    Reads(PX_SACT, 2),
    Reads(PX_CI, 2),
    HasAll(DATA, 1024, 0xAA),
];

/// The disk fails a read that is not queued, which it has read alone.
const REFUSED: &[Row] = &[
    Fills(DATA, 512, 0xAA),
    Issues(0, ONE, TABLE, READ_DMA, SECTOR),
    Row::Fetches(0),
    Refuses(0, 0x40, 3),
    Row::Answered(0x41, 0x40, 3, 0),
    Reads(PX_TFD, 0x4041),
    Reads(PX_CI, 1),
    HasAll(DATA, 512, 0xAA),
];

/// It fails after two sectors of three, which have moved; and a write, which has changed none and names its first one.
const REFUSED_LATER: &[Row] = &[
    Fills(DATA, 1536, 0xAA),
    Issues(
        0,
        ONE,
        TABLE,
        [0x2780_C800, 0x0200_0040, 0, 0x0300_0000],
        These(&[(DATA, 1536)]),
    ),
    Row::Fetches(0),
    Refuses(0, 0x40, 4),
    Row::Answered(0x41, 0x40, 4, 0),
    Reads(PX_CI, 1),
    Has(LIST + 4, &[0, 4, 0, 0]),
    HasAll(DATA, 1024, 0),
    HasAll(DATA + 1024, 512, 0xAA),
];

const WRITE_REFUSED: &[Row] = &[
    Issues(
        0,
        ONE,
        TABLE,
        [0x2780_CA00, 0x0200_0040, 0, 0x0300_0000],
        These(&[(DATA, 1536)]),
    ),
    Row::Fetches(0),
    Refuses(0, 0x10, 4),
    Row::Answered(0x41, 0x10, 2, 0),
    Sector(2, 0),
];

/// The disk fails a queued read of three sectors at its last one: a DMA Setup FIS (Serial ATA, "DMA Setup"), two sectors, and a Set Device Bits FIS
/// with ERR. It fails a queued write at its last one: log 10h names the first one.
const QUEUE_FAILED: &[Row] = &[
    Fills(DATA, 1536, 0xAA),
    Fills(RECEIVED, 256, 0xEE),
    Queues(
        1,
        ONE,
        OTHER,
        [0x2780_6003, 0x0200_0040, 0, 0x0800_0000],
        These(&[(DATA, 1536)]),
    ),
    Takes(1),
    Row::Fails(1, 0x40, 4),
    Reads(PX_TFD, 0x4041),
    Reads(PX_IS, 0x4000_0008),
    Reads(PX_SACT, 2),
    Has(RECEIVED, &[0x41, 0x20, 0, 0, 1, 0, 0, 0]),
    Has(RECEIVED + 20, &[0, 6, 0, 0]),
    Has(RECEIVED + 0x58, &[0xA1, 0x40, 0x41, 0x40, 0, 0, 0, 0]),
    HasAll(DATA, 1024, 0),
    HasAll(DATA + 1024, 512, 0xAA),
];

const READ_THE_LOG: &[Row] = &[
    Issues(0, ONE, TABLE, READ_LOG, SECTOR),
    Does(0),
    Has(DATA, &[1, 0, 0x41, 0x40, 4]),
];

const QUEUED_WRITE_FAILED: &[Row] = &[
    Queues(
        1,
        ONE,
        OTHER,
        [0x2780_6103, 0x0200_0040, 0, 0x0800_0000],
        These(&[(DATA, 1536)]),
    ),
    Takes(1),
    Row::Fails(1, 0x10, 4),
    Reads(PX_IS, 0x4000_0008),
    Sector(2, 0),
];

const LOG_OF_THE_WRITE: &[Row] = &[
    Issues(0, ONE, TABLE, READ_LOG, SECTOR),
    Does(0),
    Has(DATA, &[1, 0, 0x41, 0x10, 2]),
];

/// While FRE is 0 no FIS is accepted (AHCI 1.3.1, section 3.3.7, FRE): a command is sent, and answered once FRE is 1.
const NOT_RECEIVED: &[Row] = &[
    Fills(RECEIVED, 256, 0xEE),
    Fills(DATA, 512, 0xEE),
    Writes(PX_CMD, 0x01),
    Issues(0, ONE, TABLE, IDENTIFY, SECTOR),
    Does(0),
    Reads(PX_CI, 1),
    ReadsBits(PX_TFD, 0x89, 0x80),
    Reads(PX_IS, 0),
    HasAll(RECEIVED, 256, 0xEE),
    HasAll(DATA, 512, 0xEE),
    Writes(PX_CMD, 0x11),
    Does(0),
    Reads(PX_CI, 0),
    Reads(PX_IS, 2),
    Has(RECEIVED + 0x20, &[0x5F]),
    Has(DATA + 2 * 60, &[8, 0]),
    Last(EventKind::Plain(Plain::Identify)),
    Issues(0, NONE, TABLE, [0x2780_EA00, 0xA0, 0, 8], NO_PIECES),
    Does(0),
    Reads(PX_CI, 0),
    Last(EventKind::Plain(Plain::Flush)),
    Writes(PX_CMD, 0x01),
    Queues(1, ONE, OTHER, READ, SECTOR),
    Does(1),
    Reads(PX_SACT, 2),
    Reads(PX_CI, 2),
    Writes(PX_CMD, 0x11),
    Does(1),
    Reads(PX_SACT, 0),
    Reads(PX_CI, 0),
    HasAll(DATA, 512, 0),
];

static FAILING: SmallStory = (
    "commands that fail",
    &[
        START,
        NOT_RECEIVED,
        RESTART,
        BEYOND,
        RESTART,
        READ_BEYOND,
        RESTART,
        READ_PAST,
        RESTART,
        READ_PAST_BY_PIO,
        RESTART,
        REFUSED,
        RESTART,
        REFUSED_LATER,
        RESTART,
        WRITE_REFUSED,
        RESTART,
        QUEUE_FAILED,
        RESTART,
        READ_THE_LOG,
        RESTART,
        QUEUED_WRITE_FAILED,
        RESTART,
        LOG_OF_THE_WRITE,
        RESTART,
        QUEUED_BEYOND,
    ],
);

#[test]
fn a_read_that_fails_moves_what_comes_before_and_a_write_nothing(
    rt: HostRuntime,
) -> Result<(), Fail> {
    play_small(&rt, rt.alloc(), &[FAILING])
}
