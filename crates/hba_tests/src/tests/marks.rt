//! Sectors that WRITE UNCORRECTABLE EXT marks: a read fails at one until it is written (ACS-3, "WRITE UNCORRECTABLE EXT").

use crate::tests::player::Pieces::These;
use crate::tests::player::Row::{
    Answered, Does, Fills, Has, HasAll, Issues, Last, Queues, Reads, Sector, Writes,
};
use crate::tests::player::{Pieces, Player, Row, Story, equal, plays};
use crate::tests::registers::{GHC, PX_SACT, PX_TFD};
use crate::tests::settings::{
    DATA, LIST, MEMORY, NO_PIECES, NONE, ONE, OTHER, READ, READ_DMA, READ_LOG, RECEIVED, RESTART,
    SECTOR, START, SmallStory, TABLE, WRITE, play_small,
};
use ahci_port::EventKind;
use std::test::Fail;

/// WRITE UNCORRECTABLE EXT of the sector at LBA 3, with and without logging.
const PSEUDO: [u32; 4] = [0x2780_4555, 0x0300_0040, 0, 0x0100_0000];

const FLAGGED: [u32; 4] = [0x2780_45AA, 0x0300_0040, 0, 0x0100_0000];

const MARKED: &[Row] = &[
    Fills(DATA, 512, 0xAA),
    Queues(1, ONE, OTHER, WRITE, SECTOR),
    Does(1),
    Issues(0, NONE, TABLE, PSEUDO, NO_PIECES),
    Does(0),
    Answered(0x40, 0, 0, 0),
    Sector(3, 0xAA),
];

const FOUR: Pieces = These(&[(DATA, 2048)]);

/// READ DMA EXT of the sectors at LBA 1 to 4: those before LBA 3 move.
const READ_AROUND: &[Row] = &[
    Fills(DATA, 2048, 0x55),
    Issues(
        0,
        ONE,
        TABLE,
        [0x2780_2500, 0x0100_0040, 0, 0x0400_0000],
        FOUR,
    ),
    Does(0),
    Answered(0x41, 0x40, 3, 0),
    Reads(PX_TFD, 0x4041),
    Has(LIST + 4, &[0, 4, 0, 0]),
    HasAll(DATA, 1024, 0),
    HasAll(DATA + 1024, 1024, 0x55),
];

const READ_QUEUED: &[Row] = &[
    Queues(1, ONE, OTHER, READ, SECTOR),
    Does(1),
    Reads(PX_TFD, 0x4041),
    Reads(PX_SACT, 2),
    Has(RECEIVED + 0x58, &[0xA1, 0x40, 0x41, 0x40, 0, 0, 0, 0]),
    Last(EventKind::Fail {
        tag: 1,
        error: 0x40,
        lba: 3,
    }),
];

const LOGGED: &[Row] = &[
    Issues(0, ONE, TABLE, READ_LOG, SECTOR),
    Does(0),
    Has(DATA, &[1, 0, 0x41, 0x40, 3]),
];

/// READ SECTOR(S), by PIO.
const READ_PIO: &[Row] = &[
    Issues(
        0,
        ONE,
        TABLE,
        [0x2780_2000, 0x0300_0040, 0, 0x0100_0000],
        SECTOR,
    ),
    Does(0),
    Answered(0x41, 0x40, 3, 0),
];

const RESET: &[Row] = &[Writes(GHC, 0x8000_0001)];

/// READ VERIFY SECTOR(S) still fails there.
const VERIFIED: &[Row] = &[
    Issues(
        0,
        NONE,
        TABLE,
        [0x2780_4000, 0x0200_0040, 0, 0x0600_0000],
        NO_PIECES,
    ),
    Does(0),
    Answered(0x41, 0x40, 3, 0),
];

/// A write that is not queued, and a read of what it has written.
const WRITTEN: &[Row] = &[
    Fills(DATA, 512, 0xBB),
    Issues(
        0,
        ONE,
        TABLE,
        [0x2780_CA00, 0x0300_0040, 0, 0x0100_0000],
        SECTOR,
    ),
    Does(0),
    Answered(0x40, 0, 0, 0),
    Fills(DATA, 512, 0),
    Issues(0, ONE, TABLE, READ_DMA, SECTOR),
    Does(0),
    HasAll(DATA, 512, 0xBB),
];

/// The same of a queued write and a queued read.
const QUEUED: &[Row] = &[
    Issues(0, NONE, TABLE, FLAGGED, NO_PIECES),
    Does(0),
    Answered(0x40, 0, 0, 0),
    Fills(DATA, 512, 0xCC),
    Queues(1, ONE, OTHER, WRITE, SECTOR),
    Does(1),
    Fills(DATA, 512, 0),
    Queues(1, ONE, OTHER, READ, SECTOR),
    Does(1),
    HasAll(DATA, 512, 0xCC),
    Reads(PX_SACT, 0),
];

static MARKS: SmallStory = (
    "a sector is marked uncorrectable",
    &[
        START,
        MARKED,
        READ_AROUND,
        RESTART,
        READ_QUEUED,
        RESTART,
        LOGGED,
        READ_PIO,
        RESTART,
        RESET,
        START,
        VERIFIED,
        RESTART,
        WRITTEN,
        QUEUED,
    ],
);

#[test]
fn a_read_fails_at_a_marked_sector_until_it_is_written(rt: HostRuntime) -> Result<(), Fail> {
    play_small(&rt, rt.alloc(), &[MARKS])
}

#[test]
fn a_marked_sector_stays_marked_over_power_on(rt: HostRuntime) -> Result<(), Fail> {
    let name = "a marked sector and power-on";
    let mut player = Player::new(rt.alloc(), 8, 32, MEMORY)?;
    player.play(&rt, name, 0, START);
    player.play(&rt, name, 1, MARKED);
    equal(&rt, (name, 1, 99), &player.power_on(), &None);
    player.play(&rt, name, 2, START);
    player.play(&rt, name, 3, VERIFIED);
    Ok(())
}

/// WRITE UNCORRECTABLE EXT of 64 sectors, of some of the 64 again, and of one more.
const MARKS_64: [u32; 4] = [0x2780_4555, 0x0000_0040, 0, 0x4000_0000];

const MARKS_SOME_AGAIN: [u32; 4] = [0x2780_4555, 0x0800_0040, 0, 0x1000_0000];

const MARKS_ONE_MORE: [u32; 4] = [0x2780_4555, 0x4000_0040, 0, 0x0100_0000];

const ROOM: &[Row] = &[
    Issues(0, NONE, TABLE, MARKS_64, NO_PIECES),
    Does(0),
    Answered(0x40, 0, 0, 0),
    Issues(0, NONE, TABLE, MARKS_SOME_AGAIN, NO_PIECES),
    Does(0),
    Answered(0x40, 0, 0, 0),
    Issues(0, NONE, TABLE, MARKS_ONE_MORE, NO_PIECES),
    Does(0),
    Answered(0x41, 4, 0, 0),
];

/// Once one of them is written there is room for another one.
const AGAIN: &[Row] = &[
    Queues(1, ONE, OTHER, WRITE, SECTOR),
    Does(1),
    Issues(0, NONE, TABLE, MARKS_ONE_MORE, NO_PIECES),
    Does(0),
    Answered(0x40, 0, 0, 0),
];

static FULL: Story = Story {
    name: "64 sectors are marked",
    sectors: 100,
    depth: 32,
    memory: MEMORY,
    parts: &[START, ROOM, RESTART, AGAIN],
};

#[test]
fn there_is_room_for_64_marks(rt: HostRuntime) -> Result<(), Fail> {
    plays(&rt, rt.alloc(), &FULL)
}
