//! Power-on of a controller that a driver uses, at different moments.

use crate::tests::player::Row::{
    Answered, Does, Fails, Fetches, Fills, HasAll, Interrupt, Issues, Queues, Reads, Sector, Takes,
};
use crate::tests::player::{Player, Row, equal};
use crate::tests::registers::{
    GHC, IS, PX_CI, PX_CLB, PX_CMD, PX_FB, PX_IE, PX_IS, PX_SACT, PX_SERR, PX_SIG, PX_SSTS, PX_TFD,
};
use crate::tests::settings::{
    DATA, MEMORY, NO_PIECES, NONE, ONE, OTHER, READ, READ_DMA, SECTOR, START, TABLE, WRITE,
};
use std::test::Fail;

const STANDBY_IMMEDIATE: [u32; 4] = [0x2780_E000, 0, 0, 0];

/// It answers 00h in Standby, and FFh in Active.
const CHECK_POWER_MODE: [u32; 4] = [0x2780_E500, 0, 0, 0];

/// A write that the disk has taken.
const TAKEN: &[Row] = &[
    Fills(DATA, 512, 0xAA),
    Queues(1, ONE, OTHER, WRITE, SECTOR),
    Takes(1),
];

/// A read that has failed, and whose log is not read.
const FAILED: &[Row] = &[
    Queues(1, ONE, OTHER, READ, SECTOR),
    Takes(1),
    Fails(1, 0x40, 3),
    Reads(PX_TFD, 0x4041),
];

/// A write that was read from memory and not sent.
const FETCHED: &[Row] = &[Queues(1, ONE, OTHER, WRITE, SECTOR), Fetches(1)];

/// A write that is done, and a disk in Standby.
const DONE: &[Row] = &[
    Queues(1, ONE, OTHER, WRITE, SECTOR),
    Does(1),
    Issues(0, NONE, TABLE, STANDBY_IMMEDIATE, NO_PIECES),
    Does(0),
    Issues(0, NONE, TABLE, CHECK_POWER_MODE, NO_PIECES),
    Does(0),
    Answered(0x40, 0, 0, 0),
];

/// The registers of a new controller (docs/LAYOUTS.md).
const NEW: &[Row] = &[
    Reads(GHC, 0x8000_0000),
    Reads(IS, 0),
    Reads(PX_CLB, 0),
    Reads(PX_FB, 0),
    Reads(PX_IS, 0x0040_0040),
    Reads(PX_IE, 0),
    Reads(PX_CMD, 0x6),
    Reads(PX_TFD, 0x80),
    Reads(PX_SIG, 0xFFFF_FFFF),
    Reads(PX_SSTS, 0x123),
    Reads(PX_SERR, 0x0405_0000),
    Reads(PX_SACT, 0),
    Reads(PX_CI, 0),
    Interrupt(false),
];

/// The disk is Active, and has what was written.
const GOES_ON: &[Row] = &[
    Issues(0, NONE, TABLE, CHECK_POWER_MODE, NO_PIECES),
    Does(0),
    Answered(0x40, 0, 0, 0xFF),
    Issues(0, ONE, TABLE, READ_DMA, SECTOR),
    Does(0),
    HasAll(DATA, 512, 0xAA),
];

/// What happens after the start, how many entries the journal has that power-on hands out, the numbers of the journal's first entry and of
/// the next one then, and the bytes of the sector at LBA 3.
type Part = (&'static [Row], Option<u64>, (u64, u64), u8);

static LIVES: [Part; 5] = [
    (&[], None, (0, 0), 0),
    (TAKEN, Some(2), (2, 2), 0),
    (FAILED, Some(3), (5, 5), 0),
    (FETCHED, None, (5, 5), 0),
    (DONE, None, (5, 9), 0xAA),
];

#[test]
fn power_on_drops_commands_and_leaves_a_new_controller_over_the_disk(
    rt: HostRuntime,
) -> Result<(), Fail> {
    let name = "power-on";
    let mut player = Player::new(rt.alloc(), 8, 32, MEMORY)?;
    for (part, (rows, answer, numbers, byte)) in LIVES.iter().enumerate() {
        player.play(&rt, name, part, START);
        player.play(&rt, name, part, rows);
        equal(&rt, (name, part, 99), &player.power_on(), answer);
        equal(&rt, (name, part, 99), &player.numbers(), numbers);
        player.play(&rt, name, part, NEW);
        player.play(&rt, name, part, &[Sector(3, *byte)]);
    }
    player.play(&rt, name, LIVES.len(), START);
    player.play(&rt, name, LIVES.len(), GOES_ON);
    Ok(())
}
