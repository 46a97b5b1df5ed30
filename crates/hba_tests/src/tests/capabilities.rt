//! What a controller with other capabilities does (AHCI 1.3.1, section 3.1.1).

use crate::tests::player::Row::{Does, Fills, Lays, Reads, Sector, Signs, Writes};
use crate::tests::player::{Player, Row, Story};
use crate::tests::registers::{CAP, GHC, PX_CI, PX_CLB, PX_CLBU, PX_CMD, PX_FB, PX_SACT, PX_SSTS};
use crate::tests::settings::{DATA, LIST, MEMORY, SECTOR, START, TABLE, WRITE};
use ahci_hba::Capabilities;
use std::test::Fail;

/// Dword 0 of a header with CFL 5, W and an entry.
const WRITES: u32 = 0x0001_0045;

/// CTBAU and DBAU of the command of slot 1 have bits, which are taken as 0, as PxCLBU is.
const NEAR: &[Row] = &[
    Reads(CAP, 0x4124_9F00),
    Writes(PX_CLBU, 1),
    Reads(PX_CLBU, 0),
    Fills(DATA, 512, 0x77),
    Lays(1, WRITES, TABLE, WRITE, SECTOR),
    Fills(LIST + 44, 1, 0x05),
    Fills(TABLE + 0x84, 1, 0x07),
    Writes(PX_SACT, 2),
    Writes(PX_CI, 2),
    Does(1),
    Reads(PX_SACT, 0),
    Sector(3, 0x77),
];

/// The device is not there until SUD is 1; then it goes on as any other. The driver may use a slot of the eight, and no other.
const WAITED: &[Row] = &[
    Reads(CAP, 0xC924_8700),
    Writes(GHC, 0x8000_0000),
    Writes(PX_CLB, 0x1000),
    Writes(PX_FB, 0x400),
    Writes(PX_CMD, 0x10),
    Signs,
    Reads(PX_SSTS, 0),
    Writes(PX_CMD, 0x12),
    Signs,
    Reads(PX_SSTS, 0x123),
    Writes(PX_CMD, 0x13),
    Fills(DATA, 512, 0x66),
    Lays(1, WRITES, TABLE, WRITE, SECTOR),
    Writes(PX_SACT, 0x102),
    Writes(PX_CI, 0x102),
    Reads(PX_CI, 2),
    Does(1),
    Reads(PX_SACT, 0),
    Sector(3, 0x66),
];

static STORIES: [Story; 2] = [
    Story {
        name: "32-bit addresses",
        sectors: 8,
        depth: 32,
        memory: MEMORY,
        parts: &[START, NEAR],
    },
    Story {
        name: "staggered spin-up, 8 slots",
        sectors: 8,
        depth: 32,
        memory: MEMORY,
        parts: &[WAITED],
    },
];

#[test]
fn a_driver_finds_what_cap_says(rt: HostRuntime) -> Result<(), Fail> {
    let usual = Capabilities::new();
    let near = Capabilities {
        s64a: false,
        ..usual
    };
    let waits = Capabilities {
        sss: true,
        ..usual.with_ncs(8).unwrap_or(usual)
    };
    for (story, capabilities) in STORIES.iter().zip([near, waits]) {
        let mut player = Player::with_capabilities(rt.alloc(), story, capabilities)?;
        for (part, rows) in story.parts.iter().enumerate() {
            player.play(&rt, story.name, part, rows);
        }
    }
    Ok(())
}
