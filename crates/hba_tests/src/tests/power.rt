//! Stories of the power modes (ACS-3, "Power Management feature set", and the commands by their titles).

use crate::tests::player::Row::{
    Does, Fills, HasAll, Issues, Lays, Queues, Reads, ReadsBits, Writes,
};
use crate::tests::player::{Player, Row};
use crate::tests::registers::{PX_CI, PX_CMD, PX_IS, PX_SACT, PX_TFD};
use crate::tests::resets::{HBA_RESET, SOFTWARE_RESET};
use crate::tests::settings::{
    COMRESET, DATA, IDENTIFY, MEMORY, NO_PIECES, NONE, ONE, OTHER, READ, RECEIVED, RESTART, SECTOR,
    START, SmallStory, TABLE, play_small,
};
use std::process::Abort;
use std::test::Fail;

const STANDBY: [u32; 4] = [0x2780_E200, 0, 0, 0];

const CHECK_POWER_MODE: [u32; 4] = [0x2780_E500, 0, 0, 0];

/// Commands by their titles, each one's slot, and the count of CHECK POWER MODE behind it: 00h in Standby, FFh in Active and Idle.
static MODES: [(&str, [u32; 4], u8, u8); 32] = [
    ("IDLE IMMEDIATE", [0x2780_E100, 0, 0, 0], 0, 0xFF),
    ("STANDBY IMMEDIATE", [0x2780_E000, 0, 0, 0], 0, 0x00),
    ("IDLE IMMEDIATE", [0x2780_E100, 0, 0, 0], 0, 0xFF),
    ("STANDBY", STANDBY, 0, 0x00),
    ("IDLE", [0x2780_E300, 0, 0, 0], 0, 0xFF),
    (
        "STANDBY with a timer",
        [0x2780_E200, 0, 0, 0x7800_0000],
        0,
        0x00,
    ),
    ("CHECK POWER MODE", CHECK_POWER_MODE, 0, 0x00),
    ("IDENTIFY DEVICE", IDENTIFY, 0, 0x00),
    (
        "READ LOG EXT",
        [0x2780_2F00, 0x3000_0000, 0, 0x0100_0000],
        0,
        0x00,
    ),
    (
        "SET FEATURES 03h",
        [0x2780_EF03, 0xA0, 0, 0x4500_0008],
        0,
        0x00,
    ),
    (
        "READ NATIVE MAX ADDRESS",
        [0x2780_F800, 0x40, 0, 0],
        0,
        0x00,
    ),
    ("NOP", [0x2780_0000, 0, 0, 0], 0, 0x00),
    (
        "READ VERIFY SECTOR(S)",
        [0x2780_4000, 0x0600_0040, 0, 0x0200_0000],
        0,
        0xFF,
    ),
    ("STANDBY", STANDBY, 0, 0x00),
    ("FLUSH CACHE", [0x2780_E700, 0, 0, 0], 0, 0xFF),
    ("STANDBY", STANDBY, 0, 0x00),
    ("FLUSH CACHE EXT", [0x2780_EA00, 0, 0, 0], 0, 0xFF),
    ("STANDBY", STANDBY, 0, 0x00),
    (
        "READ SECTOR(S)",
        [0x2780_2000, 0x0300_0040, 0, 0x0100_0000],
        0,
        0xFF,
    ),
    ("STANDBY", STANDBY, 0, 0x00),
    (
        "WRITE SECTOR(S)",
        [0x2780_3000, 0x0300_0040, 0, 0x0100_0000],
        0,
        0xFF,
    ),
    ("STANDBY", STANDBY, 0, 0x00),
    (
        "READ DMA EXT",
        [0x2780_2500, 0x0300_0040, 0, 0x0100_0000],
        0,
        0xFF,
    ),
    ("STANDBY", STANDBY, 0, 0x00),
    (
        "WRITE DMA",
        [0x2780_CA00, 0x0300_0040, 0, 0x0100_0000],
        0,
        0xFF,
    ),
    ("STANDBY", STANDBY, 0, 0x00),
    ("READ FPDMA QUEUED", READ, 1, 0xFF),
    ("STANDBY", STANDBY, 0, 0x00),
    (
        "WRITE FPDMA QUEUED",
        [0x2780_6101, 0x0300_0040, 0, 0x0800_0000],
        1,
        0xFF,
    ),
    ("IDLE", [0x2780_E300, 0, 0, 0], 0, 0xFF),
    ("STANDBY", STANDBY, 0, 0x00),
    (
        "READ VERIFY SECTOR(S) EXT",
        [0x2780_4200, 0x0000_0040, 0, 0x0800_0000],
        0,
        0xFF,
    ),
];

/// Plays CHECK POWER MODE, which answers this count.
fn tells(rt: &impl Abort, player: &mut Player, name: &'static str, count: u8) {
    let rows = [
        Issues(0, NONE, OTHER, CHECK_POWER_MODE, NO_PIECES),
        Does(0),
        Row::Answered(0x40, 0, 0, count),
    ];
    player.play(rt, name, 1, &rows);
}

/// Plays a command in its slot, a queued one in slot 1.
fn goes(rt: &impl Abort, player: &mut Player, name: &'static str, fis: [u32; 4], slot: u8) {
    let (bit, queued) = if slot == 1 { (2, 2) } else { (1, 0) };
    let rows = [
        Lays(slot, ONE, TABLE, fis, SECTOR),
        Writes(PX_SACT, queued),
        Writes(PX_CI, bit),
        Does(slot),
    ];
    player.play(rt, name, 0, &rows);
    player.play(rt, name, 2, RESTART);
}

#[test]
fn the_power_mode_is_told_after_each_command(rt: HostRuntime) -> Result<(), Fail> {
    let mut player = Player::new(rt.alloc(), 8, 32, MEMORY)?;
    player.play(&rt, "the port is started", 0, START);
    tells(&rt, &mut player, "power-on", 0xFF);
    for (name, fis, slot, count) in MODES {
        goes(&rt, &mut player, name, fis, slot);
        tells(&rt, &mut player, name, count);
    }
    Ok(())
}

/// SLEEP is answered.
const SLEEPS: &[Row] = &[
    Issues(0, NONE, TABLE, [0x2780_E600, 0, 0, 0], NO_PIECES),
    Does(0),
    Row::Answered(0x40, 0, 0, 0),
    Reads(PX_TFD, 0x40),
    Reads(PX_CI, 0),
    Writes(PX_IS, 0xFFFF_FFFF),
];

/// IDENTIFY DEVICE, which is sent and not answered.
const UNANSWERED: &[Row] = &[
    Fills(RECEIVED, 256, 0xEE),
    Fills(DATA, 512, 0xAA),
    Issues(0, ONE, TABLE, IDENTIFY, SECTOR),
    Does(0),
    Reads(PX_CI, 1),
    ReadsBits(PX_TFD, 0x89, 0x80),
    Reads(PX_IS, 0),
    HasAll(RECEIVED, 256, 0xEE),
    HasAll(DATA, 512, 0xAA),
];

/// A queued read, which is sent and not answered.
const QUEUED_UNANSWERED: &[Row] = &[
    Fills(RECEIVED, 256, 0xEE),
    Fills(DATA, 512, 0xAA),
    Queues(1, ONE, OTHER, READ, SECTOR),
    Does(1),
    Reads(PX_SACT, 2),
    Reads(PX_CI, 2),
    ReadsBits(PX_TFD, 0x89, 0x80),
    Reads(PX_IS, 0),
    HasAll(RECEIVED, 256, 0xEE),
    HasAll(DATA, 512, 0xAA),
];

/// ST and BSY are cleared (AHCI 1.3.1, section 3.3.7, CLO), and ST is set: that resets no device.
const CLEARED: &[Row] = &[
    Writes(PX_CMD, 0x10),
    Writes(PX_CMD, 0x18),
    ReadsBits(PX_TFD, 0x88, 0),
    Writes(PX_CMD, 0x11),
];

const GOES_TO_STANDBY: &[Row] = &[
    Issues(0, NONE, TABLE, STANDBY, NO_PIECES),
    Does(0),
    Row::Answered(0x40, 0, 0, 0),
];

const IS_IN_STANDBY: &[Row] = &[
    Issues(0, NONE, TABLE, CHECK_POWER_MODE, NO_PIECES),
    Does(0),
    Row::Answered(0x40, 0, 0, 0x00),
];

const IS_NOT_IN_STANDBY: &[Row] = &[
    Issues(0, NONE, TABLE, CHECK_POWER_MODE, NO_PIECES),
    Does(0),
    Row::Answered(0x40, 0, 0, 0xFF),
];

/// A queued read that is answered.
const ANSWERED: &[Row] = &[
    Fills(DATA, 512, 0xAA),
    Queues(1, ONE, OTHER, READ, SECTOR),
    Does(1),
    Reads(PX_SACT, 0),
    HasAll(DATA, 512, 0),
];

static STORIES: [SmallStory; 6] = [
    (
        "COMRESET ends Sleep, and ST does not",
        &[
            START,
            SLEEPS,
            UNANSWERED,
            CLEARED,
            UNANSWERED,
            COMRESET,
            IS_IN_STANDBY,
            ANSWERED,
            IS_NOT_IN_STANDBY,
        ],
    ),
    (
        "a software reset ends Sleep",
        &[
            START,
            SLEEPS,
            UNANSWERED,
            CLEARED,
            SOFTWARE_RESET,
            IS_IN_STANDBY,
            ANSWERED,
        ],
    ),
    (
        "a software reset ends Sleep at once",
        &[START, SLEEPS, SOFTWARE_RESET, IS_IN_STANDBY],
    ),
    (
        "a reset of the HBA ends Sleep",
        &[START, SLEEPS, HBA_RESET, START, IS_IN_STANDBY],
    ),
    (
        "a queued command is not answered in Sleep",
        &[
            START,
            GOES_TO_STANDBY,
            SLEEPS,
            QUEUED_UNANSWERED,
            CLEARED,
            QUEUED_UNANSWERED,
            COMRESET,
            IS_IN_STANDBY,
            ANSWERED,
        ],
    ),
    (
        "a reset leaves Active, Idle and Standby",
        &[
            START,
            COMRESET,
            IS_NOT_IN_STANDBY,
            GOES_TO_STANDBY,
            COMRESET,
            IS_IN_STANDBY,
            SOFTWARE_RESET,
            IS_IN_STANDBY,
        ],
    ),
];

#[test]
fn only_a_reset_ends_sleep(rt: HostRuntime) -> Result<(), Fail> {
    play_small(&rt, rt.alloc(), &STORIES)
}
