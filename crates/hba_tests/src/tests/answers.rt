//! Commands that move no data, and how each is answered (ACS-3, by their titles).

use crate::tests::player::Row::{Does, Has, Issues, Reads, Refuses};
use crate::tests::player::{Player, Row};
use crate::tests::registers::{PX_CI, PX_IS, PX_TFD};
use crate::tests::settings::{
    MEMORY, NO_PIECES, NONE, ONE, RECEIVED, RESTART, SECTOR, START, SmallStory, TABLE, play_small,
};
use std::process::Abort;
use std::test::Fail;

/// A command, the status and the error that it ends with, the LBA and the count of its D2H Register FIS.
type Answered = ([u32; 4], u8, u8, u8, u8);

/// Commands to a disk of 8 sectors, by their titles. None of them moves data.
static ANSWERS: [(&str, Answered); 60] = [
    ("FLUSH CACHE", ([0x2780_E700, 0, 0, 0], 0x40, 0, 0, 0)),
    (
        "FLUSH CACHE EXT",
        ([0x2780_EA00, 0xA0, 0, 8], 0x40, 0, 0, 0),
    ),
    (
        "STANDBY IMMEDIATE",
        ([0x2780_E000, 0xA0, 0, 8], 0x40, 0, 0, 0),
    ),
    ("IDLE IMMEDIATE", ([0x2780_E100, 0xA0, 0, 8], 0x40, 0, 0, 0)),
    ("STANDBY", ([0x2780_E200, 0, 0, 0], 0x40, 0, 0, 0)),
    ("IDLE", ([0x2780_E300, 0, 0, 0], 0x40, 0, 0, 0)),
    (
        "CHECK POWER MODE",
        ([0x2780_E500, 0, 0, 0], 0x40, 0, 0, 0xFF),
    ),
    (
        "EXECUTE DEVICE DIAGNOSTIC",
        ([0x2780_9000, 0, 0, 0], 0x40, 1, 1, 1),
    ),
    (
        "READ NATIVE MAX ADDRESS",
        ([0x2780_F800, 0x40, 0, 0], 0x40, 0, 7, 0),
    ),
    (
        "READ NATIVE MAX ADDRESS EXT",
        ([0x2780_2700, 0x40, 0, 0], 0x40, 0, 7, 0),
    ),
    (
        "READ VERIFY SECTOR(S)",
        ([0x2780_4000, 0x0600_0040, 0, 0x0200_0000], 0x40, 0, 0, 0),
    ),
    (
        "READ VERIFY SECTOR(S) past the end",
        ([0x2780_4000, 0x0600_0040, 0, 0x0300_0000], 0x41, 0x10, 8, 0),
    ),
    (
        "READ VERIFY SECTOR(S) of 256 sectors",
        ([0x2780_4000, 0x0000_0040, 0, 0], 0x41, 0x10, 8, 0),
    ),
    (
        "READ VERIFY SECTOR(S) EXT",
        ([0x2780_4200, 0x0000_0040, 0, 0x0800_0000], 0x40, 0, 0, 0),
    ),
    (
        "READ VERIFY SECTOR(S) EXT beyond the end",
        ([0x2780_4200, 0x0900_0040, 0, 0x0100_0000], 0x41, 0x10, 9, 0),
    ),
    (
        "SET FEATURES 03h",
        ([0x2780_EF03, 0xA0, 0, 0x4500_0008], 0x40, 0, 0, 0),
    ),
    (
        "SET FEATURES 03h, multiword DMA mode 2",
        ([0x2780_EF03, 0xA0, 0, 0x2200_0000], 0x40, 0, 0, 0),
    ),
    (
        "SET FEATURES 03h, Ultra DMA mode 6",
        ([0x2780_EF03, 0xA0, 0, 0x4600_0000], 0x41, 4, 0, 0),
    ),
    (
        "SET FEATURES 02h",
        ([0x2780_EF02, 0xA0, 0, 8], 0x41, 4, 0, 0),
    ),
    (
        "IDENTIFY PACKET DEVICE",
        ([0x2780_A100, 0, 0, 0], 0x41, 4, 1, 1),
    ),
    (
        "SET MULTIPLE MODE of 16 sectors",
        ([0x2780_C600, 0xA0, 0, 0x1000_0000], 0x40, 0, 0, 0),
    ),
    (
        "SET MULTIPLE MODE of three sectors",
        ([0x2780_C600, 0xA0, 0, 0x0300_0000], 0x41, 4, 0, 0),
    ),
    (
        "SET MULTIPLE MODE of 32 sectors",
        ([0x2780_C600, 0xA0, 0, 0x2000_0000], 0x41, 4, 0, 0),
    ),
    (
        "SECURITY FREEZE LOCK",
        ([0x2780_F500, 0xA0, 0, 0], 0x41, 4, 0, 0),
    ),
    (
        "SET MAX ADDRESS",
        ([0x2780_F900, 0x0600_0040, 0, 0], 0x41, 4, 0, 0),
    ),
    (
        "SET MAX ADDRESS EXT",
        ([0x2780_3700, 0x0600_0040, 0, 0], 0x41, 4, 0, 0),
    ),
    (
        "WRITE UNCORRECTABLE EXT with features that are reserved",
        ([0x2780_4554, 0x0600_0040, 0, 0x0100_0000], 0x41, 4, 0, 0),
    ),
    (
        "WRITE UNCORRECTABLE EXT past the end",
        ([0x2780_4555, 0x0600_0040, 0, 0x0300_0000], 0x41, 0x10, 8, 0),
    ),
    (
        "WRITE UNCORRECTABLE EXT of 65,536 sectors",
        ([0x2780_4555, 0x0000_0040, 0, 0], 0x41, 0x10, 8, 0),
    ),
    (
        "WRITE UNCORRECTABLE EXT",
        ([0x2780_45AA, 0x0600_0040, 0, 0x0100_0000], 0x40, 0, 0, 0),
    ),
    (
        "READ VERIFY SECTOR(S) of a sector that is marked uncorrectable",
        ([0x2780_4000, 0x0400_0040, 0, 0x0400_0000], 0x41, 0x40, 6, 0),
    ),
    ("NOP", ([0x2780_0000, 0, 0, 0], 0x41, 4, 0, 0)),
    (
        "SMART READ DATA without its signature",
        ([0x2780_B0D0, 0x004F_C300, 0, 0], 0x41, 4, 0, 0),
    ),
    (
        "SMART DISABLE OPERATIONS",
        ([0x2780_B0D9, 0x004F_C200, 0, 0], 0x40, 0, 0, 0),
    ),
    (
        "SMART RETURN STATUS while SMART is disabled",
        ([0x2780_B0DA, 0x004F_C200, 0, 0], 0x41, 4, 0, 0),
    ),
    (
        "SMART ENABLE OPERATIONS",
        ([0x2780_B0D8, 0x004F_C200, 0, 0], 0x40, 0, 0, 0),
    ),
    (
        "SMART EXECUTE OFF-LINE IMMEDIATE, short self-test",
        ([0x2780_B0D4, 0x014F_C200, 0, 0], 0x40, 0, 0, 0),
    ),
    (
        "SET FEATURES 55h",
        ([0x2780_EF55, 0xA0, 0, 0], 0x40, 0, 0, 0),
    ),
    (
        "READ LOG EXT of log 13h",
        ([0x2780_2F00, 0x1300_0000, 0, 0x0100_0000], 0x41, 4, 0, 0),
    ),
    (
        "READ LOG EXT of two pages",
        ([0x2780_2F00, 0x1000_0000, 0, 0x0200_0000], 0x41, 4, 0, 0),
    ),
    (
        "READ LOG EXT of no page",
        ([0x2780_2F00, 0x3000_0000, 0, 0], 0x41, 4, 0, 0),
    ),
    (
        "READ LOG EXT of page 01h of log 00h",
        ([0x2780_2F00, 0x0001_0000, 0, 0x0100_0000], 0x41, 4, 0, 0),
    ),
    (
        "READ LOG EXT of page 07h of log 30h",
        ([0x2780_2F00, 0x3007_0000, 0, 0x0100_0000], 0x41, 4, 0, 0),
    ),
    (
        "READ LOG EXT of page 10h of log 80h",
        ([0x2780_2F00, 0x8010_0000, 0, 0x0100_0000], 0x41, 4, 0, 0),
    ),
    (
        "WRITE LOG EXT of log 10h",
        ([0x2780_3F00, 0x1000_0000, 0, 0x0100_0000], 0x41, 4, 0, 0),
    ),
    (
        "WRITE LOG EXT of log 7Fh",
        ([0x2780_3F00, 0x7F00_0000, 0, 0x0100_0000], 0x41, 4, 0, 0),
    ),
    (
        "WRITE LOG EXT of no page",
        ([0x2780_3F00, 0x8000_0000, 0, 0], 0x41, 4, 0, 0),
    ),
    (
        "WRITE LOG EXT of pages 0Fh and 10h",
        ([0x2780_3F00, 0x800F_0000, 0, 0x0200_0000], 0x41, 4, 0, 0),
    ),
    (
        "WRITE LOG EXT of page 100h",
        (
            [0x2780_3F00, 0x8000_0000, 0x0001_0000, 0x0100_0000],
            0x41,
            4,
            0,
            0,
        ),
    ),
    (
        "WRITE LOG EXT of 256 pages",
        ([0x2780_3F00, 0x8000_0000, 0, 0x0001_0000], 0x41, 4, 0, 0),
    ),
    (
        "WRITE LOG DMA EXT of log A0h",
        ([0x2780_5700, 0xA000_0000, 0, 0x0100_0000], 0x41, 4, 0, 0),
    ),
    (
        "SMART WRITE LOG of log 06h",
        ([0x2780_B0D6, 0x064F_C200, 0, 0x0100_0000], 0x41, 4, 0, 0),
    ),
    (
        "SMART WRITE LOG of 17 pages",
        ([0x2780_B0D6, 0x804F_C200, 0, 0x1100_0000], 0x41, 4, 0, 0),
    ),
    (
        "SMART WRITE LOG without its signature",
        ([0x2780_B0D6, 0x804F_C300, 0, 0x0100_0000], 0x41, 4, 0, 0),
    ),
    (
        "SMART READ LOG of no page of log 80h",
        ([0x2780_B0D5, 0x804F_C200, 0, 0], 0x41, 4, 0, 0),
    ),
    (
        "READ LOG EXT of page 0100h of log 30h",
        (
            [0x2780_2F00, 0x3000_0000, 0x0001_0000, 0x0100_0000],
            0x41,
            4,
            0,
            0,
        ),
    ),
    (
        "READ LOG EXT of eight pages of log 30h",
        ([0x2780_2F00, 0x3000_0000, 0, 0x0800_0000], 0x41, 4, 0, 0),
    ),
    (
        "READ LOG DMA EXT beyond log 30h",
        ([0x2780_4700, 0x3006_0000, 0, 0x0200_0000], 0x41, 4, 0, 0),
    ),
    (
        "DATA SET MANAGEMENT without TRIM",
        ([0x2780_0600, 0x40, 0, 0x0100_0000], 0x41, 4, 0, 0),
    ),
    ("DEVICE RESET", ([0x2780_0800, 0, 0, 0], 0x41, 4, 0, 0)),
];

/// Plays one of them: the D2H Register FIS with I, PxTFD, PxIS and PxCI. A port that has failed it goes on once ST is cleared and set.
fn answers(rt: &impl Abort, player: &mut Player, name: &'static str, answered: &Answered) {
    let (fis, status, error, lba, count) = *answered;
    let failed = status % 2;
    let rows = [
        Issues(0, NONE, TABLE, fis, NO_PIECES),
        Does(0),
        Row::Answered(status, error, lba, count),
        Reads(PX_TFD, u32::from_le_bytes([status, error, 0, 0])),
        Reads(PX_IS, u32::from_le_bytes([1, 0, 0, failed * 0x40])),
        Reads(PX_CI, u32::from(failed)),
    ];
    player.play(rt, name, 0, &rows);
    player.play(rt, name, 1, RESTART);
}

#[test]
fn each_command_without_data_is_answered(rt: HostRuntime) -> Result<(), Fail> {
    let mut player = Player::new(rt.alloc(), 8, 32, MEMORY)?;
    player.play(&rt, "the port is started", 0, START);
    for (name, answered) in &ANSWERS {
        answers(&rt, &mut player, name, answered);
    }
    Ok(())
}

/// Where the LBA of a D2H Register FIS begins, in the received FIS area.
const LBA: u64 = RECEIVED + 0x44;

/// No disk of 8 sectors has LBA 5000001h. After a command of 28 bits, bits 27:24 are in the device field (Serial ATA, "Register FIS - Device to Host").
const READ_FAR: &[Row] = &[
    Issues(
        0,
        ONE,
        TABLE,
        [0x2780_C800, 0x0100_0045, 0, 0x0100_0000],
        SECTOR,
    ),
    Does(0),
    Reads(PX_TFD, 0x1041),
    Has(LBA, &[1, 0, 0, 5, 0, 0, 0]),
];

const READ_FAR_EXT: &[Row] = &[
    Issues(
        0,
        ONE,
        TABLE,
        [0x2780_2500, 0x0100_0040, 0x0500_0000, 0x0100_0000],
        SECTOR,
    ),
    Does(0),
    Reads(PX_TFD, 0x1041),
    Has(LBA, &[1, 0, 0, 0, 5, 0, 0]),
];

const VERIFY_FAR: &[Row] = &[
    Issues(
        0,
        NONE,
        TABLE,
        [0x2780_4000, 0x0100_0045, 0, 0x0100_0000],
        NO_PIECES,
    ),
    Does(0),
    Reads(PX_TFD, 0x1041),
    Has(LBA, &[1, 0, 0, 5, 0, 0, 0]),
];

/// The flush fails at a sector that it names.
const FLUSH_FAILS: &[Row] = &[
    Issues(0, NONE, TABLE, [0x2780_E700, 0, 0, 0], NO_PIECES),
    Row::Fetches(0),
    Refuses(0, 0x40, 0x0300_0007),
    Has(LBA, &[7, 0, 0, 3, 0, 0, 0]),
];

const FLUSH_FAILS_EXT: &[Row] = &[
    Issues(0, NONE, TABLE, [0x2780_EA00, 0, 0, 0], NO_PIECES),
    Row::Fetches(0),
    Refuses(0, 0x40, 0x0300_0007),
    Has(LBA, &[7, 0, 0, 0, 3, 0, 0]),
];

static FAR: SmallStory = (
    "LBAs of more than 24 bits",
    &[
        START,
        READ_FAR,
        RESTART,
        READ_FAR_EXT,
        RESTART,
        VERIFY_FAR,
        RESTART,
        FLUSH_FAILS,
        RESTART,
        FLUSH_FAILS_EXT,
    ],
);

#[test]
fn an_error_names_an_lba_as_its_command_does(rt: HostRuntime) -> Result<(), Fail> {
    play_small(&rt, rt.alloc(), &[FAR])
}
