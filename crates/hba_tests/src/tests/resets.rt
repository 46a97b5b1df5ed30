//! Stories of resets: of the link, of the HBA, and by software; and of registers that stay as they are.

use crate::tests::player::Row;
use crate::tests::player::Row::{
    Does, Fills, HasAll, Issues, Lays, Reads, ReadsBits, Sector, Signs, Takes, Writes,
};
use crate::tests::registers::{
    CAP, GHC, IS, PI, PX_CI, PX_CLB, PX_CLBU, PX_CMD, PX_FB, PX_FBU, PX_IE, PX_IS, PX_SACT,
    PX_SCTL, PX_SERR, PX_SIG, PX_SSTS, PX_TFD, VS,
};
use crate::tests::settings::{
    DATA, NO_PIECES, NONE, ONE, OTHER, READ_DMA, RESTART, SECTOR, START, SmallStory, TABLE, WRITE,
    play_small,
};
use std::test::Fail;

/// A write that the disk has taken, and one that it hasn't.
const TAKEN: &[Row] = &[
    Fills(DATA, 512, 0xAA),
    Lays(1, ONE, OTHER, WRITE, SECTOR),
    Lays(0, ONE, TABLE, READ_DMA, SECTOR),
    Writes(PX_SACT, 2),
    Writes(PX_CI, 2),
    Takes(1),
    Writes(PX_CI, 1),
    Reads(PX_SACT, 2),
    Reads(PX_CI, 1),
];

/// Neither of them comes any more.
const NOTHING_LEFT: &[Row] = &[
    Reads(PX_SACT, 0),
    Reads(PX_CI, 0),
    Does(1),
    Does(0),
    Sector(3, 0),
    HasAll(DATA, 512, 0xAA),
];

/// AHCI 1.3.1, section 10.4.2.
const LINK_RESET: &[Row] = &[
    Writes(PX_SCTL, 0x301),
    Reads(PX_SCTL, 0x301),
    Reads(PX_SSTS, 0),
    Reads(PX_SIG, 0xFFFF_FFFF),
    ReadsBits(PX_TFD, 0xFF, 0x7F),
    Writes(PX_SCTL, 0x300),
];

/// A link that has come up, and its signature.
const LINK_UP: &[Row] = &[
    Reads(PX_SSTS, 0x123),
    Reads(PX_SERR, 0x0405_0000),
    ReadsBits(PX_IS, 0x0040_0040, 0x0040_0040),
    ReadsBits(PX_TFD, 0x80, 0x80),
    Writes(PX_IS, 0xFFFF_FFFF),
    ReadsBits(PX_IS, 0x0040_0040, 0x0040_0040),
    Writes(PX_SERR, 0x0405_0000),
    Reads(PX_SERR, 0),
    Reads(PX_IS, 0),
    Signs,
    Reads(PX_TFD, 0x150),
    Reads(PX_SIG, 0x101),
];

/// A command after that.
const GOES_ON: &[Row] = &[
    Fills(DATA, 512, 0xAA),
    Issues(0, ONE, TABLE, READ_DMA, SECTOR),
    Does(0),
    Reads(PX_CI, 0),
    HasAll(DATA, 512, 0),
];

/// The command never ends: Linux clears ST, and then resets the link.
const STALLED: &[Row] = &[
    Writes(PX_IE, 0),
    Writes(PX_CMD, 0xC016),
    Reads(PX_CMD, 0x4016),
    Reads(PX_SERR, 0),
    Writes(PX_SERR, 0),
    Writes(IS, 1),
];

/// What Linux writes to a link that it gives up for a while: offline, a reserved DET, and COMRESET.
const OFFLINE: &[Row] = &[
    Writes(PX_SCTL, 0x304),
    Reads(PX_SCTL, 0x304),
    Reads(PX_SSTS, 4),
    Writes(PX_SCTL, 0xFFFF_FF0F),
    Reads(PX_SCTL, 0xF_FF0F),
    Reads(PX_SSTS, 4),
    Writes(PX_SCTL, 0),
    Reads(PX_SSTS, 0x123),
    Writes(PX_SCTL, 0x301),
    Reads(PX_SCTL, 0x301),
    Reads(PX_SSTS, 0),
    Writes(PX_SCTL, 0),
    Writes(PX_SCTL, 0x3F0),
    Reads(PX_SCTL, 0x3F0),
];

/// AHCI 1.3.1, section 10.4.3: the bases stay.
pub const HBA_RESET: &[Row] = &[
    Writes(GHC, 0x8000_0003),
    Reads(GHC, 0x8000_0000),
    Reads(PX_CMD, 0x6),
    Reads(PX_IE, 0),
    Reads(PX_CLB, 0x1000),
    Reads(PX_FB, 0x400),
    Reads(PX_SIG, 0xFFFF_FFFF),
];

/// A control FIS with SRST, one without, and the signature (AHCI 1.3.1, section 10.4.1).
pub const SOFTWARE_RESET: &[Row] = &[
    Issues(
        0,
        NONE | 0x500,
        TABLE,
        [0x2700_0000, 0, 0, 0x0000_0004],
        NO_PIECES,
    ),
    Does(0),
    ReadsBits(PX_TFD, 0x88, 0),
    Reads(PX_CI, 0),
    Issues(0, NONE, TABLE, [0x2700_0000, 0, 0, 0], NO_PIECES),
    Does(0),
    ReadsBits(PX_TFD, 0x80, 0x80),
    Reads(PX_CI, 1),
    Signs,
    Reads(PX_CI, 0),
    Reads(PX_TFD, 0x150),
    Reads(PX_SIG, 0x101),
];

/// A stopped port takes no bits, of all or of none.
const STOPPED: &[Row] = &[
    Writes(PX_CMD, 0x10),
    Writes(PX_CI, 0),
    Writes(PX_SACT, 0),
    Writes(PX_CI, 0xFFFF_FFFF),
    Writes(PX_SACT, 0xFFFF_FFFF),
    Reads(PX_CI, 0),
    Reads(PX_SACT, 0),
    Writes(PX_CMD, 0x11),
    Reads(PX_CI, 0),
    Reads(PX_SACT, 0),
    Writes(PX_SACT, 2),
    Writes(PX_SACT, 0),
    Reads(PX_SACT, 2),
];

/// Read-only registers, and those that there are none of: CCC_CTL, CCC_PORTS, EM_LOC, EM_CTL, CAP2, BOHC, PxSNTF, PxFBS, PxDEVSLP, and
/// PxCMD and PxSACT of a second port.
const FIXED: &[Row] = &[
    Writes(CAP, 0),
    Reads(CAP, 0xC124_9F00),
    Writes(PI, 3),
    Reads(PI, 1),
    Writes(VS, 0),
    Reads(VS, 0x0001_0301),
    Writes(PX_TFD, 0xFF),
    Reads(PX_TFD, 0x150),
    Writes(PX_SIG, 0),
    Reads(PX_SIG, 0x101),
    Writes(PX_SSTS, 0),
    Reads(PX_SSTS, 0x123),
    Writes(PX_IE, 0xFFFF_FFFF),
    Reads(PX_IE, 0x7DC0_007F),
    Writes(PX_CLB, 0xFFFF_FFFF),
    Reads(PX_CLB, 0x1000),
    Writes(PX_CMD, 0),
    Writes(PX_CLB, 0xFFFF_FFFF),
    Reads(PX_CLB, 0xFFFF_FC00),
    Writes(PX_CLBU, 0x1234_5678),
    Reads(PX_CLBU, 0x1234_5678),
    Writes(PX_FB, 0xFFFF_FFFF),
    Reads(PX_FB, 0xFFFF_FF00),
    Writes(PX_FBU, 0x1234_5678),
    Reads(PX_FBU, 0x1234_5678),
];

const MISSING: &[Row] = &[
    Writes(0x014, 0xFFFF_FFFF),
    Reads(0x014, 0),
    Reads(0x018, 0),
    Reads(0x01C, 0),
    Writes(0x020, 0xFFFF_FFFF),
    Reads(0x020, 0),
    Reads(0x024, 0),
    Writes(0x028, 2),
    Reads(0x028, 0),
    Writes(0x13C, 0xFFFF_FFFF),
    Reads(0x13C, 0),
    Reads(0x140, 0),
    Reads(0x144, 0),
    Writes(0x198, 0x11),
    Reads(0x198, 0),
    Reads(0x1B0, 0),
    Reads(0x1B4, 0),
    Reads(0xFFFC, 0),
];

static STORIES: [SmallStory; 7] = [
    (
        "COMRESET drops commands, and the signature comes again",
        &[START, TAKEN, LINK_RESET, NOTHING_LEFT, LINK_UP, GOES_ON],
    ),
    (
        "a command that never ends is dropped by ST and by COMRESET",
        &[
            START,
            TAKEN,
            STALLED,
            NOTHING_LEFT,
            LINK_RESET,
            LINK_UP,
            RESTART,
            GOES_ON,
        ],
    ),
    (
        "an offline link comes up again",
        &[START, TAKEN, OFFLINE, NOTHING_LEFT, LINK_UP, GOES_ON],
    ),
    (
        "a reset of the HBA leaves the bases",
        &[START, TAKEN, HBA_RESET, NOTHING_LEFT, START, GOES_ON],
    ),
    (
        "after a software reset the signature comes again",
        &[START, TAKEN, RESTART, NOTHING_LEFT, SOFTWARE_RESET, GOES_ON],
    ),
    ("a stopped port takes no commands", &[START, STOPPED]),
    ("some registers stay as they are", &[START, FIXED, MISSING]),
];

#[test]
fn resets_drop_commands_and_the_port_goes_on(rt: HostRuntime) -> Result<(), Fail> {
    play_small(&rt, rt.alloc(), &STORIES)
}
