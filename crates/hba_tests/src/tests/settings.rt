//! What the stories have in common that follow no recording: memory, how the port is started, and commands.

use crate::tests::guest::Stretch;
use crate::tests::player::Pieces::These;
use crate::tests::player::Row::{Signs, Writes};
use crate::tests::player::{Pieces, Row, Story, plays};
use crate::tests::registers::{GHC, PX_CLB, PX_CMD, PX_FB, PX_IE, PX_IS, PX_SCTL, PX_SERR};
use std::alloc::Global;
use std::process::Abort;
use std::test::Fail;

/// Where the received FIS area, the command list, the tables of slots 0 and 1, and the data are.
pub const RECEIVED: u64 = 0x400;

pub const LIST: u64 = 0x1000;

pub const TABLE: u64 = 0x2000;

pub const OTHER: u64 = 0x2100;

pub const DATA: u64 = 0x8000;

pub const MEMORY: &[Stretch] = &[(0, 0x1_0000)];

/// Dword 0 of a header with CFL 5 and an entry, and of one with none.
pub const ONE: u32 = 0x0001_0005;

pub const NONE: u32 = 0x0000_0005;

/// A sector of data.
pub const SECTOR: Pieces = These(&[(DATA, 512)]);

pub const NO_PIECES: Pieces = These(&[]);

/// IDENTIFY DEVICE.
pub const IDENTIFY: [u32; 4] = [0x2780_EC00, 0, 0, 0];

/// READ LOG EXT of one page of log 10h.
pub const READ_LOG: [u32; 4] = [0x2780_2F00, 0x1000_0000, 0, 0x0100_0000];

/// READ DMA of the sector at LBA 3.
pub const READ_DMA: [u32; 4] = [0x2780_C800, 0x0300_0040, 0, 0x0100_0000];

/// READ and WRITE FPDMA QUEUED of the sector at LBA 3, with tag 1.
pub const READ: [u32; 4] = [0x2780_6001, 0x0300_0040, 0, 0x0800_0000];

pub const WRITE: [u32; 4] = [0x2780_6101, 0x0300_0040, 0, 0x0800_0000];

/// The port is initialised (AHCI 1.3.1, section 10.1.2) and started, with interrupts.
pub const START: &[Row] = &[
    Writes(GHC, 0x8000_0002),
    Writes(PX_CLB, 0x1000),
    Writes(PX_FB, 0x400),
    Writes(PX_CMD, 0x10),
    Writes(PX_SERR, 0xFFFF_FFFF),
    Signs,
    Writes(PX_IS, 0xFFFF_FFFF),
    Writes(PX_IE, 0x7800_002F),
    Writes(PX_CMD, 0x11),
];

/// The link is reset (AHCI 1.3.1, section 10.4.2), as after an error that leaves BSY.
pub const COMRESET: &[Row] = &[
    Writes(PX_CMD, 0x10),
    Writes(PX_SCTL, 0x301),
    Writes(PX_SCTL, 0x300),
    Writes(PX_SERR, 0xFFFF_FFFF),
    Signs,
    Writes(PX_IS, 0xFFFF_FFFF),
    Writes(PX_CMD, 0x11),
];

/// ST is cleared and set, as after an error.
pub const RESTART: &[Row] = &[
    Writes(PX_CMD, 0x10),
    Writes(PX_IS, 0xFFFF_FFFF),
    Writes(PX_CMD, 0x11),
];

/// What a story shows, and its parts; its disk has eight sectors and queues 32 commands.
pub type SmallStory = (&'static str, &'static [&'static [Row]]);

/// Plays stories over a small disk.
pub fn play_small(rt: &impl Abort, alloc: Global, stories: &[SmallStory]) -> Result<(), Fail> {
    for (name, parts) in stories {
        let story = Story {
            name: *name,
            sectors: 8,
            depth: 32,
            memory: MEMORY,
            parts: *parts,
        };
        plays(rt, alloc, &story)?;
    }
    Ok(())
}
