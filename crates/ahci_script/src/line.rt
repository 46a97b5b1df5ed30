//! The lines of a script, as they are read.

use crate::raw_window::RawWindow;
use arrayvec::ArrayVec;

/// A line of a script, read and not yet run.
#[derive(Debug, Drop)]
pub enum Line<'a> {
    /// An empty line or a comment.
    Skip,
    /// A command, which has an answer.
    Run(ScriptCommand<'a>),
}

/// A command of a script. A tag is below 32, a list of tags has 1 to 32 of them, and sectors are at most 131,072; the other
/// numbers are any that fit their type. The bytes of a window are in the line that was read.
#[derive(Debug, Drop)]
pub enum ScriptCommand<'a> {
    /// `disk S D` or `disk S D F`: a new port over a disk of zeros, and F, the first number of its journal, where it is given.
    Disk {
        sectors: u64,
        depth: u64,
        first: Option<u64>,
    },
    /// `write T LBA N BB`: issues a write of sectors that are filled with one byte.
    Write {
        tag: u8,
        lba: u64,
        sectors: u32,
        fill: u8,
    },
    /// `read T LBA N`: issues a read.
    Read {
        tag: u8,
        lba: u64,
        sectors: u32,
    },
    /// `raw T H B`: issues a window of any header and bytes.
    Raw {
        tag: u8,
        window: RawWindow<'a>,
    },
    /// `accept T`: the device takes the tag's command.
    Accept {
        tag: u8,
    },
    /// `serve T T ..`: the device moves the data of the tags' commands, one after another, and completes them by one Set
    /// Device Bits FIS.
    Serve {
        tags: ArrayVec<u8, 32>,
    },
    /// `fail T EE LBA`: the device fails the tag's command at a sector, with an error.
    Fail {
        tag: u8,
        error: u8,
        lba: u64,
    },
    /// `collect T K`: takes the answer of the request with number K.
    Collect {
        tag: u8,
        number: u64,
    },
    /// `recover`: ends the error, and with it the request that failed.
    Recover,
    /// `reissue T`: issues a request again that another's error has ended.
    Reissue {
        tag: u8,
    },
    /// `reg OFF`: a register of the port.
    Reg {
        off: u32,
    },
    /// `ack MASK`: clears these bits of the interrupt status.
    Ack {
        mask: u32,
    },
    /// `identify W`: a word of the disk's identify page.
    Identify {
        word: u8,
    },
    /// `flush`: flushes the disk's cache.
    Flush,
    /// `show LBA`: a sector of the disk as it is.
    Show {
        lba: u64,
    },
    /// `journal`: how many entries the journal has.
    Journal,
    /// `trim`: hands out the journal's entries. The next entry's number goes on.
    Trim,
}
