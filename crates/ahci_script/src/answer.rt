//! What a command answers.

use port_refusal::Refusal;
use std::alloc::{Allocator, Global};

/// What a command answers. It becomes text where it is written, by `Output::put`. Contracts see it as a `Said`.
#[derive(Drop)]
#[derive_where(Debug)]
pub enum ScriptAnswer<A: Allocator = Global> {
    /// The sectors and the depth of the new disk, and the first number of the journal, where the line gave one.
    Disk {
        sectors: u64,
        depth: u64,
        first: Option<u64>,
    },
    /// The request's number, the entry of its Issue.
    Issued(u64),
    /// The entry of the step.
    Accepted(u64),
    /// The entries of the step, which follow one another: from the first up to the end, which is the number after the last.
    Completed {
        first: u64,
        end: u64,
    },
    /// The entry of the step, which failed its command.
    FailedStep(u64),
    /// The entry that completed the write.
    Wrote(u64),
    /// The entry that completed the read, and its sectors of 512 bytes, joined.
    Read {
        entry: u64,
        bytes: Vec<u8, A>,
    },
    /// The entry that failed the request, with the error register's byte and the LBA of the sector.
    Failed {
        error: u8,
        entry: u64,
        lba: u64,
    },
    /// The tag of the command that had failed.
    Recovered(u8),
    /// The tag of the command that is issued again.
    Reissued(u8),
    /// A register's word.
    Register(u32),
    /// The interrupt status was written.
    Acked,
    /// A word of the identify page, and its value.
    Word {
        word: u8,
        value: u16,
    },
    /// The cache was flushed.
    Flushed,
    /// A sector of the disk, by its first byte.
    Sector {
        byte: u8,
        lba: u64,
    },
    /// How many entries the journal has.
    Journal(u64),
    /// How many entries of the journal were handed out.
    Trimmed(u64),
    /// The call refused, and changed nothing.
    Refused(Refusal),
}
