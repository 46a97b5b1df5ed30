ghost use Rattle.std.specs.Prelude.{◌≡◌};
ghost use Rattle.ncq_journal.specs.{Image.{is_write}, Work.{work_of, is_ragged, lba_of, sectors_of}};

use crate::bytes::Bytes;
use std::alloc::{Allocator, Global};

/// What a queued command asks of the disk: to read `sectors` sectors of 512 bytes from `lba` on, or to write
/// these bytes there (ACS-3, READ FPDMA QUEUED and WRITE FPDMA QUEUED).
#[derive(Drop)]
#[derive_where(Debug)]
pub enum Op<A: Allocator = Global> {
    Read { lba: u64, sectors: u32 },
    Write { lba: u64, bytes: Bytes<A> },
}

impl<A: Allocator> Op<A> {
    /// The LBA of the first sector.
    pub fn lba(&self) -> u64
        ensures { result ≡ lba_of (work_of self.now) }
    {
        match self {
            Op::Read { lba, .. } | Op::Write { lba, .. } => *lba,
        }
    }

    /// How many whole sectors the command reads or writes.
    pub fn sectors(&self) -> u64
        ensures { result ≡ sectors_of (work_of self.now) }
    {
        match self {
            Op::Read { sectors, .. } => u64::from(*sectors),
            Op::Write { bytes, .. } => bytes.as_slice().len() as u64 / 512,
        }
    }

    /// Whether data goes to the disk.
    pub fn is_write(&self) -> bool
        ensures { result ≡ is_write (work_of self.now) }
    {
        matches!(self, Op::Write { .. })
    }

    /// Whether it is a write whose bytes aren't whole sectors.
    pub fn is_ragged(&self) -> bool
        ensures { result ≡ is_ragged (work_of self.now) }
    {
        match self {
            Op::Read { .. } => false,
            Op::Write { bytes, .. } => bytes.as_slice().len() % 512 != 0,
        }
    }
}
