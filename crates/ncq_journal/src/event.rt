ghost use Rattle.std.specs.Prelude.{◌≡◌};

use crate::event_kind::EventKind;
use crate::op::Op;
use crate::plain::Plain;
use std::alloc::{Allocator, Global};

/// What one atomic step of the port does. The numbers are tags, 0 to 31.
#[derive(Drop)]
#[derive_where(Debug)]
pub enum Event<A: Allocator = Global> {
    /// Software sets PxSACT and PxCI for a tag (AHCI 1.3.1, "Building a Command").
    Issue(u8, Op<A>),
    /// The device takes the command (Serial ATA, "Register FIS - Device to Host").
    Accept(u8),
    /// The device has moved the command's data and reports it (Serial ATA, "Set Device Bits FIS - Device to Host").
    Complete(u8),
    /// The device reports an error, with the error register's byte and the LBA of the failing sector.
    Fail { tag: u8, error: u8, lba: u64 },
    /// Software stops the port, starts it again and reads which tag failed (AHCI 1.3.1, section 6.2.2).
    Recover(u8),
    /// Software issues a command again that another's error had ended.
    Reissue(u8),
    /// Software takes the answer of a request and frees its slot.
    Collect(u8),
    /// A command that is not queued, from beginning to end.
    Plain(Plain),
    /// The device makes so many sectors from an LBA on zeros, by a command that is not queued (ACS-3, DATA SET MANAGEMENT with
    /// TRIM), from beginning to end.
    Zero { lba: u64, sectors: u32 },
}

impl<A: Allocator> Event<A> {
    ghost use Rattle.ncq_journal.specs.{Entry.{entry_of}, EventKind.{kind_of}};

    /// What the event says, without the bytes of a write.
    pub fn kind(&self) -> EventKind
        ensures { result ≡ kind_of (entry_of self.now) }
    {
        match self {
            Event::Issue(tag, op) => EventKind::Issue {
                tag: *tag,
                write: op.is_write(),
                lba: op.lba(),
                sectors: op.sectors(),
            },
            Event::Accept(tag) => EventKind::Accept(*tag),
            Event::Complete(tag) => EventKind::Complete(*tag),
            Event::Fail { tag, error, lba } => EventKind::Fail {
                tag: *tag,
                error: *error,
                lba: *lba,
            },
            Event::Recover(tag) => EventKind::Recover(*tag),
            Event::Reissue(tag) => EventKind::Reissue(*tag),
            Event::Collect(tag) => EventKind::Collect(*tag),
            Event::Plain(command) => EventKind::Plain(*command),
            Event::Zero { lba, sectors } => EventKind::Zero {
                lba: *lba,
                sectors: *sectors,
            },
        }
    }
}
