//! The entries of a port's journal, by their numbers.

ghost use Rattle.std.specs.Prelude.{◌≡◌, Some};
ghost use Rattle.ncq_journal.specs.{Entry.{Issue, entry_of}, Lawful.{IsProper, IsProperEntry}, Numbering.{entry_numbered}, Work.{work_of}};
ghost use Rattle.ahci_ffi.specs.{Flat.{flat_entry, plain_kind}, Seen.{AnswersBytes, AnswersEntry, written_by}};

use crate::flat::FlatEntry;
use crate::status::Status;
use ahci_port::Port;
use ncq_journal::{Event, Op, Plain};
use sector_store::SectorStore;
use std::alloc::Allocator;

/// The entry of a number.
pub fn entry<A: Allocator, S: SectorStore>(
    port: &Port<A, S>,
    number: u64,
    entry: &mut FlatEntry,
) -> Status
    ensures { AnswersEntry (entry_numbered port.now.first port.now.past number) result entry.old entry.new }
{
    match port.journal().get(number) {
        Some(event) => {
            *entry = flat_entry(event);
            Status::Done
        }
        None => Status::NoSuchEntry,
    }
}

/// Copies the bytes of the write that the entry of a number has issued to the beginning of `out`.
pub fn entry_bytes<A: Allocator, S: SectorStore>(
    port: &Port<A, S>,
    number: u64,
    out: &mut [u8],
) -> Status
    ensures { AnswersBytes (written_by (entry_numbered port.now.first port.now.past number)) result out.old out.new }
{
    match port.journal().get(number) {
        Some(Event::Issue(_, Op::Write { bytes, .. })) => put_first(bytes.as_slice(), out),
        _ => Status::NoSuchEntry,
    }
}

/// Copies bytes to the beginning of a buffer, where it has room for them.
fn put_first(bytes: &[u8], out: &mut [u8]) -> Status
    ensures { AnswersBytes (Some bytes.now) result out.old out.new }
{
    if out.len() < bytes.len() {
        return Status::BufferTooSmall;
    }
    out[..bytes.len()].copy_from_slice(bytes);
    Status::Done
}

/// An entry as a struct.
pub(crate) fn flat_entry<A: Allocator>(event: &Event<A>) -> FlatEntry
    requires { IsProperEntry (entry_of event.now) }
    ensures { result ≡ flat_entry (entry_of event.now) }
{
    match event {
        Event::Issue(tag, op) => flat_issue(*tag, op),
        Event::Accept(tag) => of_tag(2, *tag),
        Event::Complete(tag) => of_tag(3, *tag),
        Event::Fail { tag, error, lba } => FlatEntry {
            lba: *lba,
            error: u32::from(*error),
            ..of_tag(4, *tag)
        },
        Event::Recover(tag) => of_tag(5, *tag),
        Event::Reissue(tag) => of_tag(6, *tag),
        Event::Collect(tag) => of_tag(7, *tag),
        Event::Plain(command) => of_tag(plain_kind(*command), 0),
        Event::Zero { lba, sectors } => FlatEntry {
            lba: *lba,
            sectors: *sectors,
            ..of_tag(11, 0)
        },
    }
}

/// The entry that issues a command.
fn flat_issue<A: Allocator>(tag: u8, op: &Op<A>) -> FlatEntry
    requires { IsProper (work_of op.now) }
    ensures { result ≡ flat_entry (Issue tag (work_of op.now)) }
{
    let kind = match op {
        Op::Read { .. } => 0,
        Op::Write { .. } => 1,
    };
    FlatEntry {
        lba: op.lba(),
        sectors: op.sectors() as u32,
        ..of_tag(kind, tag)
    }
}

/// An entry that names a tag alone.
fn of_tag(kind: u32, tag: u8) -> FlatEntry
    ensures { result ≡ record { lba = 0; sectors = 0; kind = kind; tag = tag; error = 0 } }
{
    FlatEntry {
        lba: 0,
        sectors: 0,
        kind,
        tag: u32::from(tag),
        error: 0,
    }
}

/// The kind of an entry of a command that is not queued.
fn plain_kind(command: Plain) -> u32
    ensures { result ≡ plain_kind command }
{
    match command {
        Plain::Identify => 8,
        Plain::Flush => 9,
        Plain::ReadLog => 10,
    }
}
