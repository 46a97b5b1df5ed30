//! A journal given as structs, checked with no port: which events may follow which.

ghost use Rattle.std.specs.Prelude.{◌≡◌, ◌<◌};
ghost use Rattle.ahci_ffi.specs.Judging.{AnswersJournal, kind_named, tagged};

use crate::flat::FlatEntry;
use crate::status::Status;
use ncq_core::MAX_DEPTH;
use ncq_journal::{EventKind, NamesEvent, Plain, first_unlawful};
use port_refusal::Refusal;

/// Looks at events, the oldest first, as a journal from its beginning on, on a disk of so many sectors with so many slots. Where
/// one can't come where it is, `first_bad` is the place of the first such, counted from 0.
pub fn journal_check(
    sectors: u32,
    depth: u32,
    events: &[FlatEntry],
    first_bad: &mut usize,
) -> Status
    ensures { AnswersJournal sectors depth events.now result first_bad.old first_bad.new }
{
    if depth == 0 || depth > MAX_DEPTH {
        return Status::Refused(Refusal::BadDepth);
    }
    match first_unlawful(sectors, depth, events) {
        Some(place) => {
            *first_bad = place;
            Status::NotAllowed
        }
        None => Status::Done,
    }
}

impl NamesEvent for FlatEntry {
    ghost event = { kind_named };

    /// A struct that names no event is as a READ LOG EXT by itself, which no journal has.
    fn kind(&self) -> EventKind {
        match self.kind {
            8 => EventKind::Plain(Plain::Identify),
            9 => EventKind::Plain(Plain::Flush),
            11 => EventKind::Zero {
                lba: self.lba,
                sectors: self.sectors,
            },
            _ if self.tag < 32 => tagged(self, self.tag as u8),
            _ => EventKind::Plain(Plain::ReadLog),
        }
    }
}

/// The event of a struct whose kind names a tag.
fn tagged(event: &FlatEntry, tag: u8) -> EventKind
    ensures { result ≡ tagged event.now tag }
{
    match event.kind {
        0 | 1 => EventKind::Issue {
            tag,
            write: event.kind == 1,
            lba: event.lba,
            sectors: u64::from(event.sectors),
        },
        2 => EventKind::Accept(tag),
        3 => EventKind::Complete(tag),
        4 if event.error < 256 => EventKind::Fail {
            tag,
            error: event.error as u8,
            lba: event.lba,
        },
        5 => EventKind::Recover(tag),
        6 => EventKind::Reissue(tag),
        7 => EventKind::Collect(tag),
        _ => EventKind::Plain(Plain::ReadLog),
    }
}
