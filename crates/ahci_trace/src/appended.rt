ghost use Rattle.std.specs.Prelude.{◌≡◌, IfOk};
ghost use Rattle.ahci_trace.specs.Entries.{appended_at, new_entries, newest};

use crate::mark::Mark;
use ncq_journal::{EventKind, Journal};
use std::alloc::{AllocError, Allocator};

/// An entry that a command has added to the journal.
#[derive(Clone, Copy, Debug)]
pub struct Appended {
    pub number: u64,
    pub what: EventKind,
}

/// The entry of this number, where there is one.
fn appended_at<A: Allocator>(journal: &Journal<A>, number: u64) -> Option<Appended>
    ensures { result ≡ appended_at journal.now.first journal.now.past number }
{
    match journal.get(number) {
        Some(event) => Some(Appended {
            number,
            what: event.kind(),
        }),
        None => None,
    }
}

/// The entries from the mark on, the oldest first. None of those before it is looked at.
pub(crate) fn new_entries<A: Allocator, B: Allocator>(
    alloc: B,
    mark: &Mark,
    journal: &Journal<A>,
) -> Result<Vec<Appended, B>, AllocError>
    ensures { IfOk result (λ entries. entries.items ≡ new_entries mark.now journal.now.first journal.now.past) }
{
    let start = mark.end.max(journal.first());
    (start..journal.end())
        .filter_map(|number| appended_at(journal, number))
        .collect(alloc)
}

/// The newest entry, where it came after the mark.
pub(crate) fn newest<A: Allocator>(mark: &Mark, journal: &Journal<A>) -> Option<EventKind>
    ensures { result ≡ newest mark.now journal.now.first journal.now.past }
{
    let end = journal.end();
    if end <= mark.end {
        return None;
    }
    match journal.get(end - 1) {
        Some(event) => Some(event.kind()),
        None => None,
    }
}
