//! A journal's entries and its room.
use crate::table::equal;
use ncq_journal::{Bytes, Event, Journal, Op, OutOfMemory};
use std::alloc::Global;
use std::test::Fail;

/// A new journal with room for two entries, of which one is taken by a write.
fn with_a_write(alloc: Global) -> Result<(bool, Journal), OutOfMemory> {
    let mut journal = Journal::new(alloc);
    let was_empty = journal.is_empty();
    let bytes = Bytes::from_vec(vec![in alloc; 7u8; 512]?);
    journal.reserve(2)?;
    if journal.room() == 2 {
        journal.push_reserved(Event::Issue(5, Op::Write { lba: 1, bytes }));
    }
    Ok((was_empty, journal))
}

#[test]
fn a_journal_counts_its_entries_and_its_room(rt: HostRuntime) -> Result<(), Fail> {
    let (was_empty, journal) = with_a_write(rt.alloc())?;
    let is_write = match journal.get(0) {
        Some(Event::Issue(5, Op::Write { lba: 1, .. })) => true,
        _ => false,
    };
    let entries = (journal.len(), is_write, journal.get(1).is_none());
    let found = (was_empty, entries, journal.room());
    equal(&rt, 0, &found, &(true, (1, true, true), 1));
    Ok(())
}
