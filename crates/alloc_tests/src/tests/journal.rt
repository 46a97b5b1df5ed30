//! A journal's room is asked for once, and not more of it than it needs; pushes ask for none.
use crate::tests::heap::{
    Asked, Heap, Row, Tried, equal, grant_all, growths_of, refuse_from, tries_each,
};
use ncq_journal::{Event, Journal};
use refusing_allocator::Refusing;
use std::mem::size_of;
use std::test::Fail;

/// How many bytes an entry has.
const ENTRY: u64 = size_of::<Event<&'static Heap>>() as u64;

/// How many bytes the room of 129 entries has, which a call of a port makes.
pub const ROOM: u64 = 129 * ENTRY;

/// The room that was made before in a journal, and filled; and for how many entries room is made now.
type Room = (u64, u64);

/// Whether room was made; entries and room then.
type Said = (bool, u64, u64);

// The first request is for as many entries as are wanted. A later one is for those and the ones that are there, or for twice as
// many as before, where that is more.
static ROOMS: [Row<Room, Said>; 6] = [
    Row((0, 129), &[(false, 0, 0)], (true, 0, 129), 129 * ENTRY),
    Row((0, 4), &[(false, 0, 0)], (true, 0, 4), 4 * ENTRY),
    Row((4, 5), &[(false, 4, 0)], (true, 4, 5), 9 * ENTRY),
    Row((4, 1), &[(false, 4, 0)], (true, 4, 1), 8 * ENTRY),
    Row((0, 0), &[], (true, 0, 0), 0),
    Row((4, 0), &[], (true, 4, 0), 0),
];

/// Whether room is made, and what there is then.
fn reserved(journal: &mut Journal<&Heap>, count: u64) -> Said {
    let is_made = journal.reserve(count).is_ok();
    (is_made, journal.len(), journal.room())
}

fn tried(heap: &Heap, (before, count): Room, growth: usize) -> Result<Tried<Said>, Fail> {
    let mut journal = Journal::new(heap);
    journal.reserve(before)?;
    for tag in 0..before {
        if journal.room() > 0 {
            journal.push_reserved(Event::Accept((tag % 32) as u8));
        }
    }
    refuse_from(heap, growth);
    let said = reserved(&mut journal, count);
    let mut tried = Tried::of(said, growths_of(heap), heap.bytes());
    grant_all(heap);
    if !said.0 {
        tried.again = Some(reserved(&mut journal, count));
    }
    Ok(tried)
}

#[test]
fn room_is_asked_for_once_and_exactly(rt: HostRuntime) -> Result<(), Fail> {
    tries_each(&rt, rt.alloc(), &ROOMS, tried)
}

// The heap has nothing left once the room is made.
#[test]
fn what_was_reserved_is_pushed_with_no_memory(rt: HostRuntime) -> Result<(), Fail> {
    let heap = Refusing::new(rt.alloc());
    let mut journal = Journal::new(&heap);
    journal.reserve(129)?;
    refuse_from(&heap, 0);
    for tag in 0..129u64 {
        if journal.room() > 0 {
            journal.push_reserved(Event::Complete((tag % 32) as u8));
        }
    }
    assert!(rt; journal.reserve(0).is_ok() && journal.reserve(1).is_err());
    let last = journal.get(128).is_some() && journal.get(129).is_none();
    assert!(rt; last && journal.entries().len() == 129 && journal.room() == 0);
    equal(
        &rt,
        &journal.len(),
        0,
        &growths_of(&heap),
        &Asked::Refused(0),
    );
    Ok(())
}

// The heap has nothing left when the journal is handed out, and when one is made that goes on from there.
#[test]
fn a_journal_is_handed_out_with_no_memory(rt: HostRuntime) -> Result<(), Fail> {
    let heap = Refusing::new(rt.alloc());
    let mut journal = Journal::starting_at(&heap, 7);
    journal.reserve(2)?;
    refuse_from(&heap, 0);
    if journal.room() > 0 {
        journal.push_reserved(Event::Accept(3));
    }
    let whole = journal.hand_out();
    let next = Journal::starting_at(&heap, 1 << 63);
    let old = (whole.len(), whole.get(6).is_none(), whole.get(7).is_some());
    let new = (journal.len(), journal.first(), journal.room());
    let found = (old, new, next.end(), growths_of(&heap));
    let wanted = ((1, true, true), (0, 8, 0), 1 << 63, Asked::Granted(0));
    equal(&rt, &heap.out(), 0, &found, &wanted);
    Ok(())
}
