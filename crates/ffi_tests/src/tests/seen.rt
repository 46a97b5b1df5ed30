//! What can be seen of a port on which a write of sector 3 was issued by tag 1.
use crate::tests::heap::{Heap, HeapPort, SECTORS, look_at, port_of};
use ahci_ffi::{FlatEntry, Status, entry, entry_bytes, submit};
use refusing_allocator::Refusing;
use std::test::Fail;

/// An entry of zeros.
const NOTHING: FlatEntry = FlatEntry {
    lba: 0,
    sectors: 0,
    kind: 0,
    tag: 0,
    error: 0,
};

/// The entry of a number, and what the call answers.
fn entry_of(port: &HeapPort<'_>, number: u64) -> (Status, FlatEntry) {
    let mut found = NOTHING;
    (entry(port, number, &mut found), found)
}

fn issue_a_write<'a>(heap: &'a Heap, port: &mut HeapPort<'a>) -> (Status, u64) {
    let mut number = 9;
    let answer = submit(port, heap, 1, 1, 3, 1, &[0xAB; 512], &mut number);
    (answer, number)
}

#[test]
fn the_entry_of_a_write_has_its_numbers_and_bytes(rt: HostRuntime) -> Result<(), Fail> {
    let heap = Refusing::new(rt.alloc());
    let mut port = port_of(&heap)?;
    assert_eq!(rt; issue_a_write(&heap, &mut port), (Status::Done, 0));
    let wanted = FlatEntry {
        lba: 3,
        sectors: 1,
        kind: 1,
        tag: 1,
        error: 0,
    };
    assert_eq!(rt; entry_of(&port, 0), (Status::Done, wanted));
    assert_eq!(rt; entry_of(&port, 1), (Status::NoSuchEntry, NOTHING));
    let mut out = [0; 513];
    assert_eq!(rt; entry_bytes(&port, 0, &mut out), Status::Done);
    let mut wanted = [0xAB; 513];
    wanted[512] = 0;
    assert!(rt; out == wanted);
    Ok(())
}

#[test]
fn the_whole_state_tells_of_a_write_that_waits(rt: HostRuntime) -> Result<(), Fail> {
    let heap = Refusing::new(rt.alloc());
    let mut port = port_of(&heap)?;
    assert_eq!(rt; issue_a_write(&heap, &mut port), (Status::Done, 0));
    let seen = look_at(&port);
    assert_eq!(rt;
        (seen.first, seen.next, seen.depth, seen.sectors, seen.halted),
        (0, 1, 4, SECTORS, 0)
    );
    assert_eq!(rt; (seen.issued, seen.accepted, seen.held), (2, 0, 0));
    assert_eq!(rt;
        (seen.px_sact, seen.px_ci, seen.vs, seen.cap),
        (2, 2, 0x0001_0301, 0x4000_0300)
    );
    assert_eq!(rt; (seen.phases[0], seen.phases[1]), (0, 1));
    Ok(())
}
