//! The calls that may want memory: what they answer where it is refused, and that the port is as it was then; and those that
//! take none, over an allocator that has none left; and which of these give some back.
use crate::tests::guest::{HEADER, list, window, windows};
use crate::tests::heap::{Heap, HeapPort, look_at, port_of, refuse_from};
use ahci_ffi::{
    FlatCommand, FlatReply, FlatStep, FlatWritten, Status, accept, collect, entry_bytes, fail,
    flush, identify, issue, recover, serve, submit, trim, window_check, write_register,
};
use ahci_port::Pending;
use port_refusal::Refusal;
use refusing_allocator::{Refusals, Refusing};
use std::alloc::Global;
use std::process::Abort;
use std::test::Fail;

/// A call that may want memory.
#[derive(Clone, Copy, Debug)]
enum Call {
    Read,
    Write,
    Issue,
    Command,
    Identify,
    Flush,
    Check,
}

// How many requests each makes of a new port: a read its window and the journal's room; a write its bytes too, which the journal
// keeps as they are; a window that is issued, also by a bit of PxCI, its copy and the journal's room; a check the window's copy.
static CALLS: [(Call, u64); 7] = [
    (Call::Read, 2),
    (Call::Write, 3),
    (Call::Issue, 2),
    (Call::Command, 2),
    (Call::Identify, 1),
    (Call::Flush, 1),
    (Call::Check, 1),
];

/// A read or a write of sector 3 by tag 1.
fn submits<'a>(heap: &'a Heap, port: &mut HeapPort<'a>, kind: u32) -> Status {
    let mut number = 0;
    submit(port, heap, 1, kind, 3, 1, &[0xAB; 512], &mut number)
}

/// The window of tag 1.
fn issues<'a>(heap: &'a Heap, port: &mut HeapPort<'a>) -> Status {
    issue(port, heap, 1, &HEADER, &window(), &mut 0)
}

/// A driver's write of a register, where the bit of tag 1 is announced or ST is off.
fn writes(port: &mut HeapPort<'_>, stopped: bool, offset: u32, word: u32) -> (Status, u32) {
    let mut pending = Pending { sact: 2, stopped };
    let mut done = FlatWritten {
        did: 9,
        slots: 0,
        tag: 9,
    };
    let answer = write_register(
        port,
        &mut pending,
        offset,
        word,
        &list(),
        &windows(),
        &mut done,
    );
    (answer, done.tag)
}

/// A write of PxCI. Where it is refused, the slot is named.
fn commands(port: &mut HeapPort<'_>) -> Status {
    match writes(port, false, 0x138, 2) {
        (Status::Refused(Refusal::OutOfMemory), 1) => Status::Refused(Refusal::OutOfMemory),
        (Status::Done, _) => Status::Done,
        _ => Status::BadKind,
    }
}

/// Looks at a window whose header is of zeros.
fn checks(heap: &Heap) -> Status {
    match window_check(heap, 0, &[0; 32], &[0; 64], &mut FlatCommand::default()) {
        Status::Refused(Refusal::BadHeader) => Status::Done,
        other => other,
    }
}

fn goes<'a>(heap: &'a Heap, port: &mut HeapPort<'a>, call: Call) -> Status {
    match call {
        Call::Read => submits(heap, port, 0),
        Call::Write => submits(heap, port, 1),
        Call::Issue => issues(heap, port),
        Call::Command => commands(port),
        Call::Identify => identify(port, &mut [0; 512]),
        Call::Flush => flush(port),
        Call::Check => checks(heap),
    }
}

/// Makes a call while requests are refused, and then with memory. A refusal leaves the port as it was.
fn tries(rt: &impl Abort, heap: &Heap, call: Call, growth: u64) -> Result<(Status, u64), Fail> {
    let mut port = port_of(heap)?;
    let before = look_at(&port);
    refuse_from(heap, growth);
    let said = goes(heap, &mut port, call);
    let requests = heap.requests();
    if said == Status::Refused(Refusal::OutOfMemory) {
        assert!(rt;
            look_at(&port) == before,
            "{call:?}, growth {growth}: changed"
        );
        heap.refuse(Refusals::None);
        assert_eq!(rt; goes(heap, &mut port, call), Status::Done);
    }
    Ok((said, requests))
}

#[test]
fn a_port_refused_memory_is_as_it_was_and_goes_on_with_memory(rt: HostRuntime) -> Result<(), Fail> {
    for (call, growths) in CALLS {
        for growth in 0..=growths {
            let heap = Refusing::new(rt.alloc());
            let found = tries(&rt, &heap, call, growth)?;
            let wanted = if growth < growths {
                (Status::Refused(Refusal::OutOfMemory), growth + 1)
            } else {
                (Status::Done, growths)
            };
            assert_eq!(rt; found, wanted, "{call:?}, growth {growth}");
            assert!(rt; heap.out() == 0);
        }
    }
    Ok(())
}

/// Accepts, serves and collects tag 1's write, which is request 0, and looks at its bytes.
fn runs(port: &mut HeapPort<'_>, out: &mut [u8; 512]) -> [Status; 5] {
    let mut done = FlatStep::default();
    let mut reply = FlatReply::default();
    [
        accept(port, 1, &mut done),
        serve(port, &[1], &mut done),
        collect(port, 1, 7, &mut reply, &mut []),
        collect(port, 1, 0, &mut reply, &mut []),
        entry_bytes(port, 0, out),
    ]
}

#[test]
fn what_follows_an_issue_asks_for_no_memory(rt: HostRuntime) -> Result<(), Fail> {
    let heap = Refusing::new(rt.alloc());
    let mut port = port_of(&heap)?;
    assert_eq!(rt; submits(&heap, &mut port, 1), Status::Done);
    refuse_from(&heap, 0);
    let mut out = [0; 512];
    let wanted = [
        Status::Done,
        Status::Done,
        Status::Refused(Refusal::Stranger),
        Status::Done,
        Status::Done,
    ];
    assert_eq!(rt; runs(&mut port, &mut out), wanted);
    assert!(rt; out == [0xAB; 512]);
    assert_eq!(rt; heap.requests(), 0);
    Ok(())
}

/// How many blocks more are out than there were.
fn held(heap: &Heap, before: u64) -> u64 {
    heap.out().saturating_sub(before)
}

// While a write waits, its window is held, and in the journal its bytes and the room of its four entries.
#[test]
fn a_collected_window_and_a_trimmed_journal_give_their_memory_back(
    rt: HostRuntime,
) -> Result<(), Fail> {
    let heap = Refusing::new(rt.alloc());
    let mut port = port_of(&heap)?;
    let before = heap.out();
    assert_eq!(rt; submits(&heap, &mut port, 1), Status::Done);
    let waiting = held(&heap, before);
    let _said = runs(&mut port, &mut [0; 512]);
    let collected = held(&heap, before);
    let mut entries = 0;
    assert_eq!(rt; trim(&mut port, &mut entries), Status::Done);
    let trimmed = held(&heap, before);
    assert_eq!(rt; (entries, waiting, collected, trimmed), (4, 3, 2, 0));
    Ok(())
}

/// A port whose tag 1 has failed, with three entries.
fn halted<'a>(heap: &'a Heap, port: &mut HeapPort<'a>) -> [Status; 3] {
    let mut done = FlatStep::default();
    [
        submits(heap, port, 0),
        accept(port, 1, &mut done),
        fail(port, 1, 0x40, 3, &mut done),
    ]
}

/// Recovers by the call, or by a driver's start of the port: the answer, and the tag that is named.
fn recovers(port: &mut HeapPort<'_>, is_driver: bool) -> (Status, u32) {
    if is_driver {
        return writes(port, true, 0x118, 0x11);
    }
    let mut tag = 9;
    let answer = recover(port, &mut tag);
    (answer, tag)
}

/// Recovers a failed port while all is refused, and then with memory.
fn asks_for_room(rt: &impl Abort, alloc: Global, is_driver: bool) -> Result<(), Fail> {
    let heap = Refusing::new(alloc);
    let mut port = port_of(&heap)?;
    assert_eq!(rt; halted(&heap, &mut port), [Status::Done; 3]);
    let before = look_at(&port);
    refuse_from(&heap, 0);
    assert_eq!(rt;
        recovers(&mut port, is_driver),
        (Status::Refused(Refusal::OutOfMemory), 9)
    );
    assert!(rt; look_at(&port) == before);
    heap.refuse(Refusals::None);
    assert_eq!(rt; recovers(&mut port, is_driver), (Status::Done, 1));
    Ok(())
}

#[test]
fn a_port_that_recovers_asks_for_room_first(rt: HostRuntime) -> Result<(), Fail> {
    asks_for_room(&rt, rt.alloc(), false)
}

#[test]
fn a_driver_that_starts_a_failed_port_again_asks_for_room(rt: HostRuntime) -> Result<(), Fail> {
    asks_for_room(&rt, rt.alloc(), true)
}
