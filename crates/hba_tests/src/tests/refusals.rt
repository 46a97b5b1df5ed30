//! A life of a controller in which each allocation is refused in turn.

use crate::tests::guest::{Guest, settle, slot_of, supply};
use crate::tests::life::Call::{
    Accept, Control, Deliver, Execute, Fetch, Guest as Driver, Recover, Send, Serve, Settle, Sign,
    Supply, Trim, Write,
};
use crate::tests::life::{Call, LIFE, Step};
use crate::tests::player::{acts, sees, write};
use crate::tests::settings::MEMORY;
use crate::tests::shown::{Heap, SECTORS, look_at};
use ahci_hba::{Hba, HbaFault};
use ahci_port::DiskFault;
use refusing_allocator::{Refusals, Refusing};
use std::alloc::{AllocError, Global};
use std::fmt::Debug;
use std::process::Abort;
use std::test::Fail;

/// A tag for each slot of the port, in room for 4, 8, 16 and 32 of them; the port's image; and as many slots of the controller.
const MADE: u64 = 9;

/// The controller's answer where an allocation is all that can fail.
fn granted(answer: Result<(), AllocError>) -> Result<(), HbaFault> {
    match answer {
        Ok(()) => Ok(()),
        Err(AllocError) => Err(HbaFault::OutOfMemory),
    }
}

/// Makes a call.
fn makes(hba: &mut Hba<&Heap>, guest: &mut Guest, call: Call) -> Result<(), HbaFault> {
    match call {
        Driver(row) => acts(hba, guest, row),
        Write(offset, value) => write(hba, offset, value),
        Settle => settle(hba, guest),
        Supply => return granted(supply(hba, guest)),
        Deliver(slot) => return hba.deliver(slot_of(slot)),
        Sign => return hba.sign(),
        Fetch(slot) => return hba.fetch(slot_of(slot)),
        Send(slot) => return hba.send(slot_of(slot)),
        Accept(slot) => return hba.accept(slot_of(slot)),
        Serve(slot) => return hba.serve(slot_of(slot)),
        Execute(slot) => return hba.execute(slot_of(slot)),
        Call::Fail(slot) => return hba.fail(slot_of(slot), 0x40, 3),
        Recover(slot) => {
            let _journal = hba.recover(slot_of(slot))?;
        }
        Control(slot) => {
            let _journal = hba.control(slot_of(slot))?;
        }
        Trim => {
            if hba.trim().is_err() {
                return Err(HbaFault::NotReady);
            }
        }
    }
    Ok(())
}

/// What a call answered, how many requests for memory it had made and how many of them were refused, and whether anything has changed.
type Tried = (Result<(), HbaFault>, u64, bool);

fn tries(heap: &Heap, hba: &mut Hba<&Heap>, guest: &mut Guest, call: Call, from: u64) -> Tried {
    let before = look_at(hba);
    heap.refuse(Refusals::From(from));
    let answer = makes(hba, guest, call);
    let (requests, refused) = (heap.requests(), heap.refused());
    heap.refuse(Refusals::None);
    let same = refused == 0 || before == look_at(hba);
    (answer, requests.saturating_sub(refused), same)
}

fn equal<T: PartialEq + Debug>(rt: &impl Abort, at: (usize, usize, u64), found: &T, wanted: &T) {
    assert_eq!(rt; *found, *wanted, "at {at:?}");
}

/// A call of the life: refused each of its allocations, it changes nothing; with memory it goes on.
fn goes_on(
    rt: &impl Abort,
    heap: &Heap,
    hba: &mut Hba<&Heap>,
    guest: &mut Guest,
    place: (usize, usize),
    step: Step,
) {
    let (call, growths) = step;
    for growth in 0..growths {
        let found = tries(heap, hba, guest, call, growth);
        let wanted = (Err(HbaFault::OutOfMemory), growth, true);
        equal(rt, (place.0, place.1, growth), &found, &wanted);
    }
    let found = tries(heap, hba, guest, call, growths);
    equal(
        rt,
        (place.0, place.1, growths),
        &found,
        &(Ok(()), growths, true),
    );
    if let Driver(row) = call {
        sees(rt, hba, guest, ("the life", place.0, place.1), row);
    }
}

/// What a new controller meets: why there is none, and how many requests were granted.
fn made(heap: &Heap, from: u64) -> Result<(Result<(), DiskFault>, u64), Fail> {
    let image = vec![in heap; 0u8; 512 * SECTORS]?;
    heap.refuse(Refusals::From(from));
    let made = match Hba::new(heap, image, 32) {
        Ok(_) => Ok(()),
        Err(fault) => Err(fault),
    };
    let granted = heap.requests().saturating_sub(heap.refused());
    heap.refuse(Refusals::None);
    Ok((made, granted))
}

#[test]
fn a_controller_is_made_or_leaves_nothing_behind(rt: HostRuntime) -> Result<(), Fail> {
    let heap = Refusing::new(rt.alloc());
    for growth in 0..MADE {
        let wanted = (Err(DiskFault::OutOfMemory), growth);
        equal(&rt, (0, 0, growth), &made(&heap, growth)?, &wanted);
    }
    equal(&rt, (0, 0, MADE), &made(&heap, MADE)?, &(Ok(()), MADE));
    assert!(rt; heap.out() == 0);
    Ok(())
}

/// Goes through the life of a controller.
fn lives(rt: &impl Abort, heap: &Heap, alloc: Global) -> Result<(), Fail> {
    let mut hba = Hba::new(heap, vec![in heap; 0u8; 512 * SECTORS]?, 32)?;
    let mut guest = Guest::new(alloc, MEMORY)?;
    for (part, pieces) in LIFE.iter().enumerate() {
        let mut number = 0usize;
        for steps in *pieces {
            for step in *steps {
                goes_on(rt, heap, &mut hba, &mut guest, (part, number), *step);
                number = number.wrapping_add(1);
            }
        }
    }
    Ok(())
}

#[test]
fn a_call_without_memory_changes_nothing_and_goes_on_with_it(rt: HostRuntime) -> Result<(), Fail> {
    let heap = Refusing::new(rt.alloc());
    lives(&rt, &heap, rt.alloc())?;
    assert!(rt; heap.out() == 0);
    Ok(())
}
