//! When sectors become zeros: which memory comes back, and what a refused request leaves.

ghost use Rattle.std.specs.Prelude.{◌≡◌, length};

use super::{ACROSS, Heap, SECTORS};
use ncq_journal::Journal;
use refusing_allocator::{Refusals, Refusing};
use sector_store::{Buffer, Pages, SectorStore, Zeros};
use std::process::Abort;
use std::test::Fail;

/// The sectors of 64 pages.
const COUNT: u64 = 512;

/// The sectors of a small disk over a buffer: five pages of a leaf.
const SMALL: usize = 40;

/// The requests for memory of `zero(3, 34)` there: a branch, a leaf, the pages of both ends, twice a list of five numbers, and the journal's room.
const REQUESTS: u64 = 7;

/// Reserves and writes the first sectors.
fn fills<S: SectorStore>(rt: &impl Abort, store: &mut S, bytes: &[u8]) -> Result<(), Fail>
    requires { length (S.starting store.old) ≡ length (S.image store.old) }
    ensures { length (S.starting store.new) ≡ length (S.image store.new) }
{
    assert!(rt; bytes.len() == 262_144 && COUNT <= store.sectors());
    store.reserve(0, COUNT)?;
    store.write(0, bytes);
    Ok(())
}

/// Asserts that the sectors from the first number to the second are zeros, and every other of the first ones has what was written.
fn shows<S: SectorStore>(rt: &impl Abort, store: &S, count: u64, from: u64, to: u64) {
    let mut read = [0; 512];
    for lba in 0..count {
        assert!(rt; lba < store.sectors());
        store.read(lba, &mut read);
        let byte = if from <= lba && lba < to { 0 } else { 0xa5 };
        assert!(rt; read == [byte; 512], "at {lba}");
    }
}

/// Makes sectors zeros with no more memory, and returns how many blocks come back by that.
fn blocks_of<S: SectorStore>(
    rt: &impl Abort,
    heap: &Heap,
    store: &mut S,
    lba: u64,
    sectors: u64,
) -> Result<u64, Fail>
    requires { length (S.starting store.old) ≡ length (S.image store.old) }
    ensures { length (S.starting store.new) ≡ length (S.image store.new) }
{
    let count = store.sectors();
    assert!(rt; lba <= count && sectors <= count - lba);
    let before = heap.out();
    heap.refuse(Refusals::From(0));
    store.zero(lba, sectors, &mut Journal::new(heap), 0)?;
    assert!(rt; heap.requests() == 0);
    heap.refuse(Refusals::None);
    let after = heap.out();
    assert!(rt; after <= before);
    Ok(before - after)
}

#[test]
fn pages_that_become_zeros_give_their_memory_back(rt: HostRuntime) -> Result<(), Fail> {
    let heap = Refusing::new(rt.alloc());
    let bytes = vec![in rt.alloc(); 0xa5u8; 262_144]?;
    let mut disk = Pages::new(&heap, Zeros, SECTORS)?;
    fills(&rt, &mut disk, bytes.as_slice())?;
    assert!(rt; blocks_of(&rt, &heap, &mut disk, 0, COUNT)? == 64);
    shows(&rt, &disk, COUNT, 0, COUNT);
    fills(&rt, &mut disk, bytes.as_slice())?;
    assert!(rt; blocks_of(&rt, &heap, &mut disk, 1, COUNT - 2)? == 62);
    shows(&rt, &disk, COUNT, 1, COUNT - 1);
    Ok(())
}

/// Zeros, back to what was kept, and zeros that are kept: only the last gives 64 pages back.
fn keeps<S: SectorStore>(
    rt: &impl Abort,
    heap: &Heap,
    store: &mut S,
    bytes: &[u8],
) -> Result<(), Fail>
    requires { length (S.starting store.old) ≡ length (S.image store.old) }
{
    fills(rt, store, bytes)?;
    store.keep();
    assert!(rt; blocks_of(rt, heap, store, 0, COUNT)? == 0);
    store.restore();
    shows(rt, store, COUNT, 0, 0);
    assert!(rt; blocks_of(rt, heap, store, 0, COUNT)? == 0);
    let before = heap.out();
    store.keep();
    let after = heap.out();
    assert!(rt; after <= before && before - after == 64);
    shows(rt, store, COUNT, 0, COUNT);
    Ok(())
}

#[test]
fn pages_that_were_kept_give_it_back_at_the_next_keep(rt: HostRuntime) -> Result<(), Fail> {
    let heap = Refusing::new(rt.alloc());
    let bytes = vec![in rt.alloc(); 0xa5u8; 262_144]?;
    keeps(
        &rt,
        &heap,
        &mut Pages::new(&heap, Zeros, SECTORS)?,
        bytes.as_slice(),
    )
}

#[test]
fn sectors_that_were_never_written_take_no_memory(rt: HostRuntime) -> Result<(), Fail> {
    let heap = Refusing::new(rt.alloc());
    let mut disk = Pages::new(&heap, Zeros, SECTORS)?;
    assert!(rt; blocks_of(&rt, &heap, &mut disk, ACROSS - 3, 4093)? == 0);
    assert!(rt; blocks_of(&rt, &heap, &mut disk, 65_535, 65_535)? == 0);
    Ok(())
}

#[test]
fn zeros_over_a_buffer_take_no_page_but_at_their_ends(rt: HostRuntime) -> Result<(), Fail> {
    let heap = Refusing::new(rt.alloc());
    let below = [0xa5; SMALL * 512];
    for growth in 0..REQUESTS {
        let mut disk = Pages::new(&heap, Buffer::new(below.as_slice()), SMALL as u64)?;
        let mut journal = Journal::new(&heap);
        assert!(rt; disk.sectors() == SMALL as u64);
        heap.refuse(Refusals::Only(growth));
        assert!(rt; disk.zero(3, 34, &mut journal, 1).is_err());
        shows(&rt, &disk, SMALL as u64, 0, 0);
        heap.refuse(Refusals::None);
        assert!(rt; disk.zero(3, 34, &mut journal, 1).is_ok());
        shows(&rt, &disk, SMALL as u64, 3, 37);
    }
    let mut disk = Pages::new(&heap, Buffer::new(below.as_slice()), SMALL as u64)?;
    assert!(rt; disk.sectors() == SMALL as u64);
    heap.refuse(Refusals::Only(REQUESTS));
    assert!(rt; disk.zero(3, 34, &mut Journal::new(&heap), 1).is_ok());
    assert!(rt; heap.requests() == REQUESTS);
    Ok(())
}
