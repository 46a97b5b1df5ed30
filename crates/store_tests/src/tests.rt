mod zero;

ghost use Rattle.std.specs.Prelude.{◌≡◌, length};

use refusing_allocator::{Refusals, Refusing};
use sector_store::{Pages, SectorStore, Whole, Zeros};
use std::alloc::Global;
use std::process::Abort;
use std::test::Fail;

type Heap = Refusing<Global>;

/// 2 TiB in sectors of 512 bytes.
const SECTORS: u64 = 4_294_967_296;

/// The last sector of a leaf. The next one is in another leaf.
const ACROSS: u64 = SECTORS - 4097;

/// What a write of two sectors has.
const WRITTEN: [u8; 1024] = [0x5a; 1024];

/// What two sectors have before it.
const BEFORE: [u8; 1024] = [0; 1024];

/// The requests for memory of a first write there: a branch, two leaves, two pages and a list of their numbers.
const FIRST: u64 = 6;

/// Asserts what two sectors are, as they are now and as they were kept.
fn shows<S: SectorStore>(rt: &impl Abort, store: &S, lba: u64, now: &[u8; 1024], kept: &[u8; 1024])
    requires { length (S.starting store.now) ≡ length (S.image store.now) }
{
    let mut read = [0; 1024];
    let count = store.sectors();
    assert!(rt; lba < count && count - lba >= 2);
    store.read(lba, &mut read);
    assert!(rt; read.as_slice() == now.as_slice());
    store.read_starting(lba, &mut read);
    assert!(rt; read.as_slice() == kept.as_slice());
}

/// Writes two sectors and goes back, then writes and keeps them. Only the reservations take memory.
fn lives<S: SectorStore>(rt: &impl Abort, heap: &Heap, store: &mut S, lba: u64) -> Result<(), Fail>
    requires { length (S.starting store.old) ≡ length (S.image store.old) }
{
    let count = store.sectors();
    assert!(rt; lba < count && count - lba >= 2);
    store.reserve(lba, 2)?;
    heap.refuse(Refusals::From(0));
    store.write(lba, WRITTEN.as_slice());
    shows(rt, store, lba, &WRITTEN, &BEFORE);
    store.restore();
    shows(rt, store, lba, &BEFORE, &BEFORE);
    heap.refuse(Refusals::None);
    store.reserve(lba, 2)?;
    heap.refuse(Refusals::From(0));
    store.write(lba, WRITTEN.as_slice());
    store.keep();
    shows(rt, store, lba, &WRITTEN, &WRITTEN);
    assert!(rt; heap.requests() == 0);
    heap.refuse(Refusals::None);
    Ok(())
}

#[test]
fn a_new_disk_of_2_tib_takes_less_than_a_mebibyte(rt: HostRuntime) -> Result<(), Fail> {
    let heap = Refusing::new(rt.alloc());
    let disk = Pages::new(&heap, Zeros, SECTORS)?;
    assert!(rt; heap.bytes() < 1_048_576);
    assert!(rt; disk.sectors() == SECTORS);
    Ok(())
}

#[test]
fn what_was_reserved_takes_no_more_memory(rt: HostRuntime) -> Result<(), Fail> {
    let heap = Refusing::new(rt.alloc());
    lives(&rt, &heap, &mut Pages::new(&heap, Zeros, SECTORS)?, ACROSS)?;
    let image = vec![in &heap; 0u8; 2048]?;
    lives(&rt, &heap, &mut Whole::new(&heap, image)?, 1)?;
    assert!(rt; heap.out() == 0);
    Ok(())
}

#[test]
fn a_refused_reservation_changes_no_sector(rt: HostRuntime) -> Result<(), Fail> {
    let heap = Refusing::new(rt.alloc());
    for growth in 0..FIRST {
        let mut disk = Pages::new(&heap, Zeros, SECTORS)?;
        let count = disk.sectors();
        assert!(rt; ACROSS < count && count - ACROSS >= 2);
        heap.refuse(Refusals::Only(growth));
        assert!(rt; disk.reserve(ACROSS, 2).is_err());
        shows(&rt, &disk, ACROSS, &BEFORE, &BEFORE);
        heap.refuse(Refusals::None);
        assert!(rt; disk.reserve(ACROSS, 2).is_ok());
    }
    let mut disk = Pages::new(&heap, Zeros, SECTORS)?;
    let count = disk.sectors();
    assert!(rt; ACROSS < count && count - ACROSS >= 2);
    heap.refuse(Refusals::Only(FIRST));
    assert!(rt; disk.reserve(ACROSS, 2).is_ok());
    assert!(rt; heap.requests() == FIRST);
    Ok(())
}
