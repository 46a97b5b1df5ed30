//! How much memory a command takes when its command FIS is read: room for the entries of its PRDT, and for the bytes of a write.

use crate::tests::guest::{Guest, slot_of, supply};
use crate::tests::player::Pieces::These;
use crate::tests::player::Row::Lays;
use crate::tests::player::{Pieces, Row, acts, write};
use crate::tests::registers::PX_CI;
use crate::tests::settings::{MEMORY, ONE, OTHER, READ, SECTOR, START, WRITE};
use crate::tests::shown::{Heap, SECTORS};
use ahci_hba::Hba;
use refusing_allocator::{Refusals, Refusing};
use std::process::Abort;
use std::test::Fail;

/// How many bytes an entry has in memory: its address, its count, and I.
const ENTRY: u64 = 16;

/// Dword 0 of a header with CFL 5 and as many entries as PRDTL counts.
const MOST: u32 = 0xFFFF_0005;

/// Three entries, which have more bytes than a sector.
const THREE: Pieces = These(&[(0x8000, 256), (0x9000, 256), (0xA000, 256)]);

/// A command, and how many bytes its PRDT and its data take.
static AMOUNTS: [(Row, u64); 5] = [
    (Lays(1, ONE, OTHER, READ, SECTOR), ENTRY),
    (Lays(1, ONE, OTHER, WRITE, SECTOR), ENTRY + 512),
    (Lays(1, 0x0003_0005, OTHER, READ, THREE), 3 * ENTRY),
    (Lays(1, 0x0003_0005, OTHER, WRITE, THREE), 3 * ENTRY + 512),
    (Lays(1, MOST, OTHER, READ, SECTOR), 65_535 * ENTRY),
];

/// How many bytes are asked for when the command FIS of slot 1 is read.
fn taken(heap: &Heap, hba: &mut Hba<&Heap>, guest: &mut Guest, command: Row) -> Result<u64, Fail> {
    for row in START {
        acts(hba, guest, *row);
    }
    acts(hba, guest, command);
    write(hba, PX_CI, 2);
    let _ = hba.fetch(slot_of(1));
    supply(hba, guest)?; // the header
    heap.refuse(Refusals::None);
    supply(hba, guest)?;
    Ok(heap.bytes())
}

#[test]
fn a_command_takes_room_for_its_entries_and_its_data(rt: HostRuntime) -> Result<(), Fail> {
    for (number, (command, bytes)) in AMOUNTS.iter().enumerate() {
        let heap = Refusing::new(rt.alloc());
        let mut hba = Hba::new(&heap, vec![in &heap; 0u8; 512 * SECTORS]?, 32)?;
        let mut guest = Guest::new(rt.alloc(), MEMORY)?;
        let found = taken(&heap, &mut hba, &mut guest, *command)?;
        assert_eq!(&rt; found, *bytes, "command {number}");
    }
    Ok(())
}
