//! What a driver, its disk and its memory do, as the rows of a table.

use crate::tests::guest::{Guest, Stretch, end, settle, slot_of, step, take};
use crate::tests::registers::{PX_CI, PX_CLB, PX_CLBU, PX_FB, PX_FBU, PX_SACT};
use ahci_hba::{AccessSize, Capabilities, Hba};
use ahci_port::{EventKind, TrimFault};
use std::alloc::{Allocator, Global};
use std::fmt::Debug;
use std::process::Abort;
use std::test::Fail;

/// The entries of a PRDT: each one's address and how many bytes it has, with I in bit 31.
#[derive(Clone, Copy, Debug)]
pub enum Pieces {
    These(&'static [(u64, u32)]),
    /// So many of so many bytes, one below the other from this address.
    Down(u64, u32, u32),
    /// So many, one above the other.
    Up(u64, u32, u32),
}

/// What happens, or what is seen.
#[derive(Clone, Copy, Debug)]
pub enum Row {
    /// The driver reads this value at an offset.
    Reads(u32, u32),
    /// The driver reads this value in the bits of the mask, which comes before it.
    ReadsBits(u32, u32, u32),
    /// The driver writes this value at an offset.
    Writes(u32, u32),
    /// The driver lays out a command (AHCI 1.3.1, sections 4.2.2 and 4.2.3): its slot, dword 0 of the header, the table's address, bytes 0 to
    /// 15 of the command FIS, four of them in a word and the first one uppermost, and the PRDT.
    Lays(u8, u32, u64, [u32; 4], Pieces),
    /// The driver lays out a command as `Lays` does, and sets the bit of its slot in PxCI (AHCI 1.3.1, section 5.5.1).
    Issues(u8, u32, u64, [u32; 4], Pieces),
    /// The same of a queued command, whose bit of PxSACT the driver sets first.
    Queues(u8, u32, u64, [u32; 4], Pieces),
    /// The driver puts so many bytes of one value at an address.
    Fills(u64, u32, u8),
    /// The disk sends its signature.
    Signs,
    /// The controller reads the command of a slot.
    Fetches(u8),
    /// The controller reads the command of a slot, and the disk takes it if it moves sectors.
    Takes(u8),
    /// The disk takes one step with the command of a slot.
    Steps(u8),
    /// The disk takes so many steps with the command of a slot.
    StepsBy(u8, u8),
    /// The disk does all of the command of a slot.
    Does(u8),
    /// The disk fails the command of a slot that it has taken, with an error byte at a sector.
    Fails(u8, u8, u64),
    /// The disk fails the command of a slot that it has read and that is not queued, with an error byte at a sector.
    Refuses(u8, u8, u64),
    /// Memory has these bytes at an address.
    Has(u64, &'static [u8]),
    /// The received FIS area has a D2H Register FIS with I 1, this status, error, low byte of the LBA, and count.
    Answered(u8, u8, u8, u8),
    /// The received FIS area has a PIO Setup FIS with this byte of I and D, status 48h, this E_Status, and so many bytes.
    PioSetup(u8, u8, u16),
    /// Memory has so many bytes of one value at an address.
    HasAll(u64, u32, u8),
    /// A sector of the disk has one value in all its bytes.
    Sector(u64, u8),
    /// The last entry of the journal.
    Last(EventKind),
    /// The level of the interrupt line.
    Interrupt(bool),
}

/// What a story shows, how many sectors of zeros and which queue depth its disk has, the guest's memory, and its rows in parts.
#[derive(Clone, Copy)]
pub struct Story {
    pub name: &'static str,
    pub sectors: u32,
    pub depth: u32,
    pub memory: &'static [Stretch],
    pub parts: &'static [&'static [Row]],
}

/// A row, by its story's name, its part, and its number there.
pub type Place = (&'static str, usize, usize);

/// Compares what was found at a row with what the row wants.
pub fn equal<T: PartialEq + Debug>(rt: &impl Abort, place: Place, found: &T, wanted: &T) {
    assert_eq!(rt; *found, *wanted, "at row {place:?}");
}

/// Reads a register.
pub fn read<A: Allocator + Copy>(hba: &Hba<A>, offset: u32) -> u32 {
    u32::try_from(hba.read(offset, AccessSize::Four)).unwrap_or(0)
}

/// Writes a register.
pub fn write<A: Allocator + Copy>(hba: &mut Hba<A>, offset: u32, value: u32) {
    let _journal = hba.write(offset, AccessSize::Four, u64::from(value));
}

/// Where the command list begins.
fn list_at<A: Allocator + Copy>(hba: &Hba<A>) -> u64 {
    u64::from(read(hba, PX_CLB)) | (u64::from(read(hba, PX_CLBU)) << 32)
}

/// Where the received FIS area begins.
fn received_at<A: Allocator + Copy>(hba: &Hba<A>) -> u64 {
    u64::from(read(hba, PX_FB)) | (u64::from(read(hba, PX_FBU)) << 32)
}

/// Puts an entry of a PRDT.
fn put_piece(guest: &mut Guest, at: u64, address: u64, bytes: u32) {
    let count = bytes.wrapping_sub(1);
    let _ = guest.put(at, &address.to_le_bytes());
    let _ = guest.put(at.wrapping_add(12), &count.to_le_bytes());
}

/// The address and the bytes of an entry.
fn piece(pieces: Pieces, number: u32) -> Option<(u64, u32)> {
    match pieces {
        Pieces::These(list) => list.get(number as usize).copied(),
        Pieces::Down(first, count, bytes) if number < count => {
            let below = u64::from(number).wrapping_mul(u64::from(bytes));
            Some((first.wrapping_sub(below), bytes))
        }
        Pieces::Up(first, count, bytes) if number < count => {
            let above = u64::from(number).wrapping_mul(u64::from(bytes));
            Some((first.wrapping_add(above), bytes))
        }
        _ => None,
    }
}

/// Lays out the table of a command.
fn lay_table(guest: &mut Guest, table: u64, fis: [u32; 4], pieces: Pieces) {
    for (word, place) in fis.iter().zip([0u64, 4, 8, 12]) {
        let _ = guest.put(table.wrapping_add(place), &word.to_be_bytes());
    }
    for number in 0..200u32 {
        let at = table.wrapping_add(0x80 + 16 * u64::from(number));
        if let Some((address, bytes)) = piece(pieces, number) {
            put_piece(guest, at, address, bytes);
        }
    }
}

/// Lays out the header of a command, with PRDBC 0.
fn lay_header(guest: &mut Guest, at: u64, word: u32, table: u64) {
    let _ = guest.put(at, &word.to_le_bytes());
    let _ = guest.put(at.wrapping_add(4), &[0; 4]);
    let _ = guest.put(at.wrapping_add(8), &table.to_le_bytes());
}

/// Lays out the command of a slot: dword 0 of its header with the address of its table, its command FIS and its PRDT.
fn lay<A: Allocator + Copy>(
    hba: &Hba<A>,
    guest: &mut Guest,
    slot: u8,
    header: (u32, u64),
    fis: [u32; 4],
    pieces: Pieces,
) {
    let (word, table) = header;
    let at = list_at(hba).wrapping_add(32 * u64::from(slot));
    lay_header(guest, at, word, table);
    lay_table(guest, table, fis, pieces);
}

/// The bit of a slot.
fn bit_of(slot: u8) -> u32 {
    1u32.wrapping_shl(u32::from(slot))
}

/// Puts so many bytes of one value at an address.
fn fill(guest: &mut Guest, at: u64, count: u32, byte: u8) {
    for number in 0..u64::from(count) {
        let _ = guest.put(at.wrapping_add(number), &[byte]);
    }
}

/// How many of so many bytes at an address have one value.
fn alike(guest: &Guest, at: u64, count: u32, byte: u8) -> usize {
    match guest.get(at, count as usize) {
        Some(bytes) => bytes.iter().filter(|it| **it == byte).count(),
        None => 0,
    }
}

/// The value that all bytes of a sector have.
fn sector_byte<A: Allocator + Copy>(hba: &Hba<A>, lba: u64) -> Option<u8> {
    let mut sector = [0; 512];
    if lba >= u64::from(hba.port().sectors()) {
        return None;
    }
    hba.port().copy(lba, &mut sector);
    let first = sector[0];
    sector.iter().all(|it| *it == first).then_some(first)
}

/// Lets the driver or the disk do what a row says.
pub fn acts<A: Allocator + Copy>(hba: &mut Hba<A>, guest: &mut Guest, row: Row) {
    match row {
        Row::Writes(offset, value) => write(hba, offset, value),
        Row::Lays(slot, word, table, fis, pieces) => {
            lay(hba, guest, slot, (word, table), fis, pieces);
        }
        Row::Issues(slot, word, table, fis, pieces) => {
            lay(hba, guest, slot, (word, table), fis, pieces);
            write(hba, PX_CI, bit_of(slot));
        }
        Row::Queues(slot, word, table, fis, pieces) => {
            lay(hba, guest, slot, (word, table), fis, pieces);
            write(hba, PX_SACT, bit_of(slot));
            write(hba, PX_CI, bit_of(slot));
        }
        Row::Fills(at, count, byte) => fill(guest, at, count, byte),
        Row::Signs => {
            let _ = hba.sign();
            settle(hba, guest);
        }
        Row::Fetches(slot) => {
            let _ = hba.fetch(slot_of(slot));
            settle(hba, guest);
        }
        Row::Takes(slot) => take(hba, guest, slot),
        Row::Steps(slot) => step(hba, guest, slot),
        Row::StepsBy(slot, count) => {
            for _ in 0..count {
                step(hba, guest, slot);
            }
        }
        Row::Does(slot) => end(hba, guest, slot),
        Row::Fails(slot, error, lba) => {
            let _ = hba.fail(slot_of(slot), error, lba);
            settle(hba, guest);
        }
        Row::Refuses(slot, error, lba) if lba < 1 << 48 => {
            let _ = hba.refuse(slot_of(slot), error, lba);
            settle(hba, guest);
        }
        _ => {}
    }
}

/// Compares what a row sees.
pub fn sees<A: Allocator + Copy>(
    rt: &impl Abort,
    hba: &Hba<A>,
    guest: &Guest,
    place: Place,
    row: Row,
) {
    match row {
        Row::Reads(offset, value) => equal(rt, place, &read(hba, offset), &value),
        Row::ReadsBits(offset, mask, value) => {
            equal(rt, place, &(read(hba, offset) & mask), &value);
        }
        Row::Has(at, bytes) => equal(rt, place, &guest.get(at, bytes.len()), &Some(bytes)),
        Row::Answered(status, error, lba, count) => {
            let fis = [
                0x34, 0x40, status, error, lba, 0, 0, 0, 0, 0, 0, 0, count, 0,
            ];
            let found = guest.get(received_at(hba).wrapping_add(0x40), 14);
            equal(rt, place, &found, &Some(&fis[..]));
        }
        Row::PioSetup(bits, e_status, count) => {
            let [low, high] = count.to_le_bytes();
            let fis = [
                0x5F, bits, 0x48, 0, 0, 0, 0, 0, 0, 0, 0, 0, 0, 0, 0, e_status, low, high, 0, 0,
            ];
            let found = guest.get(received_at(hba).wrapping_add(0x20), 20);
            equal(rt, place, &found, &Some(&fis[..]));
        }
        Row::HasAll(at, count, byte) => {
            equal(rt, place, &alike(guest, at, count, byte), &(count as usize));
        }
        Row::Sector(lba, byte) => equal(rt, place, &sector_byte(hba, lba), &Some(byte)),
        Row::Last(kind) => {
            let last = hba.port().journal().entries().last();
            equal(rt, place, &last.map(|event| event.kind()), &Some(kind));
        }
        Row::Interrupt(level) => equal(rt, place, &hba.interrupt(), &level),
        _ => {}
    }
}

/// A controller and its guest.
#[derive(Drop)]
pub struct Player {
    hba: Hba,
    guest: Guest,
}

impl Player {
    /// A controller after power-on, with a disk of so many sectors of zeros that queues so many commands.
    pub fn new(
        alloc: Global,
        sectors: u32,
        depth: u32,
        memory: &'static [Stretch],
    ) -> Result<Self, Fail> {
        let image = vec![in alloc; 0u8; 512 * (sectors % 131_072) as usize]?;
        Ok(Player {
            hba: Hba::new(alloc, image, depth)?,
            guest: Guest::new(alloc, memory)?,
        })
    }

    /// The same of a story, with these capabilities.
    pub fn with_capabilities(
        alloc: Global,
        story: &Story,
        capabilities: Capabilities,
    ) -> Result<Self, Fail> {
        let image = vec![in alloc; 0u8; 512 * (story.sectors % 131_072) as usize]?;
        Ok(Player {
            hba: Hba::with_capabilities(alloc, image, story.depth, capabilities)?,
            guest: Guest::new(alloc, story.memory)?,
        })
    }

    /// Plays rows, the part of a story with this name and number.
    pub fn play(&mut self, rt: &impl Abort, name: &'static str, part: usize, rows: &[Row]) {
        for (number, row) in rows.iter().enumerate() {
            acts(&mut self.hba, &mut self.guest, *row);
            sees(rt, &self.hba, &self.guest, (name, part, number), *row);
        }
    }

    /// Trims the journal: how many entries it had.
    pub fn trim(&mut self) -> Result<u64, TrimFault> {
        match self.hba.trim() {
            Ok(journal) => Ok(journal.len()),
            Err(fault) => Err(fault),
        }
    }

    /// Powers the controller on again: how many entries the journal had, if it is handed out.
    pub fn power_on(&mut self) -> Option<u64> {
        self.hba.power_on().map(|journal| journal.len())
    }

    /// The numbers of the journal's first entry and of the next one.
    pub fn numbers(&self) -> (u64, u64) {
        let journal = self.hba.port().journal();
        (journal.first(), journal.end())
    }
}

/// Plays a story from power-on.
pub fn plays(rt: &impl Abort, alloc: Global, story: &Story) -> Result<(), Fail> {
    let mut player = Player::new(alloc, story.sectors, story.depth, story.memory)?;
    for (part, rows) in story.parts.iter().enumerate() {
        player.play(rt, story.name, part, rows);
    }
    Ok(())
}
