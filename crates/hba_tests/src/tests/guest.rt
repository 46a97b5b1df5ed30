//! A guest's memory, and what moves bytes between it and the controller.
ghost use Rattle.std.specs.Prelude.{◌≡◌, IfSome, length};

use ahci_hba::{Hba, Slot, Step, Want};
use std::alloc::{AllocError, Allocator, Global};

/// Addresses with memory: the first one, and how many there are.
pub type Stretch = (u64, u32);

/// A guest's memory: some stretches of its addresses, one after the other. No other address is memory.
#[derive(Drop)]
pub struct Guest {
    stretches: &'static [Stretch],
    bytes: Vec<u8>,
}

impl Guest {
    /// Memory of zeros.
    pub fn new(alloc: Global, stretches: &'static [Stretch]) -> Result<Self, AllocError> {
        let mut count = 0u32;
        for (_, length) in stretches {
            count = count.saturating_add(*length);
        }
        let bytes = vec![in alloc; 0u8; count as usize]?;
        Ok(Guest { stretches, bytes })
    }

    /// Where the bytes of an address begin; nothing if some of them are no memory.
    fn place(&self, at: u64, count: usize) -> Option<usize> {
        let mut first = 0usize;
        for (base, length) in self.stretches {
            let inside = at.wrapping_sub(*base);
            if inside.saturating_add(count as u64) <= u64::from(*length) {
                return Some(first.saturating_add(inside as usize));
            }
            first = first.saturating_add(*length as usize);
        }
        None
    }

    /// The bytes from an address on; none if some of them are no memory.
    pub fn get(&self, at: u64, count: usize) -> Option<&[u8]>
        ensures { IfSome result (λ s. length s.now ≡ count) }
    {
        let start = self.place(at, count)?;
        let end = start.checked_add(count)?;
        self.bytes.get(start..end)
    }

    /// Puts bytes at an address; whether all of it is memory.
    pub fn put(&mut self, at: u64, bytes: &[u8]) -> bool {
        let Some(start) = self.place(at, bytes.len()) else {
            return false;
        };
        let Some(end) = start.checked_add(bytes.len()) else {
            return false;
        };
        if end > self.bytes.len() {
            return false;
        }
        self.bytes[start..end].copy_from_slice(bytes);
        true
    }
}

/// Reads once for the controller, if all of that is memory.
pub fn supply<A: Allocator + Copy>(hba: &mut Hba<A>, guest: &Guest) -> Result<(), AllocError> {
    match guest.get(hba.address(), hba.read_length()) {
        Some(bytes) => hba.supply(bytes),
        None => {
            hba.fail_memory();
            Ok(())
        }
    }
}

/// Reads or writes once for the controller; whether it wanted that.
fn turn<A: Allocator + Copy>(hba: &mut Hba<A>, guest: &mut Guest) -> bool {
    match hba.want() {
        Want::Nothing => return false,
        Want::Read => {
            let _ = supply(hba, guest);
        }
        Want::Write if guest.put(hba.address(), hba.bytes()) => hba.written(),
        Want::Write => hba.fail_memory(),
    }
    true
}

/// Moves all that the controller wants to move.
pub fn settle<A: Allocator + Copy>(hba: &mut Hba<A>, guest: &mut Guest) {
    for _ in 0..1000 {
        if !turn(hba, guest) {
            return;
        }
    }
}

/// The slot of a number, modulo 32.
pub fn slot_of(number: u8) -> Slot {
    let Some(slot) = Slot::of(u32::from(number % 32)) else {
        unreachable!()
    };
    slot
}

/// Lets the disk read the command of a slot, and take it if it moves sectors.
pub fn take<A: Allocator + Copy>(hba: &mut Hba<A>, guest: &mut Guest, slot: u8) {
    let slot = slot_of(slot);
    for _ in 0..3 {
        if let Some(Step::Fetch | Step::Send | Step::Accept) = hba.next(slot) {
            let _ = hba.step(slot);
        }
        settle(hba, guest);
    }
}

/// Lets the disk take one step with the command of a slot.
pub fn step<A: Allocator + Copy>(hba: &mut Hba<A>, guest: &mut Guest, slot: u8) {
    let _ = hba.step(slot_of(slot));
    settle(hba, guest);
}

/// Lets the disk take each step with the command of a slot.
pub fn end<A: Allocator + Copy>(hba: &mut Hba<A>, guest: &mut Guest, slot: u8) {
    for _ in 0..20 {
        step(hba, guest, slot);
    }
}
