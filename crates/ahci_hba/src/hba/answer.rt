//! How the device's answers are put together.

ghost use Rattle.std.specs.Prelude.{◌≡◌, ◌≤◌, ◌+◌};
ghost use Rattle.hba_memory.specs.DmaWrites.{listed};
ghost use Rattle.ahci_hba.specs.Moving.{answering, blocking};
ghost use Rattle.ahci_hba.specs.Queueing.{fis_put, only_after};

use crate::dma_state::DmaState;
use crate::ending::Ending;
use crate::hba::Hba;
use crate::hba::memory::{end, end_block};
use crate::transfer::Transfer;
use arrayvec::ArrayVec;
use hba_memory::{DmaWrites, Scatter, SmallPut};
use sector_store::SectorStore;
use std::alloc::Allocator;

/// Where FISes are in the received FIS area (AHCI 1.3.1, section 4.2.1).
pub(super) const DMA_SETUP: u8 = 0x00;

pub(super) const PIO_SETUP: u8 = 0x20;

pub(super) const REGISTER: u8 = 0x40;

pub(super) const SET_BITS: u8 = 0x58;

pub(super) const UNKNOWN: u8 = 0x60;

impl<A: Allocator, S: SectorStore> Hba<A, S> {
    /// The FIS of so many bytes at a place of the port's received FIS area, for the driver's; none while FRE is 0.
    pub(super) fn fis_put(&self, place: u8, length: usize) -> Option<SmallPut>
        requires short { length ≤ 28 }
        requires inside { place + length ≤ 256 }
        ensures { listed result ≡ fis_put self.now.registers self.now.port place length }
    {
        if !self.registers.is_receiving() {
            return None;
        }
        let start = usize::from(place);
        let mut bytes = ArrayVec::new();
        bytes
            .try_extend_from_slice(&self.port.received()[start..start + length])
            .unwrap();
        let address = self
            .registers
            .received_base()
            .wrapping_add(u64::from(place));
        Some(SmallPut::new(address, bytes))
    }

    /// Begins to write an answer; one with nothing to write takes effect at once.
    pub(super) fn answer(&mut self, writes: DmaWrites<A>, ending: Ending)
        ensures { self.new ≡ answering self.old writes ending }
    {
        if writes.is_done() {
            end(&mut self.registers, ending);
            self.turn_to(DmaState::Idle);
        } else {
            self.turn_to(DmaState::Writing(writes, ending));
        }
    }
}

impl<A: Allocator, S: SectorStore> Hba<A, S> {
    /// Begins to write a block of a transfer, which goes on so; one with nothing to write has moved at once.
    pub(super) fn block(&mut self, writes: DmaWrites<A>, transfer: Transfer<A>)
        ensures { self.new ≡ blocking self.old writes transfer }
    {
        if writes.is_done() {
            end_block(&mut self.registers, &transfer);
            self.turn_to(DmaState::Pio(transfer));
        } else {
            self.turn_to(DmaState::Block(writes, transfer));
        }
    }
}

impl<A: Allocator + Copy, S: SectorStore> Hba<A, S> {
    /// An answer of one FIS alone.
    pub(super) fn only_after(&self, fis: Option<SmallPut>) -> DmaWrites<A>
        ensures { result ≡ only_after (listed fis) }
    {
        let content = Scatter::new(Vec::new(self.alloc), Vec::new(self.alloc));
        DmaWrites::new(None, content, None, fis)
    }
}
