//! What the device does with data that are no sectors (ACS-3, "WRITE BUFFER", "WRITE BUFFER DMA", "DATA SET MANAGEMENT", "WRITE LOG EXT" and "SMART WRITE LOG").

ghost use Rattle.std.specs.Prelude.{◌≡◌, ◌≤◌, true, None, IfErr, OnErr, OnOk, slice_set};
ghost use Rattle.ahci_hba.specs.Queueing.{command_at, list_in};
ghost use Rattle.ahci_hba.specs.Storing.{content_in, kept_at_once, store_fis, stored, taken_by, writes_log};

use crate::command::Command;
use crate::fault::HbaFault;
use crate::hba::Hba;
use crate::hba::deliver::done;
use crate::hba::execute::aborted;
use hba_command::{PrdEntry, Protocol, Store, after_store, blocks_of, leaves_disk};
use hba_memory::{Blocks, has_processed};
use hba_regs::Slot;
use sata_fis::D2h;
use sector_store::SectorStore;
use std::alloc::Allocator;

impl<A: Allocator, S: SectorStore> Hba<A, S> {
    /// The answer to data that are no sectors.
    fn store_fis(&self, store: &Store, bytes: &[u8]) -> D2h
        ensures { result ≡ store_fis self.now.port store.now bytes.now }
    {
        match store {
            Store::Buffer | Store::Log(_) => done(),
            Store::Trim(_) => if leaves_disk(self.port.sectors(), bytes) {
                aborted()
            } else {
                done()
            },
        }
    }
}

impl<A: Allocator + Copy, S: SectorStore> Hba<A, S> {
    /// Takes the list and the data of the command of a slot, and leaves the slot empty.
    fn take_content(&mut self, slot: Slot) -> (Vec<PrdEntry, A>, Vec<u8, A>)
        ensures list { result.0.items ≡ list_in (command_at self.old slot) }
        ensures bytes { result.1.items ≡ content_in (command_at self.old slot) }
        ensures slots { self.new ≡ record self.old { slots = slice_set self.old.slots slot None } }
    {
        match self.slots[slot.index()].take() {
            Some(taken) => match taken.command {
                Command::Fetched(_, list, bytes) => (list, bytes),
                Command::Sent(_, list) => (list, Vec::new(self.alloc)),
            },
            None => (Vec::new(self.alloc), Vec::new(self.alloc)),
        }
    }

    /// The answer to so many blocks that have gone to the device from the runs of a list.
    fn take_by(
        &mut self,
        slot: Slot,
        protocol: Protocol,
        list: Vec<PrdEntry, A>,
        blocks: u32,
        fis: D2h,
    )
        requires { blocks ≤ 255 }
        ensures { self.new ≡ taken_by self.old slot protocol list.items blocks fis }
    {
        match protocol {
            Protocol::Pio | Protocol::Multiple => {
                let rest = Blocks::new(list, Vec::new(self.alloc));
                self.begin(slot, true, blocks, 1, rest, Some(fis));
            }
            Protocol::Dma => {
                let processed = has_processed(&list, 512 * blocks);
                self.close(slot, 512 * blocks, processed, fis);
            }
        }
    }

    /// The device takes the data of the command of a slot, and keeps them at once.
    fn keep_at_once(&mut self, slot: Slot, store: &Store, protocol: Protocol)
        ensures { self.new ≡ kept_at_once self.old slot store.now protocol (list_in (command_at self.old slot)) (content_in (command_at self.old slot)) }
    {
        let (list, bytes) = self.take_content(slot);
        let fis = self.store_fis(store, &bytes);
        let device = after_store(store, &self.device, &bytes);
        self.keep(device);
        self.take_by(slot, protocol, list, blocks_of(store), fis);
    }

    /// The device takes the data of the command of a slot.
    pub(super) fn store(
        &mut self,
        slot: Slot,
        store: &Store,
        protocol: Protocol,
    ) -> Result<(), HbaFault>
        ensures ok { OnOk result (self.new ≡ stored self.old slot store.now protocol (list_in (command_at self.old slot)) (content_in (command_at self.old slot))) }
        ensures err { IfErr result (λ e. (e ≡ HbaFault.OutOfMemory) × (self.new ≡ self.old)) }
        ensures lacking { OnErr result (writes_log self.old.device store.now ≡ true) }
    {
        match store {
            Store::Log(pages) => self.write_log(slot, pages, protocol),
            Store::Buffer | Store::Trim(_) => {
                self.keep_at_once(slot, store, protocol);
                Ok(())
            }
        }
    }
}
