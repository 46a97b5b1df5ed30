//! How sectors become zeros (ACS-3, DATA SET MANAGEMENT with TRIM).

ghost use Rattle.std.specs.Prelude.{◌≡◌, ◌&&◌, false, IfErr, OnErr, OnOk};
ghost use Rattle.ahci_port.specs.{Faults.{AnswersOr, lacks_sectors, run_refusal, zero_fault_of, zero_refusal}, Steps.{IsZeroed, LacksRoom}};

use crate::fault::{PlainFault, ZeroFault};
use crate::port::{Port, ROOM};
use ncq_journal::Event;
use sector_store::SectorStore;
use std::alloc::Allocator;

/// The fault of a command that is not queued as that of a call that makes sectors zeros.
fn zero_fault_of(fault: PlainFault) -> ZeroFault
    ensures { result ≡ zero_fault_of fault }
{
    match fault {
        PlainFault::Halted => ZeroFault::Halted,
        PlainFault::QueueBusy => ZeroFault::QueueBusy,
        PlainFault::OutOfMemory => ZeroFault::OutOfMemory,
    }
}

/// Whether there are no sectors, or not all of them are those of a disk of so many.
fn lacks_sectors(size: u32, lba: u64, sectors: u32) -> bool
    ensures { result ≡ lacks_sectors size lba sectors }
{
    let size = u64::from(size);
    sectors == 0 || lba > size || u64::from(sectors) > size - lba
}

impl<A: Allocator, S: SectorStore> Port<A, S> {
    /// Makes so many sectors from an LBA on zeros, and gives the memory back that the store no longer needs for them. The journal has one
    /// entry more; registers, received FIS area and slots stay, since whoever carries the command out sends its FISes.
    ///
    /// # Errors
    /// `Halted` and `QueueBusy` as for `flush`, `SlotOwned` if some slot has a request, `NoSuchSector` if there are no sectors or not all of them
    /// are the disk's; else `OutOfMemory` if room for the entries that follow, or memory that the store needs, could not be allocated. Nothing has changed.
    pub fn zero(&mut self, lba: u64, sectors: u32) -> Result<(), ZeroFault>
        ensures zeroed { OnOk result (IsZeroed lba sectors self.old self.new) }
        ensures fault { AnswersOr result (zero_refusal self.old lba sectors) ZeroFault.OutOfMemory }
        ensures lacking { IfErr result (λ e. e ≡ ZeroFault.OutOfMemory → (S.can_grow && self.old.grows) ≡ false → LacksRoom self.old) }
        ensures err { OnErr result (self.new ≡ self.old) }
    {
        if let Some(fault) = self.zero_fault(lba, sectors) {
            return Err(fault);
        }
        self.disk
            .zero(lba, u64::from(sectors), &mut self.journal, ROOM)?;
        self.journal.push_reserved(Event::Zero { lba, sectors });
        Ok(())
    }

    /// Why sectors would not be made zeros, memory aside.
    pub fn zero_fault(&self, lba: u64, sectors: u32) -> Option<ZeroFault>
        ensures { result ≡ zero_refusal self.now lba sectors }
    {
        match self.plain_fault() {
            Some(fault) => Some(zero_fault_of(fault)),
            None => self.run_fault(lba, sectors),
        }
    }

    /// Why these sectors would not be, while the port runs and no tag is busy.
    fn run_fault(&self, lba: u64, sectors: u32) -> Option<ZeroFault>
        ensures { result ≡ run_refusal self.now lba sectors }
    {
        if !self.is_vacant() {
            return Some(ZeroFault::SlotOwned);
        }
        if lacks_sectors(self.sectors(), lba, sectors) {
            return Some(ZeroFault::NoSuchSector);
        }
        None
    }
}
