//! How the device fails a command that moves sectors (ACS-3, "LBA of first unrecoverable error").

ghost use Rattle.std.specs.Prelude.{false, ◌≡◌, ◌≤◌, ◌<◌, ◌-◌, ◌^◌, true, IfErr, IfOk, OnErr, OnOk};
ghost use Rattle.hba_memory.specs.DmaWrites.{listed};
ghost use Rattle.ncq_core.specs.DiskFis.{setup_bytes};
ghost use Rattle.ahci_port.specs.PortView.{sectors_in};
ghost use Rattle.ahci_hba.specs.Delivering.{received_put};
ghost use Rattle.hba_command.specs.Device.{after_ending};
ghost use Rattle.ahci_hba.specs.Failing.{concluded, ended_with, ending_fis, failed_writes, failure_answered, fails_at, moved_before, moved_sectors, moves_before, moves_some, own_queued, owns, queue_failed, read_failed, sectors_before, sectors_ended, sectors_failed, sectors_of, vacated};
ghost use Rattle.ahci_hba.specs.Queueing.{command_at, list_in};

use crate::command::Command;
use crate::ending::Ending;
use crate::fault::HbaFault;
use crate::hba::Hba;
use crate::hba::answer::{DMA_SETUP, REGISTER, SET_BITS};
use crate::hba::deliver::{d2h_fis, fis_ending, fits};
use crate::last_fis::LastFis;
use ahci_port::Port;
use hba_command::{
    Action, Addressing, Device, PrdEntry, Protocol, Span, addressed, addressing_of, after_ending,
};
use hba_memory::{Blocks, DmaWrites, Scatter, SmallPut, has_processed};
use hba_regs::Slot;
use sata_fis::{D2h, DmaSetup, Fis, Queued};
use sector_store::SectorStore;
use std::alloc::{AllocError, Allocator};

/// The FIS of a status and an error at an LBA, which it names as the command names its own.
fn ending_fis(addressing: Addressing, status: u8, error: u8, lba: u64) -> D2h
    requires { lba < 2 ^ 48 }
    ensures { result ≡ ending_fis addressing status error lba }
{
    addressed(addressing, d2h_fis(status, error, 0, 0), lba)
}

/// How many sectors from an LBA on a read has moved before another one, at most so many: those that the disk has.
fn sectors_before<A: Allocator, S: SectorStore>(
    port: &Port<A, S>,
    first: u64,
    sectors: u32,
    lba: u64,
) -> u32
    ensures value { result ≡ sectors_before port.now first sectors lba }
    ensures most { result ≤ sectors }
    ensures there { result ≤ sectors_in port.now - first }
{
    let there = u64::from(port.sectors()).saturating_sub(first);
    lba.saturating_sub(first).min(u64::from(sectors).min(there)) as u32
}

/// How many sectors of a queued command have moved before it fails at an LBA.
fn moved_sectors<A: Allocator, S: SectorStore>(port: &Port<A, S>, queued: &Queued, lba: u64) -> u32
    ensures value { result ≡ moved_sectors port.now queued.now lba }
    ensures there { result ≤ sectors_in port.now - queued.now.lba }
    ensures most { result ≤ 65536 }
{
    if queued.write {
        return 0;
    }
    sectors_before(port, queued.lba, queued.sectors, lba)
}

/// Some sectors as the image has them now.
#[tactic(auto, using(crate::proofs::FailingLemmas::one_sector_more))]
fn sectors_of<A: Allocator + Copy, S: SectorStore>(
    alloc: A,
    port: &Port<A, S>,
    first: u64,
    sectors: u32,
) -> Result<Vec<u8, A>, AllocError>
    requires first { first < 2 ^ 48 }
    requires there { sectors ≤ sectors_in port.now - first }
    ensures { IfOk result (λ v. v.items ≡ sectors_of port.now first sectors) }
{
    let mut bytes = Vec::new(alloc);
    for index in 0..sectors {
        let mut sector = [0; 512];
        port.copy(first + u64::from(index), &mut sector);
        bytes.extend_from_slice(&sector)?;
    }
    Ok(bytes)
}

impl<A: Allocator + Copy, S: SectorStore> Hba<A, S> {
    /// Empties a slot.
    pub(super) fn vacate(&mut self, slot: Slot)
        ensures { self.new ≡ vacated self.old slot }
    {
        self.slots[slot.index()] = None;
    }

    /// Ends the command of a slot with a D2H Register FIS; the slot is empty.
    pub(super) fn conclude(&mut self, slot: Slot, fis: D2h)
        ensures { self.new ≡ concluded self.old slot fis }
    {
        let last = fis_ending(slot, &fis);
        self.vacate(slot);
        let put = self.received_put(REGISTER, Fis::D2h(fis).encode());
        let writes = self.only_after(put);
        self.answer(writes, Ending::of(true, last));
    }

    /// Some sectors go to the driver for a slot, and then a FIS.
    fn move_before(
        &mut self,
        slot: Slot,
        protocol: Protocol,
        list: Vec<PrdEntry, A>,
        bytes: Vec<u8, A>,
        sectors: u32,
        fis: D2h,
    )
        requires sectors { sectors ≤ 65536 }
        ensures { self.new ≡ moved_before self.old slot protocol list.items bytes.items sectors fis }
    {
        match protocol {
            Protocol::Dma => self.read_answer(slot, list, bytes, 512 * sectors, fis),
            Protocol::Pio | Protocol::Multiple => {
                let rest = Blocks::new(list, bytes);
                self.begin_by(slot, protocol, false, sectors, rest, Some(fis));
            }
        }
    }

    /// A read that is not queued ends before it is done, for a slot: so many sectors from the first one on have moved.
    fn fail_read(
        &mut self,
        slot: Slot,
        protocol: Protocol,
        first: u64,
        sectors: u32,
        fis: D2h,
    ) -> Result<(), HbaFault>
        requires first { first < 2 ^ 48 }
        requires sectors { sectors ≤ 65536 }
        requires there { sectors ≤ sectors_in self.old.port - first }
        ensures ok { OnOk result (self.new ≡ read_failed self.old slot protocol (list_in (command_at self.old slot)) first sectors fis) }
        ensures err { IfErr result (λ e. (e ≡ HbaFault.OutOfMemory) × (self.new ≡ self.old)) }
        ensures lacking { OnErr result (0 < sectors) }
    {
        if sectors == 0 {
            self.conclude(slot, fis);
            return Ok(());
        }
        let bytes = sectors_of(self.alloc, &self.port, first, sectors)?;
        let (_, list) = self.take_command(slot);
        self.move_before(slot, protocol, list, bytes, sectors, fis);
        Ok(())
    }

    /// A command that is not queued and moves sectors fails, for a slot.
    pub(super) fn fail_sectors(
        &mut self,
        slot: Slot,
        write: bool,
        span: &Span,
        protocol: Protocol,
        error: u8,
        lba: u64,
    ) -> Result<(), HbaFault>
        requires lba { lba < 2 ^ 48 }
        ensures ok { OnOk result (self.new ≡ sectors_failed self.old slot (list_in (command_at self.old slot)) write span.now protocol error lba) }
        ensures err { IfErr result (λ e. (e ≡ HbaFault.OutOfMemory) × (self.new ≡ self.old)) }
        ensures lacking { OnErr result (moves_some self.old.port write span.now lba ≡ true) }
    {
        self.end_sectors(slot, write, span, protocol, 0x41, error, lba)
    }

    /// A command that is not queued and moves sectors ends with a status and an error, for a slot, in place of being done.
    fn end_sectors(
        &mut self,
        slot: Slot,
        write: bool,
        span: &Span,
        protocol: Protocol,
        status: u8,
        error: u8,
        lba: u64,
    ) -> Result<(), HbaFault>
        requires lba { lba < 2 ^ 48 }
        ensures ok { OnOk result (self.new ≡ sectors_ended self.old slot (list_in (command_at self.old slot)) write span.now protocol status error lba) }
        ensures err { IfErr result (λ e. (e ≡ HbaFault.OutOfMemory) × (self.new ≡ self.old)) }
        ensures lacking { OnErr result (moves_some self.old.port write span.now lba ≡ true) }
    {
        if write {
            self.conclude(slot, ending_fis(span.addressing, status, error, span.lba));
            return Ok(());
        }
        let sectors = sectors_before(&self.port, span.lba, span.sectors, lba);
        self.fail_read(
            slot,
            protocol,
            span.lba,
            sectors,
            ending_fis(span.addressing, status, error, lba),
        )
    }

    /// A command that is not queued ends with a status and an error, for a slot, in place of being done.
    pub(super) fn end_with(
        &mut self,
        slot: Slot,
        action: &Action,
        status: u8,
        error: u8,
        lba: u64,
    ) -> Result<(), HbaFault>
        requires lba { lba < 2 ^ 48 }
        ensures ok { OnOk result (self.new ≡ ended_with self.old slot (list_in (command_at self.old slot)) action.now status error lba) }
        ensures err { IfErr result (λ e. (e ≡ HbaFault.OutOfMemory) × (self.new ≡ self.old)) }
        ensures lacking { OnErr result (moves_before self.old.port action.now lba ≡ true) }
    {
        match action {
            Action::Sectors {
                write,
                span,
                protocol,
            } => self.end_sectors(slot, *write, span, *protocol, status, error, lba),
            Action::Queue(_) | Action::Page(_, _) | Action::Flush(_) | Action::Reply(_) => {
                self.conclude(slot, ending_fis(addressing_of(action), status, error, lba));
                Ok(())
            }
            Action::Store(_, _) | Action::Control { .. } | Action::Abort => {
                self.conclude(slot, ending_fis(addressing_of(action), status, error, lba));
                Ok(())
            }
        }
    }
}

impl<A: Allocator, S: SectorStore> Hba<A, S> {
    /// The DMA Setup FIS of a queued command of a slot, which is its tag.
    fn queue_setup_put(&self, slot: Slot, queued: &Queued) -> Option<SmallPut>
        ensures { listed result ≡ received_put self.now.registers 0x00 (setup_bytes (record queued.now { tag = slot })) }
    {
        let fis = DmaSetup {
            a: false,
            i: false,
            d: !queued.write,
            tag: slot.number(),
            offset: 0,
            count: 512 * queued.sectors,
        };
        self.received_put(DMA_SETUP, Fis::DmaSetup(fis).encode())
    }
}

impl<A: Allocator + Copy, S: SectorStore> Hba<A, S> {
    /// What the answer to a queued command that fails writes, with the sectors that have moved.
    fn failed_writes(
        &self,
        slot: Slot,
        queued: &Queued,
        list: Vec<PrdEntry, A>,
        bytes: Vec<u8, A>,
        sectors: u32,
    ) -> DmaWrites<A>
        requires sectors { sectors ≤ 65536 }
        ensures { result ≡ failed_writes self.now.registers self.now.port slot queued.now list.items bytes.items sectors }
    {
        let fis = self.fis_put(SET_BITS, 8);
        if sectors == 0 {
            return self.only_after(fis);
        }
        DmaWrites::new(
            self.queue_setup_put(slot, queued),
            Scatter::new(list, bytes),
            None,
            fis,
        )
    }

    /// The answer to a queued command that fails.
    fn answer_failure(
        &mut self,
        slot: Slot,
        queued: &Queued,
        list: Vec<PrdEntry, A>,
        bytes: Vec<u8, A>,
        sectors: u32,
        error: u8,
    )
        requires sectors { sectors ≤ 65536 }
        ensures { self.new ≡ failure_answered self.old self.old.port slot queued.now list.items bytes.items sectors error }
    {
        let whole = sectors == 0 || fits(512 * sectors, &list);
        let processed = has_processed(&list, 512 * sectors);
        let bits = LastFis::Bits {
            status: 0x41,
            error,
            sactive: 0,
        };
        let writes = self.failed_writes(slot, queued, list, bytes, sectors);
        self.answer(writes, Ending::of_data(whole, processed, bits));
    }

    /// The disk behind a queued command that has failed.
    fn device_failed(&self, error: u8) -> Device
        ensures { result ≡ after_ending false 0x41 error self.now.device }
    {
        after_ending(&self.device, false, 0x41, error)
    }

    /// The answer to a queued command that fails, and what the disk keeps of it.
    pub(super) fn fail_queued(
        &mut self,
        slot: Slot,
        queued: &Queued,
        list: Vec<PrdEntry, A>,
        bytes: Vec<u8, A>,
        sectors: u32,
        error: u8,
    )
        requires sectors { sectors ≤ 65536 }
        ensures { self.new ≡ queue_failed self.old self.old.port slot queued.now list.items bytes.items sectors error }
    {
        let device = self.device_failed(error);
        self.answer_failure(slot, queued, list, bytes, sectors, error);
        self.keep(device);
    }

    /// The list of the command of a slot, copied.
    pub(super) fn copy_list(&self, slot: Slot) -> Result<Vec<PrdEntry, A>, AllocError>
        ensures { IfOk result (λ v. v.items ≡ list_in (command_at self.now slot)) }
    {
        match &self.slots[slot.index()] {
            Some(slot) => match &slot.command {
                Command::Fetched(_, list, _) => Vec::from_slice(self.alloc, list),
                Command::Sent(_, list) => Vec::from_slice(self.alloc, list),
            },
            None => Ok(Vec::new(self.alloc)),
        }
    }

    /// The sectors that a queued command has moved before it fails at an LBA, and how many they are.
    pub(super) fn moved_sectors(
        &self,
        queued: &Queued,
        lba: u64,
    ) -> Result<(Vec<u8, A>, u32), AllocError>
        ensures bytes { IfOk result (λ r. r.0.items ≡ sectors_of self.now.port queued.now.lba (moved_sectors self.now.port queued.now lba)) }
        ensures count { IfOk result (λ r. r.1 ≡ moved_sectors self.now.port queued.now lba) }
        ensures most { IfOk result (λ r. r.1 ≤ 65536) }
    {
        let sectors = moved_sectors(&self.port, queued, lba);
        let bytes = sectors_of(self.alloc, &self.port, queued.lba, sectors)?;
        Ok((bytes, sectors))
    }
}

/// Whether an LBA is one of a queued command's sectors.
fn owns(queued: &Queued, lba: u64) -> bool
    ensures { result ≡ owns queued.now lba }
{
    queued.lba <= lba && lba < queued.lba + u64::from(queued.sectors)
}

/// A queued command, if an LBA is one of its sectors.
pub(super) fn own_queued(action: &Action, lba: u64) -> Option<Queued>
    ensures { result ≡ own_queued action.now lba }
{
    match action {
        Action::Queue(queued) => if owns(queued, lba) {
            Some(*queued)
        } else {
            None
        },
        Action::Sectors { .. } | Action::Page(_, _) | Action::Flush(_) | Action::Reply(_) => None,
        Action::Store(_, _) | Action::Control { .. } | Action::Abort => None,
    }
}

/// The LBA that a queued command names if it fails at one of its sectors.
pub(super) fn fails_at(queued: &Queued, lba: u64) -> u64
    ensures { result ≡ fails_at queued.now lba }
{
    if queued.write { queued.lba } else { lba }
}
