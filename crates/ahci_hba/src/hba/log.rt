//! How the device answers with pages: logs, SMART and its buffer (ACS-3, "READ LOG EXT", "READ LOG DMA EXT", "SMART" and "READ BUFFER"); and how the logs that
//! are the host's are written.

ghost use Rattle.std.specs.Prelude.{◌≡◌, ◌≤◌, ◌+◌, true, IfErr, IfOk, OnErr, OnOk};
ghost use Rattle.hba_command.specs.{Device.{allows_log, allows_page}, HostLogs.{rewritten}};
ghost use Rattle.hba_command.specs.LongLogs.{long_log_pages};
ghost use Rattle.hba_command.specs.declared.log.Log.TheVariants.{QueuedError};
ghost use Rattle.ahci_hba.specs.Executing.{LogMayLack, disk_page_given, host_log_given, log_given, long_log_in, paged, pages_given};
ghost use Rattle.ahci_hba.specs.Logging.{logging, logs_behind};
ghost use Rattle.ahci_hba.specs.Queueing.{command_at, list_in};
ghost use Rattle.ahci_hba.specs.Storing.{content_in, log_stored, log_taken_by};

use crate::command::Command;
use crate::dma_state::DmaState;
use crate::fault::HbaFault;
use crate::hba::Hba;
use crate::hba::deliver::done;
use crate::hba::execute::aborted;
use crate::transfer::Transfer;
use hba_command::{
    Device, DiskPage, HostLogs, HostPages, Log, LogPages, LongLog, PrdEntry, Protocol,
    after_error_log, after_page, allows_log, allows_page, long_log_page, ready_page, unfailed_page,
};
use hba_memory::{Blocks, has_processed};
use hba_regs::Slot;
use sector_store::SectorStore;
use std::alloc::{AllocError, Allocator};

/// Some pages of a log of several, one after the other.
fn long_log_pages<A: Allocator + Copy>(
    alloc: A,
    log: LongLog,
    sectors: u32,
    depth: u32,
    device: &Device,
    first: u32,
    count: u32,
) -> Result<Vec<u8, A>, AllocError>
    requires deep { 1 ≤ depth }
    requires shallow { depth ≤ 32 }
    requires pages { first + count ≤ 7 }
    ensures { IfOk result (λ v. v.items ≡ long_log_pages log sectors depth device.now first count) }
{
    let mut bytes = Vec::new(alloc);
    for index in 0..count {
        let page = long_log_page(log, first + index, sectors, depth, device);
        bytes.extend_from_slice(&page)?;
    }
    Ok(bytes)
}

impl<A: Allocator + Copy, S: SectorStore> Hba<A, S> {
    /// One page goes to the driver for the command of a slot; the slot is empty.
    fn read_page(
        &mut self,
        slot: Slot,
        protocol: Protocol,
        page: &[u8; 512],
    ) -> Result<(), HbaFault>
        ensures ok { OnOk result (self.new ≡ paged self.old slot protocol (list_in (command_at self.old slot)) page.now) }
        ensures err { IfErr result (λ e. (e ≡ HbaFault.OutOfMemory) × (self.new ≡ self.old)) }
    {
        let page = Vec::from_slice(self.alloc, page)?;
        self.give_page(slot, protocol, page);
        Ok(())
    }

    /// So many pages go to the driver for the command of a slot, by PIO one after the other; the slot is empty.
    fn give_pages(&mut self, slot: Slot, protocol: Protocol, bytes: Vec<u8, A>, count: u32)
        requires { count ≤ 16 }
        ensures { self.new ≡ pages_given self.old slot protocol (list_in (command_at self.old slot)) bytes.items count }
    {
        let (_, list) = self.take_command(slot);
        match protocol {
            Protocol::Pio | Protocol::Multiple => {
                self.begin(slot, false, count, 1, Blocks::new(list, bytes), None);
            }
            Protocol::Dma => self.read_answer(slot, list, bytes, 512 * count, done()),
        }
    }

    /// Some pages of a log of several.
    fn read_long_log(
        &mut self,
        slot: Slot,
        log: LongLog,
        protocol: Protocol,
        pages: &LogPages,
    ) -> Result<(), HbaFault>
        ensures ok { OnOk result (self.new ≡ pages_given self.old slot protocol (list_in (command_at self.old slot)) (long_log_in self.old log pages.now) pages.now.count) }
        ensures err { IfErr result (λ e. (e ≡ HbaFault.OutOfMemory) × (self.new ≡ self.old)) }
    {
        let bytes = long_log_pages(
            self.alloc,
            log,
            self.port.sectors(),
            self.depth,
            &self.device,
            pages.first,
            pages.count,
        )?;
        self.give_pages(slot, protocol, bytes, pages.count);
        Ok(())
    }

    /// Log 10h goes to the driver, with no queued command failed: after it the device aborts no command for a collision.
    fn read_error_log(&mut self, slot: Slot, protocol: Protocol) -> Result<(), HbaFault>
        ensures ok { OnOk result (self.new ≡ log_given self.old slot protocol (list_in (command_at self.old slot)) QueuedError) }
        ensures err { IfErr result (λ e. (e ≡ HbaFault.OutOfMemory) × (self.new ≡ self.old)) }
    {
        let page = unfailed_page(self.device.collision);
        let device = after_error_log(&self.device);
        self.read_page(slot, protocol, &page)?;
        self.keep(device);
        Ok(())
    }

    /// Some pages of a log of the host's go to the driver, by SMART READ LOG only while SMART operations are enabled, else the command is aborted.
    fn read_host_log(
        &mut self,
        slot: Slot,
        protocol: Protocol,
        pages: &HostPages,
    ) -> Result<(), HbaFault>
        ensures ok { OnOk result (self.new ≡ host_log_given self.old slot protocol (list_in (command_at self.old slot)) pages.now) }
        ensures err { IfErr result (λ e. (e ≡ HbaFault.OutOfMemory) × (self.new ≡ self.old)) }
        ensures lacking { OnErr result (allows_log self.old.device pages.now ≡ true) }
    {
        if !allows_log(&self.device, pages) {
            self.conclude(slot, aborted());
            return Ok(());
        }
        let bytes = self.logs.read(self.alloc, pages)?;
        self.give_pages(slot, protocol, bytes, pages.count);
        Ok(())
    }

    /// READ LOG EXT, READ LOG DMA EXT and SMART READ LOG of a log that the disk hasn't ready, with no queued command failed.
    pub(super) fn read_log(
        &mut self,
        slot: Slot,
        log: &Log,
        protocol: Protocol,
    ) -> Result<(), HbaFault>
        ensures ok { OnOk result (self.new ≡ log_given self.old slot protocol (list_in (command_at self.old slot)) log.now) }
        ensures err { IfErr result (λ e. (e ≡ HbaFault.OutOfMemory) × (self.new ≡ self.old)) }
        ensures lacking { OnErr result (LogMayLack self.old log.now) }
    {
        match log {
            Log::QueuedError => self.read_error_log(slot, protocol),
            Log::Pages(log, pages) => self.read_long_log(slot, *log, protocol, pages),
            Log::Host(pages) => self.read_host_log(slot, protocol, pages),
        }
    }

    /// A page that the disk has ready goes to the driver; one of the SMART feature set only while that is enabled, else the command is aborted.
    pub(super) fn read_disk_page(
        &mut self,
        slot: Slot,
        page: DiskPage,
        protocol: Protocol,
    ) -> Result<(), HbaFault>
        ensures ok { OnOk result (self.new ≡ disk_page_given self.old slot protocol (list_in (command_at self.old slot)) page) }
        ensures err { IfErr result (λ e. (e ≡ HbaFault.OutOfMemory) × (self.new ≡ self.old)) }
        ensures lacking { OnErr result (allows_page self.old.device page ≡ true) }
    {
        if !allows_page(&self.device, page) {
            self.conclude(slot, aborted());
            return Ok(());
        }
        let bytes = ready_page(&self.device, page);
        let device = after_page(&self.device, page);
        self.read_page(slot, protocol, &bytes)?;
        self.keep(device);
        Ok(())
    }
}

impl<A: Allocator, S: SectorStore> Hba<A, S> {
    /// The data of the command of a slot that was read.
    pub(super) fn content_in(&self, slot: Slot) -> &[u8]
        ensures { result.now ≡ content_in (command_at self.now slot) }
    {
        match &self.slots[slot.index()] {
            Some(slot) => match &slot.command {
                Command::Fetched(_, _, bytes) => bytes,
                Command::Sent(_, _) => &[],
            },
            None => &[],
        }
    }

    /// The logs of the host's are these from now on.
    fn log(&mut self, logs: HostLogs<A>)
        ensures { self.new ≡ logging self.old logs }
    {
        self.logs = logs;
    }

    /// A transfer has ended that writes a log of the host's, or none.
    pub(super) fn log_behind(&mut self, written: Option<HostLogs<A>>)
        ensures { self.new ≡ logging self.old (logs_behind written self.old.logs) }
    {
        if let Some(logs) = written {
            self.log(logs);
        }
    }
}

impl<A: Allocator + Copy, S: SectorStore> Hba<A, S> {
    /// So many blocks are the data of a log of the host's: by DMA it is written at once, and by PIO when all blocks have come.
    fn take_log(
        &mut self,
        slot: Slot,
        protocol: Protocol,
        list: Vec<PrdEntry, A>,
        blocks: u32,
        logs: HostLogs<A>,
    )
        requires { blocks ≤ 16 }
        ensures { self.new ≡ log_taken_by self.old slot protocol list.items blocks logs }
    {
        match protocol {
            Protocol::Pio | Protocol::Multiple => {
                let rest = Blocks::new(list, Vec::new(self.alloc));
                let transfer = Transfer::new(slot, true, blocks, 1, rest, Some(done()));
                self.turn_to(DmaState::Pio(transfer.writing_log(logs)));
            }
            Protocol::Dma => {
                let processed = has_processed(&list, 512 * blocks);
                self.log(logs);
                self.close(slot, 512 * blocks, processed, done());
            }
        }
    }

    /// The device writes some pages of a log of the host's with the data of the command of a slot: by SMART WRITE LOG only while SMART operations are enabled,
    /// else the command is aborted.
    pub(super) fn write_log(
        &mut self,
        slot: Slot,
        pages: &HostPages,
        protocol: Protocol,
    ) -> Result<(), HbaFault>
        ensures ok { OnOk result (self.new ≡ log_stored self.old slot pages.now protocol (list_in (command_at self.old slot)) (content_in (command_at self.old slot))) }
        ensures err { IfErr result (λ e. (e ≡ HbaFault.OutOfMemory) × (self.new ≡ self.old)) }
        ensures lacking { OnErr result (allows_log self.old.device pages.now ≡ true) }
    {
        if !allows_log(&self.device, pages) {
            self.conclude(slot, aborted());
            return Ok(());
        }
        let bytes = self.content_in(slot);
        let logs = match self.logs.rewritten(self.alloc, pages, bytes) {
            Ok(logs) => logs,
            Err(refused) => return Err(refused.into()),
        };
        let (_, list) = self.take_command(slot);
        self.take_log(slot, protocol, list, pages.count, logs);
        Ok(())
    }
}
