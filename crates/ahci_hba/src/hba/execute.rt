//! What the device does with a command that is not queued (ACS-3, by the commands' titles).

ghost use Rattle.std.specs.Prelude.{◌≡◌, ◌-◌, ◌<◌, ◌^◌, true, false, None, IfErr, IfSome, OnErr, OnOk, slice_set};
ghost use Rattle.std.specs.List.{list_any};
ghost use Rattle.ahci_hba.specs.Queueing.{command_at, has_queued, list_in, task_in};
ghost use Rattle.ahci_hba.specs.Stepping.{fault_if, is_answered, is_answered_at, may_execute};
ghost use Rattle.ahci_port.specs.{Faults.{plain_refusal}, PortView.{sectors_in}, Steps.{LacksRoom}};
ghost use Rattle.ahci_hba.specs.Failing.{concluded, moves_some};
ghost use Rattle.ahci_hba.specs.Keeping.{device_ended, keeping};
ghost use Rattle.ahci_hba.specs.Delivering.{aborted};
ghost use Rattle.ahci_hba.specs.Executing.{Flushes, Identifies, IsExecuted, MayLack, MayLackAt, Performs, changed_fis, changed_lba, first_missing, found_all, is_aborted, is_alone_fetched, native_max, paged, reads_error_log, replied, reply_fis, signed, smart_fis, stopped, stops_at, verified};

use crate::command::Command;
use crate::fault::HbaFault;
use crate::hba::Hba;
use crate::hba::deliver::{d2h_fis, done};
use crate::hba::fetch::is_alone;
use ahci_port::PlainFault;
use hba_command::{
    Action, Addressing, Change, Log, Page, Protocol, Reply, Span, Task, action_of, addressed,
    allows, controller_page, power_count, reached,
};
use hba_regs::Slot;
use sata_fis::D2h;
use sector_store::SectorStore;
use std::alloc::Allocator;

/// A command is aborted.
pub(super) fn aborted() -> D2h
    ensures { result ≡ aborted }
{
    d2h_fis(0x41, 0x04, 0, 0)
}

/// The signature of a disk is in LBA and count (Serial ATA, "Signature").
fn signed(status: u8, error: u8) -> D2h
    ensures { result ≡ signed status error }
{
    d2h_fis(status, error, 1, 1)
}

/// LBA 23:8 of the answer to a change: C24Fh, of a captive self-test, says that it has found no error.
fn changed_lba(change: &Change) -> u64
    ensures value { result ≡ changed_lba change.now }
    ensures fits { result < 2 ^ 48 }
{
    match change {
        Change::Test(subcommand) => if *subcommand >= 0x80 { 0xC2_4F00 } else { 0 },
        Change::WriteCache(_) | Change::LookAhead(_) | Change::PowerLevel(_) => 0,
        Change::Reverting(_) | Change::DmaMode(_) | Change::Multiple(_) => 0,
        Change::Smart(_) | Change::NothingSmart => 0,
    }
}

impl<A: Allocator, S: SectorStore> Hba<A, S> {
    /// The first sector that is not on the disk, or that the command does not reach, of some of which that is true.
    fn first_missing(&self, span: &Span) -> u64
        ensures value { result ≡ first_missing self.now.port span.now }
        ensures fits { result < 2 ^ 48 }
    {
        span.lba
            .max(reached(span.addressing, u64::from(self.port.sectors())))
    }

    /// The answer to a command that names sectors and moves nothing: IDNF names the first one that is not on the disk.
    pub(super) fn found_all(&self, span: &Span) -> D2h
        ensures { result ≡ found_all self.now.port span.now }
    {
        if self.is_on(span) {
            return done();
        }
        addressed(
            span.addressing,
            d2h_fis(0x41, 0x10, 0, 0),
            self.first_missing(span),
        ) // IDNF
    }

    /// The answer to a read that moves nothing: UNC names the first sector that is marked.
    fn verified(&self, span: &Span) -> D2h
        ensures { result ≡ verified self.now span.now }
    {
        match self.marked_on(span.addressing, span.lba, span.sectors) {
            None => self.found_all(span),
            Some(lba) => addressed(span.addressing, d2h_fis(0x41, 0x40, 0, 0), lba), // UNC
        }
    }

    /// The LBA of the last sector, of 28 bits at most FFF_FFFFh.
    fn native_max(&self, addressing: Addressing) -> u64
        ensures value { result ≡ native_max addressing self.now.port }
        ensures fits { result < 2 ^ 48 }
    {
        self.port.shape();
        let last = u64::from(self.port.sectors()) - 1;
        match addressing {
            Addressing::Bits28 => last.min(0x0FFF_FFFF),
            Addressing::Bits48 => last,
        }
    }

    /// A change is made, or the command is aborted if it isn't possible.
    fn changed_fis(&self, change: &Change) -> D2h
        ensures { result ≡ changed_fis self.now.device change.now }
    {
        if allows(&self.device, change) {
            d2h_fis(0x40, 0, changed_lba(change), 0)
        } else {
            aborted()
        }
    }

    /// SMART RETURN STATUS: no attribute has exceeded its threshold; aborted while SMART operations are disabled.
    fn smart_fis(&self) -> D2h
        ensures { result ≡ smart_fis self.now.device }
    {
        if self.device.smart {
            d2h_fis(0x40, 0, 0xC2_4F00, 0)
        } else {
            aborted()
        }
    }

    /// The answer to a command that moves nothing.
    fn reply_fis(&self, reply: &Reply) -> D2h
        ensures { result ≡ reply_fis self.now reply.now }
    {
        match reply {
            Reply::Done | Reply::Entered(_) => done(),
            Reply::Verified(span) => self.verified(span),
            Reply::Marked(span) => self.marked_fis(span),
            Reply::NativeMax(addressing) => {
                addressed(*addressing, done(), self.native_max(*addressing))
            }
            Reply::PowerMode => d2h_fis(0x40, 0, 0, power_count(self.power)),
            Reply::Changed(change) => self.changed_fis(change),
            Reply::SmartStatus => self.smart_fis(),
            Reply::Diagnosed => signed(0x40, 0x01), // the device has passed
            Reply::Packet => signed(0x41, 0x04),
        }
    }
}

/// Whether a command reads the log of failed queued commands.
fn reads_error_log(action: &Action) -> bool
    ensures { result ≡ reads_error_log action.now }
{
    matches!(action, Action::Page(Page::Log(Log::QueuedError), _))
}

impl<A: Allocator, S: SectorStore> Hba<A, S> {
    /// Why the device aborts a command that is not queued: queued ones are outstanding, or log 10h is to be read, but for a command that reads it, or it is
    /// READ or WRITE MULTIPLE and no block size is set. `queueing` is what `is_queueing` answers.
    pub(super) fn is_aborted(&self, action: &Action, queueing: bool) -> bool
        requires { queueing ≡ list_any has_queued self.now.slots }
        ensures { result ≡ is_aborted self.now action.now }
    {
        queueing || (self.is_failed() && !reads_error_log(action)) || self.has_no_blocks(action)
    }

    /// Whether a slot has a command that is read and not queued.
    pub(super) fn is_alone_fetched(&self, slot: Slot) -> bool
        ensures { result ≡ is_alone_fetched (command_at self.now slot) }
    {
        match &self.slots[slot.index()] {
            Some(slot) => match &slot.command {
                Command::Fetched(task, _, _) => is_alone(task),
                Command::Sent(_, _) => false,
            },
            None => false,
        }
    }

    /// Whether the device answers a command itself: it aborts it, or the port moves no sectors for it. `queueing` is what `is_queueing` answers.
    pub(super) fn is_answered(&self, action: &Action, queueing: bool) -> bool
        requires { queueing ≡ list_any has_queued self.now.slots }
        ensures { result ≡ is_answered self.now action.now }
    {
        match action {
            Action::Queue(queued) => self.is_failed() || !self.has_tag(queued),
            Action::Sectors { span, .. } => {
                self.is_aborted(action, queueing)
                    || !self.is_on(span)
                    || self.marked_for(action).is_some()
            }
            Action::Page(Page::Identify, _) | Action::Flush(_) => {
                self.is_aborted(action, queueing) || self.port.plain_fault().is_none()
            }
            Action::Page(Page::Log(Log::Pages(_, _) | Log::Host(_)) | Page::Disk(_), _) => true,
            Action::Page(Page::Log(Log::QueuedError), _) => queueing || !self.port.halted(),
            Action::Store(store, _) => self.is_aborted(action, queueing) || self.takes_data(store),
            Action::Reply(_) => true,
            Action::Control { .. } => false,
            Action::Abort => true,
        }
    }

    /// Whether the device answers the command of a slot now: it aborts it, or executes it without a move of sectors.
    pub fn may_execute(&self, slot: Slot) -> bool
        ensures { result ≡ may_execute self.now slot }
    {
        self.is_ready() && self.is_answered_at(slot)
    }

    /// Whether a slot has a command that was read and that the device answers itself.
    fn is_answered_at(&self, slot: Slot) -> bool
        ensures { result ≡ is_answered_at self.now (command_at self.now slot) }
    {
        match &self.slots[slot.index()] {
            Some(slot) => match &slot.command {
                Command::Fetched(task, _, _) => {
                    self.is_answered(&action_of(task), self.is_queueing())
                }
                Command::Sent(_, _) => false,
            },
            None => false,
        }
    }

    /// What the command of a slot asks.
    pub(super) fn task_in(&self, slot: Slot) -> Task
        ensures { result ≡ task_in (command_at self.now slot) }
    {
        match &self.slots[slot.index()] {
            Some(slot) => match &slot.command {
                Command::Fetched(task, _, _) => *task,
                Command::Sent(task, _) => *task,
            },
            None => Task::Unknown,
        }
    }
}

impl<A: Allocator + Copy, S: SectorStore> Hba<A, S> {
    /// A page goes to the driver for the command of a slot; the slot is empty.
    pub(super) fn give_page(&mut self, slot: Slot, protocol: Protocol, page: Vec<u8, A>)
        ensures { self.new ≡ paged self.old slot protocol (list_in (command_at self.old slot)) page.items }
    {
        let (_, list) = self.take_command(slot);
        match protocol {
            Protocol::Pio | Protocol::Multiple => self.page_answer(slot, list, page),
            Protocol::Dma => self.read_answer(slot, list, page, 512, done()),
        }
    }

    /// IDENTIFY DEVICE, which the port takes.
    fn identify(&mut self, slot: Slot) -> Result<(), HbaFault>
        requires taken { plain_refusal self.old.port ≡ None }
        ensures ok { OnOk result (Identifies slot (list_in (command_at self.old slot)) self.old self.new) }
        ensures err { IfErr result (λ e. (e ≡ HbaFault.OutOfMemory) × (self.new ≡ self.old)) }
    {
        let page = controller_page(self.port.sectors(), self.depth, &self.device);
        let page = Vec::from_slice(self.alloc, &page)?;
        match self.port.identify() {
            Ok(_) => {
                self.give_page(slot, Protocol::Pio, page);
                Ok(())
            }
            Err(PlainFault::OutOfMemory) => Err(HbaFault::OutOfMemory),
            Err(_) => unreachable!(), // the port takes it
        }
    }

    /// FLUSH CACHE, with EXT or without, which the port takes.
    fn flush(&mut self, slot: Slot) -> Result<(), HbaFault>
        requires taken { plain_refusal self.old.port ≡ None }
        ensures ok { OnOk result (Flushes slot self.old self.new) }
        ensures err { IfErr result (λ e. (e ≡ HbaFault.OutOfMemory) × (self.new ≡ self.old)) }
        ensures lacking { OnErr result (LacksRoom self.old.port) }
    {
        match self.port.flush() {
            Ok(()) => {
                self.conclude(slot, done());
                self.wake();
                Ok(())
            }
            Err(PlainFault::OutOfMemory) => Err(HbaFault::OutOfMemory),
            Err(_) => unreachable!(), // the port takes it
        }
    }

    /// A command that moves nothing is answered, for a slot, and the power mode is that behind it, as are what the disk keeps and the marks.
    fn reply(&mut self, slot: Slot, reply: &Reply)
        ensures { self.new ≡ replied self.old slot reply.now }
    {
        let fis = self.reply_fis(reply);
        self.conclude(slot, fis);
        self.turn_by(reply);
        self.change_by(reply);
        self.mark_by(reply);
    }

    /// A command that moves sectors stops, for a slot: a read at the first marked one (UNC), or at the first one that is not on the disk (IDNF).
    fn stop(
        &mut self,
        slot: Slot,
        write: bool,
        span: &Span,
        protocol: Protocol,
        marked: Option<u64>,
    ) -> Result<(), HbaFault>
        requires marked { IfSome marked (λ m. m < 2 ^ 48) }
        ensures ok { OnOk result (self.new ≡ stopped self.old slot (list_in (command_at self.old slot)) write span.now protocol marked) }
        ensures err { IfErr result (λ e. (e ≡ HbaFault.OutOfMemory) × (self.new ≡ self.old)) }
        ensures lacking { OnErr result (moves_some self.old.port write span.now (stops_at self.old.port span.now marked) ≡ true) }
    {
        match marked {
            None => {
                let missing = self.first_missing(span);
                self.fail_sectors(slot, write, span, protocol, 0x10, missing)
            }
            Some(lba) => self.fail_sectors(slot, write, span, protocol, 0x40, lba),
        }
    }

    /// What the device does with a command that it doesn't abort, for a slot.
    fn perform(&mut self, slot: Slot, action: &Action) -> Result<(), HbaFault>
        requires answered { is_answered self.old action.now ≡ true }
        requires kept { is_aborted self.old action.now ≡ false }
        ensures ok { OnOk result (Performs slot action.now (list_in (command_at self.old slot)) self.old self.new) }
        ensures err { IfErr result (λ e. (e ≡ HbaFault.OutOfMemory) × (self.new ≡ self.old)) }
        ensures lacking { OnErr result (MayLack self.old action.now) }
    {
        match action {
            Action::Sectors {
                write,
                span,
                protocol,
            } => {
                let marked = self.marked_for(action);
                self.stop(slot, *write, span, *protocol, marked)?;
                self.wake();
                Ok(())
            }
            Action::Page(Page::Identify, _) => self.identify(slot),
            Action::Page(Page::Log(log), protocol) => self.read_log(slot, log, *protocol),
            Action::Page(Page::Disk(page), protocol) => {
                self.read_disk_page(slot, *page, *protocol)
            }
            Action::Store(store, protocol) => self.take_data(slot, store, *protocol),
            Action::Flush(_) => self.flush(slot),
            Action::Reply(reply) => {
                self.reply(slot, reply);
                Ok(())
            }
            Action::Queue(_) | Action::Abort => {
                self.conclude(slot, aborted());
                Ok(())
            }
            Action::Control { .. } => unreachable!(), // it is no command
        }
    }

    /// The device aborts the command of a slot, and with it queued ones that are outstanding.
    fn abort(&mut self, slot: Slot)
        ensures { self.new ≡ keeping (concluded self.old slot aborted) (device_ended self.old slot 0x41 0x04) }
    {
        let device = self.device_ended(slot, 0x41, 0x04);
        self.conclude(slot, aborted());
        self.keep(device);
    }

    /// The device answers the command of a slot: it executes one that is not queued and that the port moves no sectors for, or it aborts the
    /// command. A read of a marked sector, or past the last one, moves the sectors before it. A TRIM on a disk whose trimmed sectors read as zeros has a step for each
    /// range that names sectors, which makes those zeros and answers nothing, and then one that answers. If queued commands are outstanding it aborts them too: none is taken, served or
    /// sent any more, and each other command is aborted until log 10h is read or a reset comes (ACS-3, "Native Command Queuing").
    ///
    /// # Errors
    /// `NotReady` exactly if `may_execute` is false; else `OutOfMemory` if a page, a log that is written, sectors that become zeros, a flush or a read's sectors want
    /// memory and an allocation failed, and it can be tried again. Nothing has changed.
    pub fn execute(&mut self, slot: Slot) -> Result<(), HbaFault>
        ensures ready { OnOk result (may_execute self.old slot ≡ true) }
        ensures ok { OnOk result (IsExecuted slot self.old self.new) }
        ensures err { IfErr result (λ e. (e ≡ fault_if (may_execute self.old slot)) × (self.new ≡ self.old)) }
        ensures lacking { IfErr result (λ e. e ≡ HbaFault.OutOfMemory → MayLackAt slot self.old) }
    {
        if !self.may_execute(slot) {
            return Err(HbaFault::NotReady);
        }
        let action = action_of(&self.task_in(slot));
        if self.is_aborted(&action, self.is_queueing()) {
            self.abort(slot);
            return Ok(());
        }
        self.perform(slot, &action)
    }
}
