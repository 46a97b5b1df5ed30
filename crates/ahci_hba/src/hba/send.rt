//! How a queued command goes to the port.

ghost use Rattle.std.specs.Prelude.{◌≡◌, ◌<◌, ◌&&◌, not, true, None, Some, IfErr, OnOk, if◌then◌else◌, is_some, slice_set};
ghost use Rattle.std.specs.List.{list_any};
ghost use Rattle.ncq_journal.specs.Work.{Read, Write, work_of};
ghost use Rattle.ahci_port.specs.Faults.{op_refusal};
ghost use Rattle.ahci_hba.specs.HbaView.{Fetched, command_of};
ghost use Rattle.ahci_hba.specs.Queueing.{IsSent, Sends, asked_for, command_at, goes_to_port, has_no_blocks, has_queued, has_tag, is_fetched, is_on, moves_sectors, put_back, work_for, work_of_action};
ghost use Rattle.ahci_hba.specs.Stepping.{fault_if, may_send, work_at};

use crate::command::{Command, Listed};
use crate::fault::HbaFault;
use crate::hba::Hba;
use ahci_port::{Bytes, Op, PieceLayout, Port, SubmitFault};
use hba_command::{Action, PrdEntry, Span, Task, action_of, lacks_blocks, reached};
use hba_regs::Slot;
use ncq_core::SECTOR;
use sata_fis::Queued;
use sector_store::SectorStore;
use std::alloc::Allocator;

/// What a command asks of the disk, with the bytes of a write, and the bytes that are left.
fn asked_at<A: Allocator>(
    write: bool,
    lba: u64,
    sectors: u32,
    bytes: Vec<u8, A>,
    none: Vec<u8, A>,
) -> (Op<A>, Vec<u8, A>)
    ensures asked { work_of result.0 ≡ (if write then Write lba bytes.items else Read lba sectors) }
    ensures back { put_back (work_of result.0) result.1.items ≡ bytes.items }
{
    if write {
        let bytes = Bytes::from_vec(bytes);
        return (Op::Write { lba, bytes }, none);
    }
    (Op::Read { lba, sectors }, bytes)
}

/// The same of a task.
fn asked<A: Allocator + Copy>(alloc: A, task: &Task, bytes: Vec<u8, A>) -> (Op<A>, Vec<u8, A>)
    ensures asked { work_of result.0 ≡ asked_for task.now bytes.items }
    ensures back { put_back (work_of result.0) result.1.items ≡ bytes.items }
{
    let none = Vec::new(alloc);
    match &action_of(task) {
        Action::Queue(queued) => asked_at(queued.write, queued.lba, queued.sectors, bytes, none),
        Action::Sectors { write, span, .. } => {
            asked_at(*write, span.lba, span.sectors, bytes, none)
        }
        Action::Page(_, _) | Action::Flush(_) | Action::Reply(_) | Action::Control { .. } => {
            asked_at(false, 0, 0, bytes, none)
        }
        Action::Store(_, _) | Action::Abort => asked_at(false, 0, 0, bytes, none),
    }
}

/// The bytes that a command had before it was asked.
fn put_back<A: Allocator>(op: Op<A>, left: Vec<u8, A>) -> Vec<u8, A>
    ensures { result.items ≡ put_back (work_of op) left.items }
{
    match op {
        Op::Write { bytes, .. } => bytes.into_vec(),
        Op::Read { .. } => left,
    }
}

/// Why a port would not take a write of these bytes for a slot, memory aside.
fn write_fault<A: Allocator, S: SectorStore>(
    port: &Port<A, S>,
    slot: Slot,
    lba: u64,
    bytes: &[u8],
) -> Option<SubmitFault>
    ensures { result ≡ op_refusal port.now slot (Write lba bytes.now) }
{
    if bytes.len() % SECTOR != 0 {
        return Some(SubmitFault::BadCount);
    }
    port.submit_fault(slot.number(), lba, (bytes.len() / SECTOR) as u64)
}

/// The same of a read, or of a write of these bytes.
fn dma_fault<A: Allocator, S: SectorStore>(
    port: &Port<A, S>,
    slot: Slot,
    write: bool,
    lba: u64,
    sectors: u32,
    bytes: &[u8],
) -> Option<SubmitFault>
    ensures { result ≡ op_refusal port.now slot (work_for write lba sectors bytes.now) }
{
    if write {
        return write_fault(port, slot, lba, bytes);
    }
    port.submit_fault(slot.number(), lba, u64::from(sectors))
}

impl<A: Allocator, S: SectorStore> Hba<A, S> {
    /// Whether sectors are on the disk, and their command reaches them.
    pub(super) fn is_on(&self, span: &Span) -> bool
        ensures { result ≡ is_on self.now.port span.now }
    {
        span.lba + u64::from(span.sectors)
            <= reached(span.addressing, u64::from(self.port.sectors()))
    }

    /// Whether the device has the tag of a queued command.
    pub(super) fn has_tag(&self, queued: &Queued) -> bool
        ensures { result ≡ has_tag self.now queued.now }
    {
        u32::from(queued.tag) < self.depth
    }

    /// Whether a command is READ or WRITE MULTIPLE, while SET MULTIPLE MODE has set no block size.
    pub(super) fn has_no_blocks(&self, action: &Action) -> bool
        ensures { result ≡ has_no_blocks self.now action.now }
    {
        match action {
            Action::Sectors { protocol, .. } => lacks_blocks(self.device.multiple, *protocol),
            Action::Queue(_) | Action::Page(_, _) | Action::Flush(_) | Action::Reply(_) => false,
            Action::Store(_, _) | Action::Control { .. } | Action::Abort => false,
        }
    }

    /// Whether the port moves sectors for a command: a queued one whose tag the device has, or one of sectors of the disk while no queued one is
    /// outstanding, whose blocks have a size, and that reads no marked sector. `queueing` is what `is_queueing` answers.
    fn moves_sectors(&self, action: &Action, queueing: bool) -> bool
        requires { queueing ≡ list_any has_queued self.now.slots }
        ensures { result ≡ moves_sectors self.now action.now }
    {
        match action {
            Action::Queue(queued) => self.has_tag(queued),
            Action::Sectors { span, .. } => {
                self.is_on(span)
                    && !queueing
                    && !self.has_no_blocks(action)
                    && self.marked_for(action).is_none()
            }
            Action::Page(_, _) | Action::Flush(_) | Action::Reply(_) | Action::Control { .. } =>
                false,
            Action::Store(_, _) | Action::Abort => false,
        }
    }

    /// Whether the command of a slot goes to the port: it is read, and is queued with a tag that the device has, or moves sectors of the
    /// disk while no queued one is outstanding, and is not READ or WRITE MULTIPLE without a block size or a read of a marked sector.
    pub fn goes_to_port(&self, slot: Slot) -> bool
        ensures { result ≡ goes_to_port self.now (command_at self.now slot) }
    {
        match &self.slots[slot.index()] {
            Some(slot) => match &slot.command {
                Command::Fetched(task, _, _) => {
                    self.moves_sectors(&action_of(task), self.is_queueing())
                }
                Command::Sent(_, _) => false,
            },
            None => false,
        }
    }
}

/// Why a port would not take what a command asks for a slot, memory aside.
fn action_fault<A: Allocator, S: SectorStore>(
    port: &Port<A, S>,
    slot: Slot,
    action: &Action,
    bytes: &[u8],
) -> Option<SubmitFault>
    ensures { result ≡ op_refusal port.now slot (work_of_action action.now bytes.now) }
{
    match action {
        Action::Queue(queued) => {
            dma_fault(port, slot, queued.write, queued.lba, queued.sectors, bytes)
        }
        Action::Sectors { write, span, .. } => {
            dma_fault(port, slot, *write, span.lba, span.sectors, bytes)
        }
        Action::Page(_, _) | Action::Flush(_) | Action::Reply(_) | Action::Control { .. } => {
            port.submit_fault(slot.number(), 0, 0)
        }
        Action::Store(_, _) | Action::Abort => port.submit_fault(slot.number(), 0, 0),
    }
}

impl<A: Allocator, S: SectorStore> Hba<A, S> {
    /// Why the port would not take the command of a slot, memory aside.
    fn submit_fault(&self, slot: Slot) -> Option<SubmitFault>
        ensures { result ≡ op_refusal self.now.port slot (work_at (command_at self.now slot)) }
    {
        match &self.slots[slot.index()] {
            Some(read) => match &read.command {
                Command::Fetched(task, _, bytes) => {
                    action_fault(&self.port, slot, &action_of(task), bytes)
                }
                Command::Sent(_, _) => self.port.submit_fault(slot.number(), 0, 0),
            },
            None => self.port.submit_fault(slot.number(), 0, 0),
        }
    }

    /// Whether a command that was read for a slot goes to the port once the device may move: the device aborts nothing for a collision, the port moves
    /// sectors for the command, and it takes it. `queueing` is what `is_queueing` answers.
    pub(super) fn is_taken_by_port(
        &self,
        slot: Slot,
        action: &Action,
        bytes: &[u8],
        queueing: bool,
    ) -> bool
        requires { queueing ≡ list_any has_queued self.now.slots }
        ensures { result ≡ (not (is_some self.now.device.collision) && moves_sectors self.now action.now && not (is_some (op_refusal self.now.port slot (work_of_action action.now bytes.now)))) }
    {
        self.device.collision.is_none()
            && self.moves_sectors(action, queueing)
            && action_fault(&self.port, slot, action, bytes).is_none()
    }

    /// Whether the command of a slot goes to the port now: `goes_to_port` holds, the port takes it, and the device may move and aborts nothing for a collision.
    pub fn may_send(&self, slot: Slot) -> bool
        ensures { result ≡ may_send self.now slot }
    {
        self.is_ready()
            && (self.device.collision.is_none() && self.goes_to_port(slot))
            && self.submit_fault(slot).is_none()
    }
}

impl<A: Allocator + Copy, S: SectorStore> Hba<A, S> {
    /// Sends a command that the port takes to it for a slot; if an allocation fails, it is in its slot again.
    fn send_command(
        &mut self,
        slot: Slot,
        task: Task,
        list: Vec<PrdEntry, A>,
        bytes: Vec<u8, A>,
    ) -> Result<(), HbaFault>
        requires { op_refusal self.old.port slot (asked_for task bytes.items) ≡ None }
        ensures ok { OnOk result (IsSent slot task list.items bytes.items self.old self.new) }
        ensures err { IfErr result (λ e. (e ≡ HbaFault.OutOfMemory) × (self.new ≡ record self.old { slots = slice_set self.old.slots slot (Some (Fetched task list.items bytes.items)) })) }
    {
        let (op, left) = asked(self.alloc, &task, bytes);
        match self
            .port
            .submit_tested(slot.number(), op, false, PieceLayout::Packed)
        {
            Ok(_) => {
                self.put(slot, Command::Sent(task, list));
                Ok(())
            }
            Err((op, refused)) => {
                self.put(slot, Command::Fetched(task, list, put_back(op, left)));
                Err(refused.into())
            }
        }
    }

    /// Puts a command into a slot.
    fn put(&mut self, slot: Slot, command: Command<A>)
        ensures { self.new ≡ record self.old { slots = slice_set self.old.slots slot (Some (command_of command)) } }
    {
        self.slots[slot.index()] = Some(Listed { command });
    }

    /// Sends the command of a slot to the port, if it goes there: its request is in the journal then, a write with the bytes that were
    /// read.
    ///
    /// # Errors
    /// `NotReady` exactly if `may_send` is false; else `OutOfMemory` if an allocation failed, and it can be tried again. Nothing has changed.
    pub fn send(&mut self, slot: Slot) -> Result<(), HbaFault>
        ensures ready { OnOk result (may_send self.old slot ≡ true) }
        ensures ok { OnOk result (Sends slot (command_at self.old slot) self.old self.new) }
        ensures err { IfErr result (λ e. (e ≡ fault_if (may_send self.old slot)) × (self.new ≡ self.old)) }
    {
        if !self.may_send(slot) {
            return Err(HbaFault::NotReady);
        }
        let (task, list, bytes) = self.take_fetched(slot);
        self.send_command(slot, task, list, bytes)
    }

    /// Takes a command that was read out of a slot, and leaves it empty.
    pub(super) fn take_fetched(&mut self, slot: Slot) -> (Task, Vec<PrdEntry, A>, Vec<u8, A>)
        requires fetched { is_fetched (command_at self.old slot) ≡ true }
        ensures command { command_at self.old slot ≡ Some (Fetched result.0 result.1.items result.2.items) }
        ensures slots { self.new ≡ record self.old { slots = slice_set self.old.slots slot None } }
    {
        match self.slots[slot.index()].take() {
            Some(
                Listed {
                    command: Command::Fetched(task, list, bytes),
                },
            ) => (task, list, bytes),
            _ => unreachable!(),
        }
    }
}
