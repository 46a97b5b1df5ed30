//! How the device serves the commands of some tags: it moves the data of each, one after the other, and completes them all
//! by one Set Device Bits FIS (Serial ATA, "Set Device Bits").

ghost use Rattle.std.specs.Prelude.{◌≡◌, ℕ, ◌<◌, IfOk, None, OnErr, Some, length, slice_index};
ghost use Rattle.ahci_table.specs.{Command.{queued_of}, Fit.{IsFit}};
ghost use Rattle.ncq_core.specs.{DiskState.{command_of}, Serving.{HasCommandRoom, serve_fault}};
ghost use Rattle.ahci_port.specs.{Faults.{Answers, are_accepted, is_bad_list, names_twice, step_refusal}, Registers.{word_of_tags}, Serving.{CompletesOne}, Steps.{IsStepped}};

use crate::fault::StepFault;
use crate::port::Port;
use crate::receive::{receive_bits, receive_setup};
use crate::slot::Slot;
use crate::step::{DeviceStep, Stepped};
use arrayvec::ArrayVec;
use ncq_core::Disk;
use ncq_core::laws::the_disks_answers_are_these_bytes;
use ncq_journal::{Event, Journal, Phase};
use sector_store::SectorStore;
use std::alloc::Allocator;
use word_bits::place;

/// Whether a list of tags names one twice.
fn names_twice(tags: &[u8]) -> bool
    ensures { result ≡ names_twice tags.now }
{
    for index in 0..tags.len() {
        if tags[index + 1..].contains(&tags[index]) {
            return true;
        }
    }
    false
}

/// Whether no command, or one twice, would be served.
fn is_bad_list(tags: &[u8]) -> bool
    ensures { result ≡ is_bad_list tags.now }
{
    tags.is_empty() || names_twice(tags)
}

/// The word with the bits of some tags.
fn word_of_tags(tags: &[u8]) -> u32
    requires { (k : ℕ) → k < length tags.now → slice_index tags.now k < 32 }
    ensures { result ≡ word_of_tags tags.now }
{
    let mut word = 0;
    for index in 0..tags.len() {
        word |= place(tags[index]);
    }
    word
}

/// The disk serves the command of one tag, over its window's memory: its DMA Setup FIS is received, its data move, and its
/// Complete is appended. The registers hear of it later.
fn complete<A: Allocator, S: SectorStore>(
    disk: &mut Disk<S>,
    slot: &mut Slot<A>,
    area: &mut [u8; 256],
    journal: &mut Journal<A>,
    tag: u8,
)
    requires fit { IsFit slot.old.window }
    requires there { command_of disk.old tag ≡ Some (queued_of slot.old.window) }
    requires running { serve_fault disk.old tag ≡ None }
    requires memory { HasCommandRoom disk.old (queued_of slot.old.window) }
    requires room { 0 < journal.old.room }
    ensures { CompletesOne tag disk.old disk.new slot.old slot.new area.old area.new journal.old journal.new }
{
    let place = journal.len();
    let setup = slot.serve(disk, tag, place);
    receive_setup(area, &setup);
    journal.push_reserved(Event::Complete(tag));
}

impl<A: Allocator, S: SectorStore> Port<A, S> {
    /// The device serves the commands of some tags, in the list's order, and completes them by one FIS.
    pub(super) fn serve(&mut self, tags: &ArrayVec<u8, 32>) -> Result<Stepped, StepFault>
        ensures ok { IfOk result (λ done. IsStepped (DeviceStep.Serve tags.now) self.old self.new done) }
        ensures fault { Answers result (step_refusal self.old (DeviceStep.Serve tags.now)) }
        ensures err { OnErr result (self.new ≡ self.old) }
    {
        if let Some(fault) = self.serve_fault(tags) {
            return Err(fault);
        }
        the_disks_answers_are_these_bytes();
        let first = self.journal.end();
        for index in 0..tags.len() {
            let tag = tags[index];
            let Some(slot) = &mut self.slots[tag as usize] else {
                unreachable!();
            };
            complete(&mut self.disk, slot, &mut self.area, &mut self.journal, tag);
        }
        let bits = Disk::completed(word_of_tags(tags));
        receive_bits(&mut self.registers, &mut self.area, &bits);
        Ok(Stepped::Completed {
            first,
            count: tags.len() as u32,
        })
    }

    /// Why the device does not serve the commands of some tags.
    fn serve_fault(&self, tags: &ArrayVec<u8, 32>) -> Option<StepFault>
        ensures { result ≡ step_refusal self.now (DeviceStep.Serve tags.now) }
    {
        if self.halted() {
            return Some(StepFault::Halted);
        }
        if !self.are_accepted(tags) {
            return Some(StepFault::NotAccepted);
        }
        if is_bad_list(tags) {
            return Some(StepFault::BadTags);
        }
        None
    }

    /// Whether the command of each of these tags is accepted.
    fn are_accepted(&self, tags: &[u8]) -> bool
        ensures { result ≡ are_accepted self.now.past tags.now }
    {
        tags.iter()
            .all(|tag| matches!(self.phase(*tag), Phase::Accepted))
    }
}
