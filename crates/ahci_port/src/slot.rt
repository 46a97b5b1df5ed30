//! One tag's request, changed in place, and the slots of a port.

ghost use Rattle.std.specs.{Prelude.{◌≡◌, length, map, replicate, IsSome, None, Some, is_some}, List.{list_any}, Option.{option_copied, option_map}};
ghost use Rattle.ahci_table.specs.{Command.{cfis, op, queued_of}, Fit.{IsFit}, Prdt.{pieces}, Text.{text}};
ghost use Rattle.ncq_journal.specs.Lawful.{IsProper};
ghost use Rattle.ncq_core.specs.{DiskFis.{setup_bytes}, DiskState.{command_of, is_reserved_in}, Serving.{HasCommandRoom, HasMoved, serve_fault, served}};
ghost use Rattle.sector_store.specs.Reserved.{StayReserved};
ghost use Rattle.ahci_port.specs.{
  Memory.{IsKept},
  Keeping.{slot_at},
  Slots.{phase_in, read_in, window_in},
  Moves.{issued_slot, outcome_of, served_slot, reissued_slot, accepted_slot, failed_slot, recovered_slot},
};

use crate::ended::Ended;
use crate::memory::Memory;
use ahci_table::{Command, Piece, Window};
use arrayvec::ArrayVec;
use ncq_core::Disk;
use ncq_journal::{Outcome, Phase};
use sector_store::SectorStore;
use std::alloc::{Allocator, Global};
use std::marker::Model;

/// A tag's request.
#[derive(Drop)]
pub(crate) struct Slot<A: Allocator = Global> {
    /// The place of its Issue entry in the journal.
    place: u64,
    is_write: bool,
    lba: u64,
    sectors: u32,
    phase: Phase,
    /// How it was answered, once it is rejected, broken or done.
    ended: Option<Ended>,
    memory: Memory<A>,
}

impl<A: Allocator> Model for Slot<A> {
    ghost use Rattle.ahci_port.specs.Slots.{SlotState};

    ghost Value = { SlotState };

    ghost view = { λ s. record { place = s.place; is_write = s.is_write; lba = s.lba; sectors = s.sectors; phase = s.phase; ended = s.ended; window = s.memory.window } };
}

/// How a command ends that doesn't fail.
fn outcome_of(is_write: bool) -> Outcome
    ensures { result ≡ outcome_of is_write }
{
    if is_write {
        Outcome::Wrote
    } else {
        Outcome::Read
    }
}

impl<A: Allocator> Slot<A> {
    /// A command that is issued, whose entry is at a place of the journal.
    pub(crate) fn issued(place: u64, command: Command, window: Window<A>) -> Self
        requires fit { IsFit window }
        requires list { command.pieces.items ≡ pieces window }
        requires queued { command.queued ≡ queued_of window }
        ensures slot { result ≡ issued_slot place command.queued window }
        ensures proper { IsProper (op window) }
    {
        Slot {
            place,
            is_write: command.queued.write,
            lba: command.queued.lba,
            sectors: command.queued.sectors,
            phase: Phase::Issued,
            ended: None,
            memory: Memory::of(window, command.pieces),
        }
    }

    /// The command is issued again.
    pub(crate) fn reissue(&mut self)
        ensures { self.new ≡ reissued_slot self.old }
    {
        self.phase = Phase::Issued;
    }

    /// The device has accepted the command.
    pub(crate) fn accept(&mut self)
        ensures { self.new ≡ accepted_slot self.old }
    {
        self.phase = Phase::Accepted;
    }

    /// The command has failed, at an entry.
    pub(crate) fn fail(&mut self, entry: u64, error: u8, lba: u64)
        ensures { self.new ≡ failed_slot self.old entry error lba }
    {
        self.phase = self.phase.failed();
        self.ended = Some(Ended {
            entry,
            outcome: Outcome::Failed { error, lba },
        });
    }

    /// The port has recovered.
    pub(crate) fn recover(&mut self)
        ensures { self.new ≡ recovered_slot self.old }
    {
        self.phase = self.phase.recovered();
    }

    /// The disk serves the command, over the window's memory, and completes it at an entry. The DMA Setup FIS is answered.
    #[tactic(auto, using(ncq_core::proofs::ReservedLemmas::memory_at))]
    pub(crate) fn serve<S: SectorStore>(
        &mut self,
        disk: &mut Disk<S>,
        tag: u8,
        entry: u64,
    ) -> [u8; 28]
        requires fit { IsFit self.old.window }
        requires there { command_of disk.old tag ≡ Some (queued_of self.old.window) }
        requires running { serve_fault disk.old tag ≡ None }
        requires memory { HasCommandRoom disk.old (queued_of self.old.window) }
        ensures state { disk.new ≡ served disk.old tag disk.new.image disk.new.reserved }
        ensures stay { StayReserved (is_reserved_in disk.old.reserved) (is_reserved_in disk.new.reserved) }
        ensures data { HasMoved (queued_of self.old.window) disk.old.image disk.new.image (text self.old.window) (text self.new.window) }
        ensures fit { IsFit self.new.window }
        ensures kept { IsKept self.old.window self.new.window }
        ensures slot { self.new ≡ served_slot self.old entry self.new.window }
        ensures setup { result ≡ setup_bytes (queued_of self.old.window) }
    {
        disk.serve(tag, &mut self.memory).unwrap();
        self.phase = Phase::Done;
        self.ended = Some(Ended {
            entry,
            outcome: outcome_of(self.is_write),
        });
        self.memory.setup
    }

    /// The command FIS: the first 20 bytes of CFIS (AHCI 1.3.1, section 4.2.3).
    pub(crate) fn cfis(&self) -> &[u8]
        requires { IsFit self.now.window }
        ensures { result.now ≡ cfis self.now.window }
    {
        &self.memory.window.bytes()[..20]
    }

    /// How a request was answered that is done, the pieces of its window, and the window.
    pub(crate) fn answer(self) -> (Ended, ArrayVec<Piece, 32>, Window<A>)
        requires { IsSome self.ended }
        ensures ended { self.ended ≡ Some result.0 }
        ensures pieces { result.1.items ≡ pieces self.window }
        ensures window { result.2 ≡ self.window }
    {
        (self.ended.unwrap(), self.memory.list, self.memory.window)
    }
}

/// The phase of a tag, by its slot.
pub(crate) fn phase_in<A: Allocator>(slots: &[Option<Slot<A>>], tag: u8) -> Phase
    ensures { result ≡ phase_in (slot_at slots.now tag) }
{
    match slots.get(tag as usize) {
        Some(Some(slot)) => slot.phase,
        _ => Phase::Free,
    }
}

/// The place of the request that owns a tag's slot.
pub(crate) fn place_in<A: Allocator>(slots: &[Option<Slot<A>>], tag: u8) -> Option<u64>
    ensures { result ≡ option_map (λ s. s.place) (slot_at slots.now tag) }
{
    match slots.get(tag as usize) {
        Some(Some(slot)) => Some(slot.place),
        _ => None,
    }
}

/// How many bytes the request of a tag's slot reads, where it is a read.
pub(crate) fn read_in<A: Allocator>(slots: &[Option<Slot<A>>], tag: u8) -> Option<u64>
    ensures { result ≡ read_in (slot_at slots.now tag) }
{
    match slots.get(tag as usize) {
        Some(Some(slot)) if !slot.is_write => Some(512 * u64::from(slot.sectors)),
        _ => None,
    }
}

/// The window of a tag's slot, where it is owned.
pub(crate) fn window_in<A: Allocator>(slots: &[Option<Slot<A>>], tag: u8) -> Option<&Window<A>>
    ensures { option_copied result ≡ window_in (slot_at slots.now tag) }
{
    match slots.get(tag as usize) {
        Some(Some(slot)) => Some(&slot.memory.window),
        _ => None,
    }
}

/// Whether some slot is owned.
pub(crate) fn is_any_owned<A: Allocator>(slots: &[Option<Slot<A>>]) -> bool
    ensures { result ≡ list_any is_some slots.now }
{
    slots.iter().any(|slot| slot.is_some())
}

/// Frees every slot. What its request held is dropped, and its memory given back.
#[tactic(auto, using(crate::proofs::ResettingLemmas::cleared_none, crate::proofs::ResettingLemmas::cleared_more))]
pub(crate) fn clear<A: Allocator>(slots: &mut [Option<Slot<A>>])
    ensures { slots.new ≡ replicate (length slots.old) None }
{
    for tag in 0..slots.len() {
        slots[tag] = None;
    }
}

/// All slots, once the port has recovered.
pub(crate) fn recover_slots<A: Allocator>(slots: &mut [Option<Slot<A>>])
    ensures { slots.new ≡ map (option_map recovered_slot) slots.old }
{
    for index in 0..slots.len() {
        if let Some(slot) = &mut slots[index] {
            slot.recover();
        }
    }
}
