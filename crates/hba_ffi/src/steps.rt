//! The device's steps with the commands of the slots.

ghost use Rattle.std.specs.Prelude.{◌≡◌};
ghost use Rattle.hba_ffi.specs.Calls.{AnswersEnd, AnswersFail, AnswersRefuse, AnswersSign, AnswersStep, AnswersTrimRange};

use crate::registers::entries_in;
use ahci_ffi::Status;
use ahci_hba::{Hba, HbaFault, Slot};
use ncq_core::LBA_LIMIT;
use port_refusal::Refusal;
use sector_store::SectorStore;
use std::alloc::Allocator;

/// Takes the next step with the command of a slot. `entries` is how many entries the journal has that is handed out, if the step resets
/// the port.
pub fn step<A: Allocator + Copy, S: SectorStore>(
    hba: &mut Hba<A, S>,
    slot: u32,
    entries: &mut u64,
) -> Status
    ensures { AnswersStep slot result hba.old hba.new entries.old entries.new }
{
    let Some(slot) = Slot::of(slot) else {
        return Status::BadTag;
    };
    match hba.step(slot) {
        Ok(journal) => {
            *entries = entries_in(&journal);
            Status::Done
        }
        Err(HbaFault::NotReady) => Status::NotReady,
        Err(HbaFault::OutOfMemory) => Status::Refused(Refusal::OutOfMemory),
    }
}

/// The sectors that the next step of a slot's command makes zeros: the first of them and how many, 0 if it makes none so.
pub fn trim_range<A: Allocator, S: SectorStore>(
    hba: &Hba<A, S>,
    slot: u32,
    lba: &mut u64,
    sectors: &mut u32,
) -> Status
    ensures { AnswersTrimRange slot result hba.now lba.old lba.new sectors.old sectors.new }
{
    let Some(slot) = Slot::of(slot) else {
        return Status::BadTag;
    };
    let (first, count) = match hba.trim_range(slot) {
        Some(range) => (range.lba, range.sectors),
        None => (0, 0),
    };
    *lba = first;
    *sectors = count;
    Status::Done
}

/// The device fails a queued command that it has taken, with an error byte at one of its sectors.
pub fn fail<A: Allocator + Copy, S: SectorStore>(
    hba: &mut Hba<A, S>,
    slot: u32,
    error: u8,
    lba: u64,
) -> Status
    ensures { AnswersFail slot error lba result hba.old hba.new }
{
    let Some(slot) = Slot::of(slot) else {
        return Status::BadTag;
    };
    match hba.fail(slot, error, lba) {
        Ok(()) => Status::Done,
        Err(HbaFault::NotReady) => Status::NotReady,
        Err(HbaFault::OutOfMemory) => Status::Refused(Refusal::OutOfMemory),
    }
}

/// The device fails a command that is read and not queued, with an error byte at an LBA.
pub fn refuse<A: Allocator + Copy, S: SectorStore>(
    hba: &mut Hba<A, S>,
    slot: u32,
    error: u8,
    lba: u64,
) -> Status
    ensures { AnswersRefuse slot error lba result hba.old hba.new }
{
    let Some(slot) = Slot::of(slot) else {
        return Status::BadTag;
    };
    if lba >= LBA_LIMIT {
        return Status::Refused(Refusal::BadLba);
    }
    match hba.refuse(slot, error, lba) {
        Ok(()) => Status::Done,
        Err(HbaFault::NotReady) => Status::NotReady,
        Err(HbaFault::OutOfMemory) => Status::Refused(Refusal::OutOfMemory),
    }
}

/// The device ends a command that is read and not queued with a status and an error byte at an LBA, in place of doing it.
pub fn end<A: Allocator + Copy, S: SectorStore>(
    hba: &mut Hba<A, S>,
    slot: u32,
    status: u8,
    error: u8,
    lba: u64,
) -> Status
    ensures { AnswersEnd slot status error lba result hba.old hba.new }
{
    let Some(slot) = Slot::of(slot) else {
        return Status::BadTag;
    };
    if lba >= LBA_LIMIT {
        return Status::Refused(Refusal::BadLba);
    }
    match hba.end(slot, status, error, lba) {
        Ok(()) => Status::Done,
        Err(HbaFault::NotReady) => Status::NotReady,
        Err(HbaFault::OutOfMemory) => Status::Refused(Refusal::OutOfMemory),
    }
}

/// The device sends its signature.
pub fn sign<A: Allocator + Copy, S: SectorStore>(hba: &mut Hba<A, S>) -> Status
    ensures { AnswersSign result hba.old hba.new }
{
    match hba.sign() {
        Ok(()) => Status::Done,
        Err(_) => Status::NotReady,
    }
}
