//! Which rules for drivers an access or a command breaks.

ghost use Rattle.std.specs.Prelude.{◌≡◌};
ghost use Rattle.hba_ffi.specs.Judging.{AnswersCommand, AnswersCommandBreaks, AnswersEntry, AnswersEntryBreaks, AnswersLength, AnswersLengthBreaks, AnswersWrite, AnswersWriteBreaks, task_in};

use ahci_ffi::Status;
use ahci_hba::Hba;
use hba_command::{Task, command_fis, task_of};
use hba_regs::Register;
use hba_rules::Rule;
use port_refusal::Refusal;
use sector_store::SectorStore;
use std::alloc::Allocator;

/// How many slots there are.
const SLOTS: u32 = 32;

/// Whether a word that a driver is about to write at an offset breaks the rule of a number.
pub fn write_breaks<A: Allocator, S: SectorStore>(
    hba: &Hba<A, S>,
    rule: u32,
    offset: u32,
    word: u32,
    broken: &mut u32,
) -> Status
    ensures { AnswersWriteBreaks rule offset word result hba.now broken.old broken.new }
{
    match Rule::of(rule) {
        Some(rule) => on_write(hba, rule, offset, word, broken),
        None => Status::BadKind,
    }
}

/// The same of a rule.
fn on_write<A: Allocator, S: SectorStore>(
    hba: &Hba<A, S>,
    rule: Rule,
    offset: u32,
    word: u32,
    broken: &mut u32,
) -> Status
    ensures { AnswersWrite rule offset word result hba.now broken.old broken.new }
{
    match Register::at(offset) {
        Some(register) => {
            *broken = u32::from(hba_rules::write_breaks(rule, hba.registers(), register, word));
            Status::Done
        }
        None => Status::Refused(Refusal::NoSuchRegister),
    }
}

/// Whether the command of a slot breaks the rule of a number: its header, and the first 20 bytes of its command table. `active` is not 0 if its
/// bit of PxSACT is 1.
pub fn command_breaks(
    rule: u32,
    slot: u32,
    active: u32,
    header: &[u8],
    fis: &[u8],
    broken: &mut u32,
) -> Status
    ensures { AnswersCommandBreaks rule slot active header.now fis.now result broken.old broken.new }
{
    match Rule::of(rule) {
        Some(rule) => on_command(rule, slot, active, header, fis, broken),
        None => Status::BadKind,
    }
}

/// The same of a rule.
fn on_command(
    rule: Rule,
    slot: u32,
    active: u32,
    header: &[u8],
    fis: &[u8],
    broken: &mut u32,
) -> Status
    ensures { AnswersCommand rule slot active header.now fis.now result broken.old broken.new }
{
    if slot >= SLOTS {
        return Status::BadTag;
    }
    let Ok(header) = <[u8; 32]>::try_from(header) else {
        return Status::WrongLength;
    };
    let Ok(fis) = <[u8; 20]>::try_from(fis) else {
        return Status::WrongLength;
    };
    *broken = u32::from(hba_rules::command_breaks(rule, slot as u8, active != 0, &header, &fis));
    Status::Done
}

/// Whether an entry of a PRDT, of 16 bytes, breaks the rule of a number.
pub fn entry_breaks(rule: u32, entry: &[u8], broken: &mut u32) -> Status
    ensures { AnswersEntryBreaks rule entry.now result broken.old broken.new }
{
    match Rule::of(rule) {
        Some(rule) => on_entry(rule, entry, broken),
        None => Status::BadKind,
    }
}

/// The same of a rule.
fn on_entry(rule: Rule, entry: &[u8], broken: &mut u32) -> Status
    ensures { AnswersEntry rule entry.now result broken.old broken.new }
{
    let Ok(entry) = <[u8; 16]>::try_from(entry) else {
        return Status::WrongLength;
    };
    *broken = u32::from(hba_rules::entry_breaks(rule, &entry));
    Status::Done
}

/// Whether a PRDT of so many bytes in all breaks the rule of a number, for the command of a command FIS of 20 bytes.
pub fn length_breaks(rule: u32, fis: &[u8], total: u64, broken: &mut u32) -> Status
    ensures { AnswersLengthBreaks rule fis.now total result broken.old broken.new }
{
    match Rule::of(rule) {
        Some(rule) => on_length(rule, fis, total, broken),
        None => Status::BadKind,
    }
}

/// What a command FIS asks for; nothing if it is none.
fn task_in(fis: &[u8; 20]) -> Task
    ensures { result ≡ task_in fis.now }
{
    match command_fis(fis) {
        Some(fis) => task_of(&fis),
        None => Task::Unknown,
    }
}

/// The same of a rule.
fn on_length(rule: Rule, fis: &[u8], total: u64, broken: &mut u32) -> Status
    ensures { AnswersLength rule fis.now total result broken.old broken.new }
{
    let Ok(fis) = <[u8; 20]>::try_from(fis) else {
        return Status::WrongLength;
    };
    *broken = u32::from(hba_rules::length_breaks(rule, &task_in(&fis), total));
    Status::Done
}
