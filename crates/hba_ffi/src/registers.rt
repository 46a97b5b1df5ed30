//! A driver's accesses to the registers, and power-on.

ghost use Rattle.std.specs.Prelude.{◌≡◌};
ghost use Rattle.hba_ffi.specs.Calls.{AnswersPowerOn, AnswersRead, AnswersWrite, entries_in};

use ahci_ffi::Status;
use ahci_hba::{AccessSize, Hba};
use ahci_port::Journal;
use sector_store::SectorStore;
use std::alloc::Allocator;

/// What a driver reads at an offset, in so many bytes.
pub fn read<A: Allocator, S: SectorStore>(
    hba: &Hba<A, S>,
    offset: u32,
    bytes: u32,
    value: &mut u64,
) -> Status
    ensures { AnswersRead offset bytes result hba.now value.old value.new }
{
    match AccessSize::of(bytes) {
        Some(size) => {
            *value = hba.read(offset, size);
            Status::Done
        }
        None => Status::WrongLength,
    }
}

/// Takes what a driver writes at an offset, in so many bytes. `entries` is how many entries the journal has that is handed out, if the
/// write resets the port.
pub fn write<A: Allocator + Copy, S: SectorStore>(
    hba: &mut Hba<A, S>,
    offset: u32,
    bytes: u32,
    value: u64,
    entries: &mut u64,
) -> Status
    ensures { AnswersWrite offset bytes value result hba.old hba.new entries.old entries.new }
{
    match AccessSize::of(bytes) {
        Some(size) => {
            *entries = entries_in(&hba.write(offset, size, value));
            Status::Done
        }
        None => Status::WrongLength,
    }
}

/// Power-on. `entries` is how many entries the journal has that is handed out, if the port is reset.
pub fn power_on<A: Allocator + Copy, S: SectorStore>(
    hba: &mut Hba<A, S>,
    entries: &mut u64,
) -> Status
    ensures { AnswersPowerOn result hba.old hba.new entries.new }
{
    *entries = entries_in(&hba.power_on());
    Status::Done
}

/// How many entries the journal has that was handed out.
pub(crate) fn entries_in<A: Allocator>(journal: &Option<Journal<A>>) -> u64
    ensures { result ≡ entries_in journal.now }
{
    match journal {
        Some(journal) => journal.len(),
        None => 0,
    }
}
