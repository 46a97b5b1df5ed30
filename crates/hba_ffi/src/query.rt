//! What can be seen of a controller, and of the queue behind it.

ghost use Rattle.std.specs.Prelude.{◌≡◌, ◌↔◌, ◌<◌, ℕ, IsTrue, length, slice_index_or};
ghost use Rattle.ncq_journal.specs.{Numbering.{entry_numbered}, Sector.{sector}};
ghost use Rattle.ahci_ffi.specs.{Refusals.{copy_refusal}, Seen.{AnswersBytes, AnswersEntry, AnswersTouched, IsState, written_by}, Told.{Told}};
ghost use Rattle.ahci_hba.specs.{Moving.{want_of}, Stepping.{next_step}};
ghost use Rattle.power_loss.specs.Leaving.{MayBeLeft};
ghost use Rattle.hba_ffi.specs.Looking.{AnswersLeft, IsLook, Says, length_moved, step_number, want_number};

use crate::flat::FlatHba;
use ahci_ffi::{FlatEntry, FlatState, Status};
use ahci_hba::{Hba, Step, Want};
use ncq_journal::Journal;
use port_refusal::Refusal;
use sector_store::{SectorStore, Sectors};
use std::alloc::Allocator;

/// What the controller does next.
pub fn look<A: Allocator, S: SectorStore>(hba: &Hba<A, S>, look: &mut FlatHba) -> Status
    ensures done { result ≡ Status.Done }
    ensures look { IsLook hba.now look.new }
{
    *look = FlatHba {
        address: hba.address(),
        length: length_moved(hba),
        want: want_number(hba.want()),
        interrupt: u32::from(hba.interrupt()),
        sign: u32::from(hba.may_sign()),
        depth: hba.depth(),
        next: next_steps(hba),
    };
    Status::Done
}

/// How many bytes are read or written next.
fn length_moved<A: Allocator, S: SectorStore>(hba: &Hba<A, S>) -> u64
    ensures { result ≡ length_moved hba.now.dma }
{
    match hba.want() {
        Want::Nothing => 0,
        Want::Read => hba.read_length() as u64,
        Want::Write => hba.bytes().len() as u64,
    }
}

/// The number of what is done next with the driver's memory.
fn want_number(want: Want) -> u32
    ensures { result ≡ want_number want }
{
    match want {
        Want::Nothing => 0,
        Want::Read => 1,
        Want::Write => 2,
    }
}

/// The number of a step.
fn step_number(step: Option<Step>) -> u8
    ensures { result ≡ step_number step }
{
    match step {
        None => 0,
        Some(Step::Fetch) => 1,
        Some(Step::Send) => 2,
        Some(Step::Accept) => 3,
        Some(Step::Serve) => 4,
        Some(Step::Deliver) => 5,
        Some(Step::Execute) => 6,
        Some(Step::Control) => 7,
        Some(Step::Recover) => 8,
    }
}

/// By slot, the number of the next step with its command.
fn next_steps<A: Allocator, S: SectorStore>(hba: &Hba<A, S>) -> [u8; 32]
    ensures { (slot : ℕ) → slot < 32 → slice_index_or result slot 0 ≡ step_number (next_step hba.now slot) }
{
    let steps = hba.next_steps();
    let mut numbers = [0; 32];
    for slot in 0..32usize {
        numbers[slot] = step_number(steps[slot]);
    }
    numbers
}

/// Copies a sector as it is now.
pub fn copy<A: Allocator, S: SectorStore>(hba: &Hba<A, S>, lba: u64, out: &mut [u8]) -> Status
    ensures { Told result (copy_refusal hba.now.port lba (length out.old)) (out.new ≡ sector hba.now.port.starting hba.now.port.past lba) (out.new ≡ out.old) }
{
    ahci_ffi::copy(hba.port(), lba, out)
}

/// Copies the numbers of the pages of eight sectors that may have changed since the journal began to the beginning of `pages`;
/// `count` is how many there are.
pub fn touched<A: Allocator>(hba: &Hba<A, Sectors<A>>, pages: &mut [u32], count: &mut u64) -> Status
    ensures { AnswersTouched hba.now.port result count.new pages.old pages.new }
{
    ahci_ffi::touched(hba.port(), pages, count)
}

/// The entry of a number of the journal.
pub fn entry<A: Allocator, S: SectorStore>(
    hba: &Hba<A, S>,
    number: u64,
    entry: &mut FlatEntry,
) -> Status
    ensures { AnswersEntry (entry_numbered hba.now.port.first hba.now.port.past number) result entry.old entry.new }
{
    ahci_ffi::entry(hba.port(), number, entry)
}

/// Copies the bytes of the write that the entry of a number has issued.
pub fn entry_bytes<A: Allocator, S: SectorStore>(
    hba: &Hba<A, S>,
    number: u64,
    out: &mut [u8],
) -> Status
    ensures { AnswersBytes (written_by (entry_numbered hba.now.port.first hba.now.port.past number)) result out.old out.new }
{
    ahci_ffi::entry_bytes(hba.port(), number, out)
}

/// All that can be seen of the queue behind the controller.
pub fn port<A: Allocator, S: SectorStore>(hba: &Hba<A, S>, state: &mut FlatState) -> Status
    ensures done { result ≡ Status.Done }
    ensures state { IsState hba.now.port state.new }
{
    ahci_ffi::state(hba.port(), state)
}

/// Whether a sector may have these bytes after a loss of power, where it had the bytes `was` when the journal began.
pub fn may_be_left<A: Allocator, S: SectorStore>(
    hba: &Hba<A, S>,
    was: &[u8],
    lba: u64,
    bytes: &[u8],
    may: &mut u32,
) -> Status
    ensures { AnswersLeft hba.now.port was.now lba bytes.now result may.old may.new }
{
    let port = hba.port();
    if was.len() != 512 || bytes.len() != 512 {
        return Status::WrongLength;
    }
    if lba >= u64::from(port.sectors()) {
        return Status::Refused(Refusal::NoSuchSector);
    }
    *may = left_word(was, port.journal(), lba, bytes);
    Status::Done
}

/// 1 if a sector may have these bytes after a loss of power, else 0.
fn left_word<A: Allocator>(was: &[u8], journal: &Journal<A>, lba: u64, bytes: &[u8]) -> u32
    ensures { Says (MayBeLeft was.now journal.now.past lba bytes.now) result }
{
    if may_be_left_by(was, journal, lba, bytes) {
        1
    } else {
        0
    }
}

/// Whether a sector may have these bytes after a loss of power.
fn may_be_left_by<A: Allocator>(was: &[u8], journal: &Journal<A>, lba: u64, bytes: &[u8]) -> bool
    ensures { IsTrue result ↔ MayBeLeft was.now journal.now.past lba bytes.now }
{
    power_loss::may_be_left(was, journal.entries(), lba, bytes)
}
