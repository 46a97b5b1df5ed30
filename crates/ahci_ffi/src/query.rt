//! What can be seen of a port.

ghost use Rattle.std.specs.{Prelude.{◌≡◌, length, None}, Option.{unwrap_or}};
ghost use Rattle.ahci_port.specs.PortView.{sectors_in};
ghost use Rattle.ahci_regs.specs.Reading.{read_of};
ghost use Rattle.ncq_journal.specs.Sector.{sector};
ghost use Rattle.ahci_ffi.specs.{Done.{AnswersRegister, IsSets}, Flat.{flat_slot, phase_number}, Refusals.{copy_refusal, received_refusal, with_tag}, Seen.{AnswersTouched}, Told.{Told}};

use crate::flat::{FlatSets, FlatSlot};
use crate::status::Status;
use ahci_port::Port;
use ncq_journal::Phase;
use port_refusal::Refusal;
use sector_store::{SectorStore, Sectors};
use std::alloc::Allocator;

/// How many slots there are.
pub fn depth<A: Allocator, S: SectorStore>(port: &Port<A, S>, depth: &mut u32) -> Status
    ensures done { result ≡ Status.Done }
    ensures depth { depth.new ≡ port.now.depth }
{
    *depth = port.depth();
    Status::Done
}

/// How many sectors the disk has.
pub fn sectors<A: Allocator, S: SectorStore>(port: &Port<A, S>, sectors: &mut u32) -> Status
    ensures done { result ≡ Status.Done }
    ensures sectors { sectors.new ≡ sectors_in port.now }
{
    *sectors = port.sectors();
    Status::Done
}

/// Reads the register at an offset.
pub fn register<A: Allocator, S: SectorStore>(
    port: &Port<A, S>,
    offset: u32,
    word: &mut u32,
) -> Status
    ensures { AnswersRegister (read_of port.now.registers offset) result word.old word.new }
{
    match port.register(offset) {
        Ok(read) => {
            *word = read;
            Status::Done
        }
        Err(fault) => Status::Refused(fault.into()),
    }
}

/// Copies the received FIS area.
pub fn received<A: Allocator, S: SectorStore>(port: &Port<A, S>, out: &mut [u8]) -> Status
    ensures { Told result (received_refusal (length out.old)) (out.new ≡ port.now.area) (out.new ≡ out.old) }
{
    if out.len() != 256 {
        return Status::WrongLength;
    }
    out.copy_from_slice(port.received());
    Status::Done
}

/// Copies a sector as it is now.
pub fn copy<A: Allocator, S: SectorStore>(port: &Port<A, S>, lba: u64, out: &mut [u8]) -> Status
    ensures { Told result (copy_refusal port.now lba (length out.old)) (out.new ≡ sector port.now.starting port.now.past lba) (out.new ≡ out.old) }
{
    if out.len() != 512 {
        return Status::WrongLength;
    }
    if lba >= u64::from(port.sectors()) {
        return Status::Refused(Refusal::NoSuchSector);
    }
    port.copy(lba, out);
    Status::Done
}

/// Copies the numbers of the pages of eight sectors that may have changed since the journal began to the beginning of `pages`;
/// `count` is how many there are.
pub fn touched<A: Allocator>(
    port: &Port<A, Sectors<A>>,
    pages: &mut [u32],
    count: &mut u64,
) -> Status
    ensures { AnswersTouched port.now result count.new pages.old pages.new }
{
    let Some(touched) = port.touched() else {
        *count = 0;
        return Status::BadKind;
    };
    *count = touched.len() as u64;
    if pages.len() < touched.len() {
        return Status::BufferTooSmall;
    }
    pages[..touched.len()].copy_from_slice(touched);
    Status::Done
}

/// Which tags wait for what.
pub fn tag_sets<A: Allocator, S: SectorStore>(port: &Port<A, S>, sets: &mut FlatSets) -> Status
    ensures done { result ≡ Status.Done }
    ensures sets { IsSets port.now sets.new }
{
    let found = port.tag_sets();
    *sets = FlatSets {
        issued: found.issued,
        accepted: found.accepted,
        held: found.held,
    };
    Status::Done
}

/// One slot.
pub fn slot<A: Allocator, S: SectorStore>(
    port: &Port<A, S>,
    tag: u32,
    slot: &mut FlatSlot,
) -> Status
    ensures { Told result (with_tag tag None) (slot.new ≡ flat_slot port.now tag) (slot.new ≡ slot.old) }
{
    if tag >= 32 {
        return Status::BadTag;
    }
    *slot = slot_of(port, tag as u8);
    Status::Done
}

/// The slot of a tag, as a struct.
pub(crate) fn slot_of<A: Allocator, S: SectorStore>(port: &Port<A, S>, tag: u8) -> FlatSlot
    ensures { result ≡ flat_slot port.now tag }
{
    let owner = port.owner(tag);
    FlatSlot {
        number: owner.unwrap_or(0),
        bytes: port.read_length(tag).unwrap_or(0),
        phase: phase_number(port.phase(tag)),
        owned: u32::from(owner.is_some()),
    }
}

/// The number of a phase.
pub(crate) fn phase_number(phase: Phase) -> u32
    ensures { result ≡ phase_number phase }
{
    match phase {
        Phase::Free => 0,
        Phase::Issued => 1,
        Phase::Accepted => 2,
        Phase::Rejected => 3,
        Phase::Broken => 4,
        Phase::Held => 5,
        Phase::Done => 6,
    }
}
