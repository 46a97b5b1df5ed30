//! How software issues a command: by a window as it lies in memory, or by one that is laid out here.

ghost use Rattle.std.specs.Prelude.{◌≡◌, length, IfOk};
ghost use Rattle.ncq_journal.specs.Work.{work_of};
ghost use Rattle.ahci_ffi.specs.{Asked.{AnswersIssue, has_fua, kind_refusal, work_asked, writes}, Calls.{AnswersSubmit}, Done.{AnswersWindow}};

use crate::status::Status;
use crate::windows::{tag_and_header, window_over};
use ahci_port::Port;
use ahci_table::{PieceLayout, Window};
use ncq_core::SECTOR;
use ncq_journal::{Bytes, Op};
use port_refusal::Refusal;
use sector_store::SectorStore;
use std::alloc::{AllocError, Allocator};

/// Issues the command of a window: its header, and the memory from the tag's base on. `number` is the request's then. The port's
/// own reasons are tested before the memory is copied.
pub fn issue<A: Allocator + Copy, S: SectorStore>(
    port: &mut Port<A, S>,
    alloc: A,
    tag: u32,
    header: &[u8],
    memory: &[u8],
    number: &mut u64,
) -> Status
    ensures { AnswersIssue tag header.now memory.now result port.old port.new number.old number.new }
{
    let (tag, header) = match tag_and_header(tag, header) {
        Ok(sized) => sized,
        Err(refusal) => return refusal,
    };
    if let Some(fault) = port.early_fault(tag) {
        return Status::Refused(fault.into());
    }
    match window_over(alloc, tag, header, memory) {
        Ok(window) => hand_in(port, window, number),
        Err(refused) => refused.into(),
    }
}

/// Issues a read or a write of whole sectors, with FUA or without, in a window with its data right behind the PRDT. `number` is the request's
/// then. All that can be wrong is looked at before memory is asked for.
pub fn submit<A: Allocator + Copy, S: SectorStore>(
    port: &mut Port<A, S>,
    alloc: A,
    tag: u32,
    kind: u32,
    lba: u64,
    sectors: u32,
    payload: &[u8],
    number: &mut u64,
) -> Status
    ensures { AnswersSubmit tag kind lba sectors payload.now result port.old port.new number.old number.new }
{
    if tag >= 32 {
        return Status::BadTag;
    }
    if let Some(refusal) = kind_refusal(kind, sectors, payload) {
        return refusal;
    }
    let tag = tag as u8;
    if let Some(fault) = port.submit_fault(tag, lba, u64::from(sectors)) {
        return Status::Refused(fault.into());
    }
    let op = match asked(alloc, kind, lba, sectors, payload) {
        Ok(op) => op,
        Err(refused) => return refused.into(),
    };
    match port.submit_tested(tag, op, has_fua(kind), PieceLayout::Packed) {
        Ok(issued) => {
            *number = issued;
            Status::Done
        }
        Err((_op, refused)) => refused.into(),
    }
}

/// Whether a command of this kind writes: 1 and 3 do, 0 and 2 read.
fn writes(kind: u32) -> bool
    ensures { result ≡ writes kind }
{
    kind % 2 == 1
}

/// Whether it has FUA: 2 and 3 have.
fn has_fua(kind: u32) -> bool
    ensures { result ≡ has_fua kind }
{
    kind >= 2
}

/// Why no command is made of these arguments.
fn kind_refusal(kind: u32, sectors: u32, payload: &[u8]) -> Option<Status>
    ensures { result ≡ kind_refusal kind sectors (length payload.now) }
{
    if kind > 3 {
        return Some(Status::BadKind);
    }
    if writes(kind) && payload.len() != SECTOR * sectors as usize {
        return Some(Status::Refused(Refusal::BadCount));
    }
    None
}

/// The command.
fn asked<A: Allocator>(
    alloc: A,
    kind: u32,
    lba: u64,
    sectors: u32,
    payload: &[u8],
) -> Result<Op<A>, AllocError>
    ensures { IfOk result (λ o. work_of o ≡ work_asked kind lba sectors payload.now) }
{
    if !writes(kind) {
        return Ok(Op::Read { lba, sectors });
    }
    let bytes = Bytes::from_vec(Vec::from_slice(alloc, payload)?);
    Ok(Op::Write { lba, bytes })
}

/// Hands a window to the port.
fn hand_in<A: Allocator + Copy, S: SectorStore>(
    port: &mut Port<A, S>,
    window: Window<A>,
    number: &mut u64,
) -> Status
    ensures { AnswersWindow window result port.old port.new number.old number.new }
{
    match port.issue(window) {
        Ok(issued) => {
            *number = issued;
            Status::Done
        }
        Err((_window, fault)) => Status::Refused(fault.into()),
    }
}
