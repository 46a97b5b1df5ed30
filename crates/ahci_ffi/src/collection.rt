//! How answers are taken.

ghost use Rattle.std.specs.Prelude.{◌≡◌, ◌<◌, ◌≤◌, length};
ghost use Rattle.ahci_port.specs.Slots.{bytes_in};
ghost use Rattle.ahci_table.specs.{Fit.{IsFit}, Prdt.{pieces}};
ghost use Rattle.ahci_ffi.specs.{Calls.{AnswersCollect}, Done.{HasCollected, HasLength}, Flat.{begun_with, flat_reply}, Refusals.{is_short, slot_refusal}};

use crate::flat::FlatReply;
use crate::status::Status;
use ahci_port::{Outcome, Port, Reply};
use ahci_table::{Piece, Window};
use ncq_journal::Phase;
use port_refusal::Refusal;
use sector_store::SectorStore;
use std::alloc::Allocator;

/// Takes the answer of a request and frees its slot. What a read has read is at the beginning of `out` then. It takes no
/// memory, and a buffer that is too small is reported before anything changes.
pub fn collect<A: Allocator, S: SectorStore>(
    port: &mut Port<A, S>,
    tag: u32,
    number: u64,
    reply: &mut FlatReply,
    out: &mut [u8],
) -> Status
    ensures { AnswersCollect tag number result port.old port.new reply.old reply.new out.old out.new }
{
    if tag >= 32 {
        return Status::BadTag;
    }
    let tag = tag as u8;
    if let Some(refusal) = refusal(port, tag, number, out.len()) {
        return refusal;
    }
    *reply = taken(port, tag, number, out);
    Status::Done
}

/// Takes an answer that isn't refused.
fn taken<A: Allocator, S: SectorStore>(
    port: &mut Port<A, S>,
    tag: u8,
    number: u64,
    out: &mut [u8],
) -> FlatReply
    requires tag { tag < 32 }
    requires free { slot_refusal port.old tag number (length out.old) ≡ None }
    ensures { HasCollected tag number port.old port.new result out.old out.new }
{
    port.keeps_its_promise();
    let bytes = port.read_length(tag).unwrap_or(0);
    match port.collect_with_pieces(tag, number) {
        Ok((ended, list, window)) => copied(&ended, &list, &window, bytes, out),
        // It is the slot's request, and done.
        Err(_) => unreachable!(),
    }
}

/// Why the request of a tag below 32 is not collected into a buffer with so much room.
fn refusal<A: Allocator, S: SectorStore>(
    port: &Port<A, S>,
    tag: u8,
    number: u64,
    room: usize,
) -> Option<Status>
    ensures { result ≡ slot_refusal port.now tag number room }
{
    match port.owner(tag) {
        Some(owner) if owner == number => match port.phase(tag) {
            Phase::Done if is_short(port.read_length(tag), room) => Some(Status::BufferTooSmall),
            Phase::Done => None,
            _ => Some(Status::Refused(Refusal::NotYet)),
        },
        _ => Some(Status::Refused(Refusal::Stranger)),
    }
}

/// Whether there is less room than a request reads.
fn is_short(read: Option<u64>, room: usize) -> bool
    ensures { result ≡ is_short read room }
{
    match read {
        Some(bytes) => (room as u64) < bytes,
        None => false,
    }
}

/// The answer as a struct, and a finished read's bytes, which are its window's text, at the beginning of a buffer.
fn copied<A: Allocator>(
    ended: &Reply,
    list: &[Piece],
    window: &Window<A>,
    bytes: u64,
    out: &mut [u8],
) -> FlatReply
    requires fit { IsFit window.now }
    requires list { list.now ≡ pieces window.now }
    requires len { HasLength ended.now.outcome window.now bytes }
    requires room { bytes ≤ length out.old }
    ensures reply { result ≡ flat_reply ended.now.number ended.now.outcome ended.now.entry (length (bytes_in ended.now.outcome window.now)) }
    ensures out { out.new ≡ begun_with (bytes_in ended.now.outcome window.now) out.old }
{
    let Reply {
        number,
        entry,
        outcome,
    } = *ended;
    let flat = FlatReply {
        number,
        entry,
        ..FlatReply::default()
    };
    match outcome {
        Outcome::Read => {
            window.gather_in(list, 0, &mut out[..bytes as usize]);
            FlatReply { bytes, ..flat }
        }
        Outcome::Wrote => FlatReply { outcome: 1, ..flat },
        Outcome::Failed { error, lba } => FlatReply {
            lba,
            outcome: 2,
            error: u32::from(error),
            ..flat
        },
    }
}
