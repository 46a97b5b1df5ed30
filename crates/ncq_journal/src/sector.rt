//! Sectors of an image, and those that a journal leaves.

ghost use Rattle.std.specs.Prelude.{◌≡◌, ◌+◌, ◌*◌, ◌/◌, ◌≤◌, length, take, drop};
ghost use Rattle.ncq_journal.specs.History.{history_of};
ghost use Rattle.ncq_journal.specs.Image.{sector_at, covers, is_within, zero_sector, zeroed, IsWrittenOver, IsZeroedOver};
ghost use Rattle.ncq_journal.specs.Sector.{sector, completed};
ghost use Rattle.ncq_journal.specs.Work.{work_of};

use crate::event::Event;
use crate::op::Op;
use crate::request::{Request, request_of};
use std::alloc::Allocator;

/// Sector `number` of these bytes: 512 of them, fewer where they end within it, and none past their end.
pub fn sector_in(bytes: &[u8], number: u64) -> &[u8]
    ensures { result.now ≡ sector_at bytes.now number }
{
    let start = (number as usize).saturating_mul(512).min(bytes.len());
    let rest = &bytes[start..];
    &rest[..rest.len().min(512)]
}

/// Reads sectors of an image from `lba` on, as many bytes as `out` has.
pub fn read_sectors(image: &[u8], lba: u64, out: &mut [u8])
    requires { 512 * lba + length out.old ≤ length image.now }
    ensures { out.new ≡ take (length out.old) (drop (512 * lba) image.now) }
{
    let start = lba as usize * 512;
    let end = start + out.len();
    out.copy_from_slice(&image[start..end]);
}

/// Writes these bytes, whole sectors, over those of an image from `lba` on. Every other sector stays.
pub fn write_sectors(image: &mut [u8], lba: u64, bytes: &[u8])
    requires whole { length bytes.now ≡ 512 * (length bytes.now / 512) }
    requires fits { 512 * lba + length bytes.now ≤ length image.old }
    ensures len { length image.new ≡ length image.old }
    ensures sectors { IsWrittenOver lba bytes.now image.old image.new }
{
    let start = lba as usize * 512;
    let end = start + bytes.len();
    image[start..end].copy_from_slice(bytes);
}

/// Makes so many sectors of an image from `lba` on zeros. Every other sector stays.
pub fn zero_sectors(image: &mut [u8], lba: u64, sectors: u32)
    requires { 512 * (lba + sectors) ≤ length image.old }
    ensures len { length image.new ≡ length image.old }
    ensures sectors { IsZeroedOver lba sectors image.old image.new }
{
    let start = lba as usize * 512;
    let end = start + sectors as usize * 512;
    image[start..end].fill(0);
}

/// Whether the sector at `lba` is one of so many from `first` on.
pub fn is_within(first: u64, sectors: u32, lba: u64) -> bool
    ensures { result ≡ is_within first sectors lba }
{
    first <= lba && lba - first < u64::from(sectors)
}

static ZERO_SECTOR: [u8; 512] = [0; 512];

/// A sector of zeros.
#[tactic(auto, unfolding(crate::specs::Image::zero_sector))]
fn zero_sector() -> &'static [u8]
    ensures { result.now ≡ zero_sector }
{
    ZERO_SECTOR.as_slice()
}

/// A sector once so many sectors from `first` on are zeros, where its bytes were `before`.
pub fn after_zero(first: u64, sectors: u32, lba: u64, before: &[u8]) -> &[u8]
    ensures { result.now ≡ zeroed first sectors lba before.now }
{
    if is_within(first, sectors, lba) {
        zero_sector()
    } else {
        before
    }
}

/// Whether the sector at `lba` is one that the command reads or writes.
pub fn is_covered<A: Allocator>(op: &Op<A>, lba: u64) -> bool
    ensures { result ≡ covers (work_of op.now) lba }
{
    op.lba() <= lba && lba - op.lba() < op.sectors()
}

/// A sector once the request is completed, where its bytes were `before`.
fn completed<'a, A: Allocator>(
    request: Option<Request<'a, A>>,
    lba: u64,
    before: &'a [u8],
) -> &'a [u8]
    ensures { result.now ≡ completed request.entry lba before.now }
{
    let Some(request) = request else {
        return before;
    };
    match request.op() {
        Op::Write { lba: first, bytes } if is_covered(request.op(), lba) => {
            sector_in(bytes.as_slice(), lba - *first)
        }
        _ => before,
    }
}

/// The bytes of a sector after these events, the oldest first, over a starting image.
#[tactic(auto, using(crate::proofs::HistoryLemmas::history_more, crate::proofs::HistoryLemmas::history_all))]
pub fn sector_of<'a, A: Allocator>(image: &'a [u8], events: &'a [Event<A>], lba: u64) -> &'a [u8]
    ensures { result.now ≡ sector image.now (history_of events.now) lba }
{
    let mut bytes = sector_in(image, lba);
    for (number, event) in events.iter().enumerate() {
        match event {
            Event::Complete(tag) => {
                bytes = completed(request_of(&events[..number], *tag), lba, bytes);
            }
            Event::Zero {
                lba: first,
                sectors,
            } => bytes = after_zero(*first, *sectors, lba, bytes),
            _ => {}
        }
    }
    bytes
}
