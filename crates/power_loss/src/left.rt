//! What a sector may hold after a loss of power.

ghost use Rattle.std.specs.Prelude.{◌≡◌, ◌↔◌, IsTrue, IsSomeAnd};
ghost use Rattle.ncq_journal.specs.Entry.{entry_of};
ghost use Rattle.ncq_journal.specs.History.{history_of};
ghost use Rattle.ncq_journal.specs.Request.{request};
ghost use Rattle.ncq_journal.specs.Sector.{completed};
ghost use Rattle.power_loss.specs.Leaving.{DoneMayLeave, LeavesAfter, MayBeLeft, OutstandingMayLeave, SomeMayLeave, Writes, Zeroes, after_entry};

use ncq_journal::{
    Event, Op, Plain, Request, after_zero, is_covered, is_within, phase_of, request_of, sector_in,
};
use std::alloc::Allocator;

/// Whether a request is a write that has these bytes for the sector.
fn writes<A: Allocator>(request: Option<Request<A>>, lba: u64, bytes: &[u8]) -> bool
    ensures { IsTrue result ↔ IsSomeAnd request.entry (Writes lba bytes.now) }
{
    let Some(request) = request else {
        return false;
    };
    match request.op() {
        Op::Write {
            lba: first,
            bytes: written,
        } if is_covered(request.op(), lba) => sector_in(written.as_slice(), lba - *first) == bytes,
        _ => false,
    }
}

/// Whether so many sectors from `first` on that become zeros have these bytes for the sector.
fn zeroes(first: u64, sectors: u32, lba: u64, bytes: &[u8]) -> bool
    ensures { IsTrue result ↔ Zeroes lba bytes.now first sectors }
{
    is_within(first, sectors, lba) && after_zero(first, sectors, lba, bytes) == bytes
}

/// The sector once a request is completed, where its bytes were `now`.
fn completed<'a, A: Allocator>(request: Option<Request<'a, A>>, lba: u64, now: &'a [u8]) -> &'a [u8]
    ensures { result.now ≡ completed request.entry lba now.now }
{
    let Some(request) = request else {
        return now;
    };
    match request.op() {
        Op::Write { lba: first, bytes } if is_covered(request.op(), lba) => {
            sector_in(bytes.as_slice(), lba - *first)
        }
        _ => now,
    }
}

/// The sector after an event, where its bytes were `now`.
fn after_event<'a, A: Allocator>(
    event: &Event<A>,
    before: &'a [Event<A>],
    lba: u64,
    now: &'a [u8],
) -> &'a [u8]
    ensures { result.now ≡ after_entry (entry_of event.now) (history_of before.now) lba now.now }
{
    match event {
        Event::Complete(tag) => completed(request_of(before, *tag), lba, now),
        Event::Zero {
            lba: first,
            sectors,
        } => after_zero(*first, *sectors, lba, now),
        _ => now,
    }
}

/// Whether the sector may have these bytes after an event, where it has the bytes `now` in the journal, and may have had them before or not.
fn leaves_after<A: Allocator>(
    event: &Event<A>,
    before: &[Event<A>],
    lba: u64,
    now: &[u8],
    bytes: &[u8],
    may: bool,
) -> bool
    ensures { IsTrue result ↔ LeavesAfter (entry_of event.now) (history_of before.now) lba now.now bytes.now (IsTrue may) }
{
    match event {
        Event::Complete(tag) => may || writes(request_of(before, *tag), lba, bytes),
        Event::Plain(Plain::Flush) => now == bytes,
        Event::Zero {
            lba: first,
            sectors,
        } => may || zeroes(*first, *sectors, lba, bytes),
        _ => may,
    }
}

/// Whether the sector may have these bytes by the commands that are done.
#[tactic(auto, using(ncq_journal::proofs::HistoryLemmas::history_more, ncq_journal::proofs::HistoryLemmas::history_all, crate::proofs::LeavingLemmas::leaves_next))]
fn done_may_leave<A: Allocator>(was: &[u8], events: &[Event<A>], lba: u64, bytes: &[u8]) -> bool
    ensures { IsTrue result ↔ DoneMayLeave was.now (history_of events.now) lba bytes.now }
{
    let mut now = was;
    let mut may = was == bytes;
    for (number, event) in events.iter().enumerate() {
        let before = &events[..number];
        may = leaves_after(event, before, lba, now, bytes, may);
        now = after_event(event, before, lba, now);
    }
    may
}

/// Whether a tag has a write outstanding that has these bytes for the sector.
fn outstanding_may_leave<A: Allocator>(events: &[Event<A>], tag: u8, lba: u64, bytes: &[u8]) -> bool
    ensures { IsTrue result ↔ OutstandingMayLeave (history_of events.now) lba bytes.now tag }
{
    phase_of(events, tag).is_busy() && writes(request_of(events, tag), lba, bytes)
}

/// Whether some tag has.
fn some_may_leave<A: Allocator>(events: &[Event<A>], lba: u64, bytes: &[u8]) -> bool
    ensures { IsTrue result ↔ SomeMayLeave (history_of events.now) lba bytes.now }
{
    for tag in 0..32 {
        if outstanding_may_leave(events, tag, lba, bytes) {
            return true;
        }
    }
    false
}

/// Whether a sector may have these bytes after a loss of power, where it had the bytes `was` when the events began, the oldest of them first: what the
/// last FLUSH CACHE has made durable, or zeros or what a write has for it that came since, or what an outstanding write has (ACS-3, "Volatile write cache").
/// A command that failed has stored nothing, and a sector is stored whole or not at all.
pub fn may_be_left<A: Allocator>(was: &[u8], events: &[Event<A>], lba: u64, bytes: &[u8]) -> bool
    ensures { IsTrue result ↔ MayBeLeft was.now (history_of events.now) lba bytes.now }
{
    done_may_leave(was, events, lba, bytes) || some_may_leave(events, lba, bytes)
}
