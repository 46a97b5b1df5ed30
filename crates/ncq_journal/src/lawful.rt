//! Which event may come next, and which journals can come about: the plain definitions.

ghost use Rattle.std.specs.Prelude.{◌↔◌, ◌≤◌, IsTrue};
ghost use Rattle.ncq_journal.specs.Entry.{entry_of};
ghost use Rattle.ncq_journal.specs.History.{history_of};
ghost use Rattle.ncq_journal.specs.Lawful.{AllProper, IsAllowed, IsLawful, IsProper, MayIssue, MayAccept, MayFail, MaySend, Fails, LieOn, Refuses};
ghost use Rattle.ncq_journal.specs.Work.{work_of};

use crate::event::Event;
use crate::halted::{is_busy, is_halted};
use crate::op::Op;
use crate::phase::{Phase, phase_of};
use crate::plain::Plain;
use crate::request::request_of;
use crate::sector::is_covered;
use std::alloc::Allocator;

/// How many sectors a command has at most.
pub const MAX_COUNT: u32 = 65_536;

/// Every LBA of a command is below this.
pub const LBA_LIMIT: u64 = 1 << 48;

/// Whether a command can be issued: 1 to 65,536 whole sectors from a 48-bit LBA on.
pub fn is_proper<A: Allocator>(op: &Op<A>) -> bool
    ensures { IsTrue result ↔ IsProper (work_of op.now) }
{
    let whole = match op {
        Op::Read { .. } => true,
        Op::Write { bytes, .. } => bytes.as_slice().len() % 512 == 0,
    };
    whole && op.sectors() >= 1 && op.sectors() <= u64::from(MAX_COUNT) && op.lba() < LBA_LIMIT
}

fn may_issue<A: Allocator>(depth: u32, past: &[Event<A>], tag: u8, op: &Op<A>) -> bool
    ensures { IsTrue result ↔ MayIssue depth (history_of past.now) tag (work_of op.now) }
{
    u32::from(tag) < depth
        && phase_of(past, tag) == Phase::Free
        && !is_halted(past)
        && is_proper(op)
}

fn may_accept<A: Allocator>(sectors: u32, past: &[Event<A>], tag: u8) -> bool
    ensures { IsTrue result ↔ MayAccept sectors (history_of past.now) tag }
{
    let Some(request) = request_of(past, tag) else {
        return false;
    };
    phase_of(past, tag) == Phase::Issued
        && !is_halted(past)
        && request.op().lba() <= u64::from(sectors)
        && request.op().sectors() <= u64::from(sectors) - request.op().lba()
}

/// Whether a command that is not queued may be sent: the port runs, and no tag waits for the device or is outstanding in it.
fn may_send<A: Allocator>(past: &[Event<A>]) -> bool
    ensures { IsTrue result ↔ MaySend (history_of past.now) }
{
    !is_halted(past) && !is_busy(past)
}

/// Whether so many sectors from an LBA on, at least one, are sectors of a disk of `size` sectors.
pub fn lie_on(size: u32, lba: u64, sectors: u32) -> bool
    ensures { IsTrue result ↔ LieOn size lba sectors }
{
    let size = u64::from(size);
    sectors >= 1 && lba <= size && u64::from(sectors) <= size - lba
}

/// Whether the event may come next after these, the oldest first, on a disk of so many sectors with so many slots, at
/// most 32.
pub fn is_allowed<A: Allocator>(
    sectors: u32,
    depth: u32,
    past: &[Event<A>],
    event: &Event<A>,
) -> bool
    requires { depth ≤ 32 }
    ensures { IsTrue result ↔ IsAllowed sectors depth (history_of past.now) (entry_of event.now) }
{
    match event {
        Event::Issue(tag, op) => may_issue(depth, past, *tag, op),
        Event::Accept(tag) => may_accept(sectors, past, *tag),
        Event::Complete(tag) => phase_of(past, *tag) == Phase::Accepted && !is_halted(past),
        Event::Fail { tag, error, lba } => may_fail(sectors, past, *tag, *error, *lba),
        Event::Recover(tag) => phase_of(past, *tag).is_failed(),
        Event::Reissue(tag) => phase_of(past, *tag) == Phase::Held && !is_halted(past),
        Event::Collect(tag) => phase_of(past, *tag) == Phase::Done,
        Event::Plain(command) => *command != Plain::ReadLog && may_send(past),
        Event::Zero {
            lba,
            sectors: count,
        } => lie_on(sectors, *lba, *count) && may_send(past),
    }
}

fn may_fail<A: Allocator>(sectors: u32, past: &[Event<A>], tag: u8, error: u8, lba: u64) -> bool
    ensures { IsTrue result ↔ MayFail sectors (history_of past.now) tag error lba }
{
    let Some(request) = request_of(past, tag) else {
        return false;
    };
    !is_halted(past) && fails(sectors, phase_of(past, tag), request.op(), error, lba)
}

/// Whether the device may fail a command in this phase, with this error at this LBA.
fn fails<A: Allocator>(sectors: u32, phase: Phase, op: &Op<A>, error: u8, lba: u64) -> bool
    ensures { IsTrue result ↔ Fails sectors phase (work_of op.now) error lba }
{
    match phase {
        Phase::Accepted => is_covered(op, lba),
        Phase::Issued => refuses(sectors, op, error, lba),
        _ => false,
    }
}

fn refuses<A: Allocator>(sectors: u32, op: &Op<A>, error: u8, lba: u64) -> bool
    ensures { IsTrue result ↔ Refuses sectors (work_of op.now) error lba }
{
    let size = u64::from(sectors);
    let passes = op.lba() > size || op.sectors() > size - op.lba();
    passes && error == 0x10 && lba == op.lba().max(size)
}

/// Whether these events, the oldest first, can come about on a disk of so many sectors with so many slots, at
/// most 32.
#[tactic(auto, using(crate::proofs::HistoryLemmas::history_more, crate::proofs::HistoryLemmas::history_all, crate::proofs::LawfulLemmas::allowed_at, crate::proofs::LawfulLemmas::lawful_proper))]
pub fn is_lawful<A: Allocator>(sectors: u32, depth: u32, events: &[Event<A>]) -> bool
    requires { depth ≤ 32 }
    ensures lawful { IsTrue result ↔ IsLawful sectors depth (history_of events.now) }
    ensures proper { IsTrue result → AllProper (history_of events.now) }
{
    for (number, event) in events.iter().enumerate() {
        if !is_allowed(sectors, depth, &events[..number], event) {
            return false;
        }
    }
    true
}
