//! The first event of a list that can't come where it is. `is_lawful` asks the same of each event by its definition; this goes
//! over the events once.

ghost use Rattle.std.specs.Prelude.{◌≡◌, ◌↔◌, ◌≤◌, ◌<◌, false, IsTrue, MatchOption};
ghost use Rattle.ncq_journal.specs.{EventKind.{HasLowTag, IsFirstUnlawful, entry_of_kind, journal_of, work_over}, Lawful.{Fails, Fits, IsAllowed, IsLawful, IsProper, MayAccept, MayFail, MayIssue, MaySend, Refuses}, TagState.{AreStates}};

use crate::event_kind::{EventKind, NamesEvent, has_low_tag};
use crate::lawful::{LBA_LIMIT, MAX_COUNT, lie_on};
use crate::phase::Phase;
use crate::plain::Plain;
use crate::tag_state::{Span, TagState, first_states, is_busy, is_halted, state_of, states_after};

/// The place of the first event that can't come where it is, on a disk of so many sectors with so many slots, at most 32. The
/// events are a journal from its beginning on, the oldest first.
pub fn first_unlawful<E: NamesEvent>(sectors: u32, depth: u32, events: &[E]) -> Option<usize>
    requires { depth ≤ 32 }
    ensures { MatchOption result (IsLawful sectors depth (journal_of E.event events.now)) (λ place. IsFirstUnlawful E.event sectors depth events.now place) }
{
    let mut tags = first_states();
    for (place, event) in events.iter().enumerate() {
        let past = &events[..place];
        let kind = event.kind();
        if !may_come(sectors, depth, &tags, past, kind) {
            return Some(place);
        }
        tags = states_after(&tags, past, kind);
    }
    None
}

/// Whether an event may come next after these, which are lawful and have left the tags so.
#[tactic(auto, using(crate::proofs::KindLemmas::allowed_is_low))]
fn may_come<E: NamesEvent>(
    sectors: u32,
    depth: u32,
    tags: &[TagState; 32],
    past: &[E],
    kind: EventKind,
) -> bool
    requires depth { depth ≤ 32 }
    requires lawful { IsLawful sectors depth (journal_of E.event past.now) }
    requires known { AreStates (journal_of E.event past.now) tags.now }
    ensures { IsTrue result ↔ IsAllowed sectors depth (journal_of E.event past.now) (entry_of_kind kind) }
{
    has_low_tag(kind) && low_may_come(sectors, depth, tags, past, kind)
}

/// The same of an event that names one of 32 tags, or none.
fn low_may_come<E: NamesEvent>(
    sectors: u32,
    depth: u32,
    tags: &[TagState; 32],
    past: &[E],
    kind: EventKind,
) -> bool
    requires known { AreStates (journal_of E.event past.now) tags.now }
    requires low { HasLowTag kind }
    ensures { IsTrue result ↔ IsAllowed sectors depth (journal_of E.event past.now) (entry_of_kind kind) }
{
    match kind {
        EventKind::Issue {
            tag,
            write,
            lba,
            sectors,
        } => may_issue(depth, tags, past, tag, write, Span { lba, sectors }),
        EventKind::Accept(tag) => may_accept(sectors, tags, past, tag),
        EventKind::Complete(tag) => {
            state_of(tags, past, tag).phase == Phase::Accepted && !is_halted(tags, past)
        }
        EventKind::Fail { tag, error, lba } => may_fail(sectors, tags, past, tag, error, lba),
        EventKind::Recover(tag) => state_of(tags, past, tag).phase.is_failed(),
        EventKind::Reissue(tag) => {
            state_of(tags, past, tag).phase == Phase::Held && !is_halted(tags, past)
        }
        EventKind::Collect(tag) => state_of(tags, past, tag).phase == Phase::Done,
        EventKind::Plain(command) => command != Plain::ReadLog && may_send(tags, past),
        EventKind::Zero {
            lba,
            sectors: count,
        } => lie_on(sectors, lba, count) && may_send(tags, past),
    }
}

fn may_issue<E: NamesEvent>(
    depth: u32,
    tags: &[TagState; 32],
    past: &[E],
    tag: u8,
    write: bool,
    span: Span,
) -> bool
    requires known { AreStates (journal_of E.event past.now) tags.now }
    requires low { tag < 32 }
    ensures { IsTrue result ↔ MayIssue depth (journal_of E.event past.now) tag (work_over write span.lba span.sectors) }
{
    u32::from(tag) < depth
        && state_of(tags, past, tag).phase == Phase::Free
        && !is_halted(tags, past)
        && is_proper(write, span)
}

/// Whether a command over these sectors can be issued.
fn is_proper(write: bool, span: Span) -> bool
    ensures { IsTrue result ↔ IsProper (work_over write span.lba span.sectors) }
{
    span.sectors >= 1 && span.sectors <= u64::from(MAX_COUNT) && span.lba < LBA_LIMIT
}

fn may_accept<E: NamesEvent>(sectors: u32, tags: &[TagState; 32], past: &[E], tag: u8) -> bool
    requires known { AreStates (journal_of E.event past.now) tags.now }
    requires low { tag < 32 }
    ensures { IsTrue result ↔ MayAccept sectors (journal_of E.event past.now) tag }
{
    let state = state_of(tags, past, tag);
    let Some(span) = state.span else {
        return false;
    };
    state.phase == Phase::Issued && !is_halted(tags, past) && fits(sectors, span)
}

/// Whether a command ends at the disk's last sector or before it.
fn fits(sectors: u32, span: Span) -> bool
    ensures { IsTrue result ↔ Fits sectors (work_over false span.lba span.sectors) }
{
    let size = u64::from(sectors);
    span.lba <= size && span.sectors <= size - span.lba
}

fn may_fail<E: NamesEvent>(
    sectors: u32,
    tags: &[TagState; 32],
    past: &[E],
    tag: u8,
    error: u8,
    lba: u64,
) -> bool
    requires known { AreStates (journal_of E.event past.now) tags.now }
    requires low { tag < 32 }
    ensures { IsTrue result ↔ MayFail sectors (journal_of E.event past.now) tag error lba }
{
    let state = state_of(tags, past, tag);
    let Some(span) = state.span else {
        return false;
    };
    !is_halted(tags, past) && fails(sectors, state.phase, span, error, lba)
}

/// Whether the device may fail a command in this phase, with this error at this LBA.
fn fails(sectors: u32, phase: Phase, span: Span, error: u8, lba: u64) -> bool
    ensures { IsTrue result ↔ Fails sectors phase (work_over false span.lba span.sectors) error lba }
{
    match phase {
        Phase::Accepted => lba >= span.lba && lba - span.lba < span.sectors,
        Phase::Issued => refuses(sectors, span, error, lba),
        _ => false,
    }
}

fn refuses(sectors: u32, span: Span, error: u8, lba: u64) -> bool
    ensures { IsTrue result ↔ Refuses sectors (work_over false span.lba span.sectors) error lba }
{
    !fits(sectors, span) && error == 0x10 && lba == span.lba.max(u64::from(sectors))
}

/// Whether a command that isn't queued may be sent: the port runs, and no tag waits for the device or is outstanding in it.
fn may_send<E: NamesEvent>(tags: &[TagState; 32], past: &[E]) -> bool
    requires { AreStates (journal_of E.event past.now) tags.now }
    ensures { IsTrue result ↔ MaySend (journal_of E.event past.now) }
{
    !is_halted(tags, past) && !is_busy(tags, past)
}
