//! What one pass over a journal knows of each tag.

ghost use Rattle.std.specs.{Prelude.{◌≡◌, ◌<◌, [], ◌∷◌}, List.{list_any}};
ghost use Rattle.ncq_journal.specs.{EventKind.{entry_of_kind, journal_of}, Halted.{busy, halted}, TagState.{AreStates, has_failed, is_waiting, span_after, state_after, state_of}};

use crate::event_kind::{EventKind, NamesEvent, phase_after_kind};
use crate::phase::Phase;

/// The sectors of a command.
#[derive(Clone, Copy)]
pub(crate) struct Span {
    pub(crate) lba: u64,
    pub(crate) sectors: u64,
}

/// Where a list of events has left a tag: its phase, and the sectors of the command that it was last issued for.
#[derive(Clone, Copy)]
pub(crate) struct TagState {
    pub(crate) phase: Phase,
    pub(crate) span: Option<Span>,
}

/// The states of the tags before the first event.
pub(crate) fn first_states() -> [TagState; 32]
    ensures { AreStates [] result }
{
    [TagState {
        phase: Phase::Free,
        span: None,
    }; 32]
}

/// The state of a tag after these events.
pub(crate) fn state_of<E: NamesEvent>(tags: &[TagState; 32], past: &[E], tag: u8) -> TagState
    requires known { AreStates (journal_of E.event past.now) tags.now }
    requires low { tag < 32 }
    ensures { result ≡ state_of (journal_of E.event past.now) tag }
{
    tags[usize::from(tag)]
}

/// The states of the tags after one more event.
pub(crate) fn states_after<E: NamesEvent>(
    tags: &[TagState; 32],
    past: &[E],
    kind: EventKind,
) -> [TagState; 32]
    requires { AreStates (journal_of E.event past.now) tags.now }
    ensures { AreStates (entry_of_kind kind ∷ journal_of E.event past.now) result }
{
    let mut next = *tags;
    for tag in 0..32u8 {
        next[usize::from(tag)] = state_after(tag, state_of(tags, past, tag), kind);
    }
    next
}

/// The state of a tag after one more event, where it had this one before.
fn state_after(tag: u8, before: TagState, kind: EventKind) -> TagState
    ensures { result ≡ state_after tag before (entry_of_kind kind) }
{
    TagState {
        phase: phase_after_kind(tag, before.phase, kind),
        span: span_after(tag, before.span, kind),
    }
}

/// The sectors of a tag's last command after one more event.
#[tactic(auto, using(crate::proofs::KindLemmas::span_of_kind))]
fn span_after(tag: u8, before: Option<Span>, kind: EventKind) -> Option<Span>
    ensures { result ≡ span_after tag before (entry_of_kind kind) }
{
    match kind {
        EventKind::Issue {
            tag: t,
            lba,
            sectors,
            ..
        } if t == tag => Some(Span { lba, sectors }),
        _ => before,
    }
}

/// Whether some tag's command has failed, and the port has not recovered.
#[tactic(auto, using(crate::proofs::KindLemmas::halted_known))]
pub(crate) fn is_halted<E: NamesEvent>(tags: &[TagState; 32], past: &[E]) -> bool
    requires { AreStates (journal_of E.event past.now) tags.now }
    ensures { result ≡ halted (journal_of E.event past.now) }
{
    some_failed(tags)
}

/// Whether some tag's command has failed.
fn some_failed(tags: &[TagState; 32]) -> bool
    ensures { result ≡ list_any has_failed tags.now }
{
    tags.iter().any(|state| state.phase.is_failed())
}

/// Whether some tag waits for the device or is outstanding in it, after these events.
#[tactic(auto, using(crate::proofs::KindLemmas::busy_known))]
pub(crate) fn is_busy<E: NamesEvent>(tags: &[TagState; 32], past: &[E]) -> bool
    requires { AreStates (journal_of E.event past.now) tags.now }
    ensures { result ≡ busy (journal_of E.event past.now) }
{
    some_waiting(tags)
}

/// Whether some tag waits for the device or is outstanding in it.
fn some_waiting(tags: &[TagState; 32]) -> bool
    ensures { result ≡ list_any is_waiting tags.now }
{
    tags.iter().any(|state| state.phase.is_busy())
}
