ghost use Rattle.std.specs.Prelude.{◌≡◌, ◌≤◌};
ghost use Rattle.ncq_journal.specs.History.{history_of};
ghost use Rattle.ncq_journal.specs.Owed.{owed, owed_in};

use crate::event::Event;
use crate::phase::{Phase, phase_of};
use std::alloc::Allocator;

/// How many entries a tag in this phase can still need.
fn owed_in(phase: Phase) -> u32
    ensures owed { result ≡ owed_in phase }
    ensures few { result ≤ 4 }
{
    match phase {
        Phase::Free => 0,
        Phase::Done | Phase::Rejected | Phase::Broken => 1,
        Phase::Accepted => 2,
        Phase::Issued => 3,
        Phase::Held => 4,
    }
}

/// How many entries the requests of these events still need until each is collected, if no further error comes: at
/// most 128.
#[tactic(auto, using(crate::proofs::TagLemmas::sum_tags_none, crate::proofs::TagLemmas::sum_tags_more, crate::proofs::TagLemmas::sum_tags_all))]
pub fn owed_by<A: Allocator>(events: &[Event<A>]) -> u32
    ensures owed { result ≡ owed (history_of events.now) }
    ensures most { result ≤ 128 }
{
    let mut owed = 0;
    for tag in 0..32u8 {
        owed += owed_in(phase_of(events, tag));
    }
    owed
}
