//! The words of PxSACT, PxCI and the outstanding tags that a journal gives.

ghost use Rattle.std.specs.Prelude.{◌≡◌, Bool};
ghost use Rattle.ncq_journal.specs.History.{history_of};
ghost use Rattle.ncq_journal.specs.declared.phase.Phase.{Phase};
ghost use Rattle.ncq_journal.specs.Phase.{phase};
ghost use Rattle.ncq_journal.specs.Tags.{sact, ci, device_tags, in_sact, in_ci, in_device};
ghost use Rattle.word_bits.specs.Places.{bits, places};

use crate::event::Event;
use crate::halted::is_halted;
use crate::phase::{Phase, phase_of};
use std::alloc::Allocator;
use word_bits::with_bit;

fn in_sact(phase: Phase) -> bool
    ensures { result ≡ in_sact phase }
{
    matches!(
        phase,
        Phase::Issued | Phase::Accepted | Phase::Rejected | Phase::Broken
    )
}

fn in_ci(phase: Phase) -> bool
    ensures { result ≡ in_ci phase }
{
    matches!(phase, Phase::Issued | Phase::Rejected)
}

fn in_device(phase: Phase) -> bool
    ensures { result ≡ in_device phase }
{
    matches!(phase, Phase::Accepted)
}

/// The tags whose phase after these events, the oldest first, is one of some.
fn tags_in<A: Allocator, F: Fn(Phase) -> bool>(events: &[Event<A>], is_one: F) -> u32
    requires { F.IsAlwaysCallable is_one }
    ensures { (q : Phase → Bool) → ((p : Phase) (b : Bool) → F.post is_one p b → b ≡ q p) → bits result ≡ places (λ tag. q (phase (history_of events.now) tag)) }
{
    let mut word = 0;
    for tag in 0..32u8 {
        if is_one(phase_of(events, tag)) {
            word = with_bit(word, tag);
        }
    }
    word
}

/// PxSACT after these events, the oldest first: the tags issued and not completed
/// (AHCI 1.3.1, section 3.3.13).
pub fn sact_of<A: Allocator>(events: &[Event<A>]) -> u32
    ensures { bits result ≡ sact (history_of events.now) }
{
    tags_in(events, in_sact)
}

/// PxCI after these events, the oldest first: the tags issued and not taken by the device
/// (AHCI 1.3.1, section 3.3.14).
pub fn ci_of<A: Allocator>(events: &[Event<A>]) -> u32
    ensures { bits result ≡ ci (history_of events.now) }
{
    tags_in(events, in_ci)
}

/// The tags outstanding in the device after these events, the oldest first: none after an error, until
/// the port has recovered.
pub fn device_tags_of<A: Allocator>(events: &[Event<A>]) -> u32
    ensures { bits result ≡ device_tags (history_of events.now) }
{
    if is_halted(events) {
        0
    } else {
        tags_in(events, in_device)
    }
}
