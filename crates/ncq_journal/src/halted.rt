ghost use Rattle.std.specs.Prelude.{◌≡◌};
ghost use Rattle.ncq_journal.specs.Halted.{halted, busy};
ghost use Rattle.ncq_journal.specs.History.{history_of};

use crate::event::Event;
use crate::phase::phase_of;
use std::alloc::Allocator;

/// Whether the port has stopped for an error: some tag's command has failed, and the port has not recovered
/// (AHCI 1.3.1, section 6.2.2).
#[tactic(auto, using(crate::proofs::HaltedLemmas::halted_at, crate::proofs::HaltedLemmas::not_halted))]
pub fn is_halted<A: Allocator>(events: &[Event<A>]) -> bool
    ensures { result ≡ halted (history_of events.now) }
{
    for tag in 0..32u8 {
        if phase_of(events, tag).is_failed() {
            return true;
        }
    }
    false
}

/// Whether some tag waits for the device or is outstanding in it.
#[tactic(auto, using(crate::proofs::HaltedLemmas::busy_at, crate::proofs::HaltedLemmas::not_busy))]
pub fn is_busy<A: Allocator>(events: &[Event<A>]) -> bool
    ensures { result ≡ busy (history_of events.now) }
{
    for tag in 0..32u8 {
        if phase_of(events, tag).is_busy() {
            return true;
        }
    }
    false
}
