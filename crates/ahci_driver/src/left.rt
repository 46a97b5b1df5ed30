//! How a run's workers leave the port.

ghost use Rattle.std.specs.Prelude.{◌≡◌, ◌↔◌, IsTrue};
ghost use Rattle.std.specs.List.{list_all};
ghost use Rattle.ncq_journal.specs.{Entry.{entry_of}, Laws.{AllFree}};
ghost use Rattle.ahci_driver.specs.Leaving.{IsLeft, is_queued};

use ahci_port::Port;
use ncq_journal::{Event, Phase};
use std::alloc::Allocator;

/// Whether a worker's calls add such an event.
fn is_queued<A: Allocator>(event: &Event<A>) -> bool
    ensures { result ≡ is_queued (entry_of event.now) }
{
    !matches!(event, Event::Plain(_) | Event::Zero { .. })
}

/// Whether they add all of these.
fn are_queued<A: Allocator>(events: &[Event<A>]) -> bool
    ensures { result ≡ list_all (λ event. is_queued (entry_of event)) events.now }
{
    events.iter().all(|event| is_queued(event))
}

/// Whether every slot is free.
fn is_all_free<A: Allocator>(port: &Port<A>) -> bool
    ensures { IsTrue result ↔ AllFree port.now.past }
{
    port.keeps_its_promise();
    for tag in 0..32u8 {
        if port.phase(tag) != Phase::Free {
            return false;
        }
    }
    true
}

/// Whether the port is as workers leave it: its journal has only entries of their calls, and every slot is free.
pub(crate) fn is_left<A: Allocator>(port: &Port<A>) -> bool
    ensures { IsTrue result ↔ IsLeft port.now }
{
    are_queued(port.journal().entries()) && is_all_free(port)
}
