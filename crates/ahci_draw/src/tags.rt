//! The states of the commands of the 32 tags, and which of them write, by tag.

ghost use Rattle.std.specs.Prelude.{◌≡◌, None, Some, filter, length};
ghost use Rattle.std.specs.List.{list_any};
ghost use Rattle.ncq_journal.specs.Entry.{entry_of};
ghost use Rattle.ahci_draw.specs.Tags.{has_failed, in_device, is_taken, moved, tag_after, tag_in, tags_of, turned_by, unused, writes_in};

use crate::tag_state::TagState;
use ahci_port::Port;
use ncq_journal::{Event, Phase, phase_after};
use std::alloc::Allocator;

/// A tag that was not used yet.
fn unused() -> TagState
    ensures { result ≡ unused }
{
    TagState {
        phase: Phase::Free,
        writes: false,
    }
}

/// Before the disk no tag was used.
#[tactic(auto, unfolding(crate::specs::Tags::tags_of))]
pub(crate) fn tags_of_none() -> [TagState; 32]
    ensures { result ≡ tags_of None }
{
    [unused(); 32]
}

/// Whether the request that owns a tag's slot writes.
fn writes_in<A: Allocator>(port: &Port<A>, tag: u8) -> bool
    ensures { result ≡ writes_in port.now tag }
{
    match port.owner(tag) {
        None => false,
        Some(number) => match port.journal().get(number) {
            Some(Event::Issue(_, op)) => op.is_write(),
            _ => false,
        },
    }
}

/// The state of a port's tag.
fn tag_in<A: Allocator>(port: &Port<A>, tag: u8) -> TagState
    ensures { result ≡ tag_in port.now tag }
{
    TagState {
        phase: port.phase(tag),
        writes: writes_in(port, tag),
    }
}

/// The states of a port's tags.
pub(crate) fn tags_in<A: Allocator>(port: &Port<A>) -> [TagState; 32]
    ensures { result ≡ tags_of (Some port.now) }
{
    let mut tags = [unused(); 32];
    for tag in 0..32u8 {
        tags[tag as usize] = tag_in(port, tag);
    }
    tags
}

/// Whether a tag was last issued to write, after one more event.
fn turned_by<A: Allocator>(tag: u8, before: bool, event: &Event<A>) -> bool
    ensures { result ≡ turned_by tag before (entry_of event.now) }
{
    match event {
        Event::Issue(other, op) if *other == tag => op.is_write(),
        _ => before,
    }
}

/// The state of a tag after one more event.
fn tag_after<A: Allocator>(tag: u8, before: TagState, event: &Event<A>) -> TagState
    ensures { result ≡ tag_after tag before (entry_of event.now) }
{
    TagState {
        phase: phase_after(tag, before.phase, event),
        writes: turned_by(tag, before.writes, event),
    }
}

/// The states after one more event.
pub(crate) fn tags_after<A: Allocator>(before: &[TagState; 32], event: &Event<A>) -> [TagState; 32]
    ensures { result ≡ moved before.now (entry_of event.now) }
{
    let mut after = [unused(); 32];
    for tag in 0..32u8 {
        after[tag as usize] = tag_after(tag, before[tag as usize], event);
    }
    after
}

fn is_taken(tag: &TagState) -> bool
    ensures { result ≡ is_taken tag.now }
{
    matches!(tag.phase, Phase::Accepted)
}

/// How many tags the device has accepted.
fn accepted_in(tags: &[TagState; 32]) -> usize
    ensures { result ≡ length (filter is_taken tags.now) }
{
    tags.iter().filter(|tag| is_taken(tag)).count()
}

/// Whether some command has failed, and the port has not recovered.
fn some_failed(tags: &[TagState; 32]) -> bool
    ensures { result ≡ list_any has_failed tags.now }
{
    tags.iter().any(|tag| tag.phase.is_failed())
}

/// How many tags are outstanding in the device, which an error empties.
#[tactic(auto, unfolding(crate::specs::Tags::in_device))]
pub(crate) fn in_device(tags: &[TagState; 32]) -> usize
    ensures { result ≡ in_device tags.now }
{
    if some_failed(tags) {
        return 0;
    }
    accepted_in(tags)
}
