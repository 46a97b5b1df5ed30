//! The journal: events that are numbered, and room for more.

ghost use Rattle.std.specs.Prelude.{◌≡◌, ◌+◌, ◌^◌, ◌<◌, ◌≤◌, ◌∷◌, [], length, nat_eq, max, OnOk, OnErr, IsOk};
ghost use Rattle.std.specs.Option.{option_map, option_copied};
ghost use Rattle.ncq_journal.specs.Entry.{entry_of};
ghost use Rattle.ncq_journal.specs.History.{entry_at, history_of};
ghost use Rattle.ncq_journal.specs.Numbering.{number_of, entry_numbered};

use crate::event::Event;
use std::alloc::{AllocError as OutOfMemory, Allocator, Global};
use std::marker::Model;
use std::mem;

/// What the port has done, the oldest event first. It only grows, and its entries are numbered on from a first number. All
/// numbers fit a `u64`. Contracts see that number, the entries with the newest first, so that every part of a history from
/// its beginning on is a tail of it, the room that is reserved, and for how many entries memory is held.
#[derive(Drop)]
#[derive_where(Debug)]
pub struct Journal<A: Allocator = Global> {
    events: Vec<Event<A>, A>,
    first: u64,
    room: u64,
}

impl<A: Allocator> Model for Journal<A> {
    ghost use Rattle.std.specs.Prelude.{◌+◌, ◌^◌, ◌≤◌, vec_len, vec_capacity};
    ghost use Rattle.ncq_journal.specs.History.{History, history_of};

    ghost Value = { History };

    ghost view = { λ j. record { first = j.first; past = history_of j.events.items; room = j.room; held = vec_capacity j.events } };

    ghost invariant = { λ j. (vec_len j.events + j.room ≤ vec_capacity j.events) × (j.first ≤ 2 ^ 63) };
}

impl<A: Allocator> Journal<A> {
    /// An empty journal with no room, whose entries are numbered from 0. It takes no memory yet.
    pub fn new(alloc: A) -> Self
        ensures past { result.past ≡ [] }
        ensures room { result.room ≡ 0 }
        ensures held { result.held ≡ 0 }
        ensures first { result.first ≡ 0 }
    {
        Journal::starting_at(alloc, 0)
    }

    /// An empty journal with no room, whose entries are numbered from `first`, which is at most 2^63. It takes no memory yet.
    pub fn starting_at(alloc: A, first: u64) -> Self
        requires { first ≤ 2 ^ 63 }
        ensures past { result.past ≡ [] }
        ensures room { result.room ≡ 0 }
        ensures held { result.held ≡ 0 }
        ensures first { result.first ≡ first }
    {
        Journal {
            events: Vec::new(alloc),
            first,
            room: 0,
        }
    }

    /// The number of the oldest entry, or of the next one where there is none yet.
    pub fn first(&self) -> u64
        ensures first { result ≡ self.now.first }
        ensures most { result ≤ 2 ^ 63 }
    {
        self.first
    }

    /// The number of the next entry.
    pub fn end(&self) -> u64
        ensures { result ≡ number_of self.now.first (length self.now.past) }
    {
        self.len() + self.first
    }

    /// How many entries there are.
    pub fn len(&self) -> u64
        ensures { result ≡ length self.now.past }
    {
        self.events.len() as u64
    }

    /// Whether there is no entry.
    pub fn is_empty(&self) -> bool
        ensures { result ≡ nat_eq (length self.now.past) 0 }
    {
        self.events.is_empty()
    }

    /// The entry of this number, where there is one. There is none below `first`.
    pub fn get(&self, number: u64) -> Option<&Event<A>>
        ensures { option_map entry_of (option_copied result) ≡ entry_numbered self.now.first self.now.past number }
    {
        entry_in(self.events.as_slice(), number.checked_sub(self.first)?)
    }

    /// All entries, the oldest first: the one at index k has the number `first` + k.
    pub fn entries(&self) -> &[Event<A>]
        ensures { history_of result.now ≡ self.now.past }
    {
        self.events.as_slice()
    }

    /// How many entries can be pushed with no more memory.
    pub fn room(&self) -> u64
        ensures { result ≡ self.now.room }
    {
        self.room
    }

    /// Makes room for `count` more entries. Memory is asked for only where less is held than they need; it fails only there, and
    /// then nothing has changed.
    #[tactic(auto, using(crate::proofs::HistoryLemmas::length_history))]
    pub fn reserve(&mut self, count: u64) -> Result<(), OutOfMemory>
        ensures first { self.new.first ≡ self.old.first }
        ensures past { self.new.past ≡ self.old.past }
        ensures room { OnOk result (self.new.room ≡ max self.old.room count) }
        ensures held { OnOk result (length self.new.past + self.new.room ≤ self.new.held) }
        ensures err { OnErr result (self.new ≡ self.old) }
        ensures enough { count ≤ self.old.room → IsOk result }
        ensures same { length self.old.past + count ≤ self.old.held → self.new.held ≡ self.old.held }
        ensures more { self.old.held ≤ self.new.held }
        ensures lacking { OnErr result (self.old.held < length self.old.past + count) }
    {
        if count > self.room {
            if count > self.spare() {
                self.events.reserve(count as usize)?;
            }
            self.room = count;
        }
        Ok(())
    }

    /// For how many more entries memory is held.
    #[tactic(auto, using(crate::proofs::HistoryLemmas::length_history))]
    fn spare(&self) -> u64
        ensures { length self.now.past + result ≡ self.now.held }
    {
        (self.events.capacity() - self.events.len()) as u64
    }

    /// Appends an event where `reserve` has made room, in the memory that is held.
    pub fn push_reserved(&mut self, event: Event<A>)
        requires { 0 < self.old.room }
        ensures first { self.new.first ≡ self.old.first }
        ensures past { self.new.past ≡ entry_of event ∷ self.old.past }
        ensures room { self.new.room + 1 ≡ self.old.room }
        ensures held { self.new.held ≡ self.old.held }
    {
        self.room -= 1;
        self.events.push_reserved(event);
    }
}

impl<A: Allocator + Copy> Journal<A> {
    /// Hands out the journal as it is. An empty one with no room stays, whose entries are numbered on from there. It takes no
    /// memory.
    pub fn hand_out(&mut self) -> Journal<A>
        requires { number_of self.old.first (length self.old.past) ≤ 2 ^ 63 }
        ensures whole { result ≡ self.old }
        ensures first { self.new.first ≡ number_of self.old.first (length self.old.past) }
        ensures past { self.new.past ≡ [] }
        ensures room { self.new.room ≡ 0 }
        ensures held { self.new.held ≡ 0 }
    {
        let rest = Journal::starting_at(*self.events.allocator(), self.end());
        mem::replace(self, rest)
    }
}

/// The entry at this place among events with the oldest first, counted from 0, where there is one.
pub fn entry_in<A: Allocator>(events: &[Event<A>], place: u64) -> Option<&Event<A>>
    ensures { option_map entry_of (option_copied result) ≡ entry_at (history_of events.now) place }
{
    events.get(place as usize)
}
