//! The data of a command that writes, on their way out of the driver's memory.

use crate::reserved_buffer::ReservedBuffer;
use hba_command::PrdEntry;
use std::alloc::{Allocator, Global};
use std::marker::Model;

/// The data of a command that writes, on their way out of the runs of its PRDT. Contracts see the PRDT, the runs that are still to be read, the
/// next one first, and the bytes that were read.
#[derive(Drop)]
pub struct Gather<A: Allocator = Global> {
    list: Vec<PrdEntry, A>,
    next: usize,
    left: usize,
    bytes: Vec<u8, A>,
}

impl<A: Allocator> Model for Gather<A> {
    ghost use Rattle.std.specs.Prelude.{◌≤◌, ◌+◌, drop, length, vec_capacity, vec_len};
    ghost use Rattle.hba_memory.specs.Gathering.{Gathering};
    ghost use Rattle.hba_memory.specs.Runs.{runs};

    ghost Value = { Gathering };

    ghost view = { λ g. record { list = g.list.items; runs = runs (drop g.next g.list.items) g.left; bytes = g.bytes.items } };

    ghost invariant = { λ g. (g.next ≤ length g.list.items) × (vec_len g.bytes + g.left ≤ vec_capacity g.bytes) };
}

impl<A: Allocator> Gather<A> {
    ghost use Rattle.std.specs.Prelude.{◌≡◌, ◌↔◌, ◌++◌, [], length, IsTrue};
    ghost use Rattle.hba_memory.specs.Runs.{first_run, later_runs, runs};

    /// The first bytes of the data that lie in the runs which the entries name, as many as there is room for.
    pub fn over(list: Vec<PrdEntry, A>, room: ReservedBuffer<A>) -> Self
        ensures list { result.list ≡ list.items }
        ensures runs { result.runs ≡ runs list.items room }
        ensures bytes { result.bytes ≡ [] }
    {
        Gather {
            list,
            next: 0,
            left: room.length(),
            bytes: room.into_bytes(),
        }
    }

    /// Whether all is read.
    pub fn is_done(&self) -> bool
        ensures { IsTrue result ↔ (self.now.runs ≡ []) }
    {
        self.left == 0 || self.next == self.list.len()
    }

    /// Where the next run begins; 0 once all is read.
    pub fn address(&self) -> u64
        ensures { result ≡ (first_run self.now.runs).address }
    {
        if self.is_done() {
            return 0;
        }
        self.list[self.next].address
    }

    /// How many bytes of the next run are read; none once all is read.
    pub fn length(&self) -> usize
        ensures { result ≡ (first_run self.now.runs).length }
    {
        if self.is_done() {
            return 0;
        }
        self.left.min(self.list[self.next].length as usize)
    }

    /// Takes the bytes of the next run.
    pub fn supply(&mut self, bytes: &[u8])
        requires { length bytes.now ≡ (first_run self.old.runs).length }
        ensures list { self.new.list ≡ self.old.list }
        ensures runs { self.new.runs ≡ later_runs self.old.runs }
        ensures bytes { self.new.bytes ≡ self.old.bytes ++ bytes.now }
    {
        if self.is_done() {
            return;
        }
        let Ok(()) = self.bytes.extend_from_slice(bytes) else {
            unreachable!() // `new` made the room
        };
        self.left -= bytes.len();
        self.next += 1;
    }

    /// The PRDT, and the bytes that were read.
    pub fn into_parts(self) -> (Vec<PrdEntry, A>, Vec<u8, A>)
        ensures list { result.0.items ≡ self.list }
        ensures bytes { result.1.items ≡ self.bytes }
    {
        (self.list, self.bytes)
    }
}
