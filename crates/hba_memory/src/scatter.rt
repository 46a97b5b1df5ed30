//! The data of a command that reads, on their way into the driver's memory.

use hba_command::PrdEntry;
use std::alloc::{Allocator, Global};
use std::marker::Model;

/// The data of a command that reads, on their way to the runs of its PRDT. Contracts see the writes that are still to be made, the next
/// one first.
#[derive(Drop)]
pub struct Scatter<A: Allocator = Global> {
    list: Vec<PrdEntry, A>,
    next: usize,
    bytes: Vec<u8, A>,
    done: usize,
}

impl<A: Allocator> Model for Scatter<A> {
    ghost use Rattle.std.specs.Prelude.{◌≤◌, List, drop, length};
    ghost use Rattle.hba_memory.specs.Runs.{Put, placed};

    ghost Value = { List Put };

    ghost view = { λ s. placed (drop s.next s.list.items) (drop s.done s.bytes.items) };

    ghost invariant = { λ s. (s.next ≤ length s.list.items) × (s.done ≤ length s.bytes.items) };
}

impl<A: Allocator> Scatter<A> {
    ghost use Rattle.std.specs.Prelude.{◌≡◌, ◌↔◌, [], IsTrue};
    ghost use Rattle.hba_memory.specs.Runs.{first_put, later_puts, placed};

    /// These bytes, to be written to the runs that the entries name. What is beyond the last run is not written.
    pub fn new(list: Vec<PrdEntry, A>, bytes: Vec<u8, A>) -> Self
        ensures { result ≡ placed list.items bytes.items }
    {
        Scatter {
            list,
            next: 0,
            bytes,
            done: 0,
        }
    }

    /// Whether all is written.
    pub fn is_done(&self) -> bool
        ensures { IsTrue result ↔ (self.now ≡ []) }
    {
        self.done == self.bytes.len() || self.next == self.list.len()
    }

    /// Where the next bytes go; 0 once all is written.
    pub fn address(&self) -> u64
        ensures { result ≡ (first_put self.now).address }
    {
        if self.is_done() {
            return 0;
        }
        self.list[self.next].address
    }

    /// The next bytes; none once all is written.
    pub fn bytes(&self) -> &[u8]
        ensures { result.now ≡ (first_put self.now).bytes }
    {
        if self.is_done() {
            return &self.bytes[self.done..self.done];
        }
        &self.bytes[self.done..self.done + self.run_length()]
    }

    /// The next bytes are written.
    pub fn advance(&mut self)
        ensures { self.new ≡ later_puts self.old }
    {
        if self.is_done() {
            return;
        }
        self.done += self.run_length();
        self.next += 1;
    }
}

impl<A: Allocator> Scatter<A> {
    ghost use Rattle.std.specs.Prelude.{◌≡◌, ◌≢◌, [], length};
    ghost use Rattle.hba_memory.specs.Runs.{first_put};

    /// How many bytes go to the next run.
    fn run_length(&self) -> usize
        requires { self.now ≢ [] }
        ensures { result ≡ length (first_put self.now).bytes }
    {
        let room = self.list[self.next].length as usize;
        room.min(self.bytes.len() - self.done)
    }
}
