//! A PRDT, read some entries at a time.

ghost use Rattle.std.specs.Prelude.{◌≡◌, ◌≤◌, ◌<◌, ◌*◌, ◌+◌, ◌-◌, ◌++◌, drop, length, take, vec_capacity, vec_len};
ghost use Rattle.hba_command.specs.PrdEntry.{entry_at};
ghost use Rattle.hba_memory.specs.Runs.{total};
ghost use Rattle.hba_memory.specs.Table.{entries_in};

use crate::lengths::total;
use hba_command::PrdEntry;
use std::alloc::{AllocError, Allocator, Global};
use std::marker::Model;

/// How many entries of a PRDT are read at a time.
pub const MAX_ENTRIES: u32 = 32;

/// A PRDT that is read, some entries at a time (AHCI 1.3.1, section 4.2.3). Contracts see where the next entry is, how many are still to
/// be read, those that were, and how many bytes the command moves; `missing` is how many of these the entries so far have no room for.
#[derive(Drop)]
pub struct TableReader<A: Allocator = Global> {
    address: u64,
    left: u32,
    list: Vec<PrdEntry, A>,
    needed: u32,
    missing: u32,
}

impl<A: Allocator> Model for TableReader<A> {
    ghost use Rattle.std.specs.Prelude.{◌≡◌, ◌≤◌, ◌+◌, ◌-◌, ◌<◌, vec_capacity, vec_len};
    ghost use Rattle.hba_memory.specs.Runs.{total};
    ghost use Rattle.hba_memory.specs.Table.{TableView};

    ghost Value = { TableView };

    ghost view = { λ t. record { address = t.address; left = t.left; list = t.list.items; needed = t.needed } };

    ghost invariant = { λ t. (vec_len t.list + t.left ≤ vec_capacity t.list) × (t.missing ≡ t.needed - total t.list.items) };
}

/// The entries that some bytes spell.
fn push_entries<A: Allocator>(list: &mut Vec<PrdEntry, A>, count: usize, bytes: &[u8])
    requires count { count ≤ 32 }
    requires whole { length bytes.now ≡ 16 * count }
    requires room { vec_len list.old + count ≤ vec_capacity list.old }
    ensures items { list.new.items ≡ list.old.items ++ entries_in count bytes.now }
    ensures len { vec_len list.new ≡ vec_len list.old + count }
    ensures capacity { vec_capacity list.new ≡ vec_capacity list.old }
{
    for index in 0..count {
        list.push_reserved(entry_in(bytes, index));
    }
}

/// The entry of an index.
fn entry_in(bytes: &[u8], index: usize) -> PrdEntry
    requires index { index < 32 }
    requires whole { 16 * index + 16 ≤ length bytes.now }
    ensures { result ≡ entry_at (take 16 (drop (16 * index) bytes.now)) }
{
    let mut entry = [0; 16];
    entry.copy_from_slice(&bytes[16 * index..16 * index + 16]);
    PrdEntry::at(&entry)
}

/// How many of so many bytes some entries have no room for.
fn missing_after(missing: u32, entries: &[PrdEntry]) -> u32
    ensures { result ≡ missing - total entries.now }
{
    u128::from(missing).saturating_sub(total(entries)) as u32
}

impl<A: Allocator> TableReader<A> {
    ghost use Rattle.std.specs.Prelude.{◌≡◌, ◌≤◌, ◌↔◌, ◌*◌, ◌+◌, ◌-◌, ◌++◌, length, nat_lt, IsTrue, IfOk};
    ghost use Rattle.hba_memory.specs.Runs.{total};
    ghost use Rattle.hba_memory.specs.Table.{entries_in, next_entries, unread, wrapped};

    /// The PRDT of a command table with so many entries, of a command that moves so many bytes. All memory that they need is allocated here.
    pub fn new(alloc: A, table: u64, entries: u16, needed: u32) -> Result<Self, AllocError>
        ensures { IfOk result (λ t. t ≡ unread table entries needed) }
    {
        let list = Vec::with_capacity(alloc, usize::from(entries))?;
        Ok(TableReader {
            address: table.wrapping_add(0x80),
            left: u32::from(entries),
            list,
            needed,
            missing: needed,
        })
    }

    /// Whether all entries are read.
    pub fn is_done(&self) -> bool
        ensures { IsTrue result ↔ (self.now.left ≡ 0) }
    {
        self.left == 0
    }

    /// Where the next entries begin.
    pub fn address(&self) -> u64
        ensures { result ≡ self.now.address }
    {
        self.address
    }

    /// How many bytes of entries are read next.
    pub fn length(&self) -> usize
        ensures { result ≡ 16 * next_entries self.now }
    {
        16 * self.left.min(MAX_ENTRIES) as usize
    }

    /// Takes the bytes of the next entries.
    pub fn supply(&mut self, bytes: &[u8])
        requires { length bytes.now ≡ 16 * next_entries self.old }
        ensures address { self.new.address ≡ wrapped (self.old.address + length bytes.now) }
        ensures left { self.new.left ≡ self.old.left - next_entries self.old }
        ensures list { self.new.list ≡ self.old.list ++ entries_in (next_entries self.old) bytes.now }
        ensures needed { self.new.needed ≡ self.old.needed }
    {
        let count = self.left.min(MAX_ENTRIES);
        let read = self.list.len();
        push_entries(&mut self.list, count as usize, bytes);
        self.missing = missing_after(self.missing, &self.list[read..]);
        self.address = self.address.wrapping_add(bytes.len() as u64);
        self.left -= count;
    }

    /// Whether the entries that were read name fewer bytes than the command moves.
    pub fn is_short(&self) -> bool
        ensures { result ≡ nat_lt (total self.now.list) self.now.needed }
    {
        self.missing > 0
    }

    /// The entries that were read, handed over.
    pub fn into_list(self) -> Vec<PrdEntry, A>
        ensures { result.items ≡ self.list }
    {
        self.list
    }
}
