//! The data of a command by PIO, which move block by block.

ghost use Rattle.std.specs.Prelude.{◌≡◌, ◌≤◌, ◌<◌, drop, get_or, length};
ghost use Rattle.hba_memory.specs.Blocks.{list_after, no_entry, shortened};

use crate::lengths::total;
use crate::processed::has_processed;
use crate::scatter::Scatter;
use hba_command::PrdEntry;
use std::alloc::{AllocError, Allocator, Global};
use std::marker::Model;

/// As many entries have room for a sector: each names two bytes at least.
const SECTOR_ENTRIES: usize = 256;

/// The data of a command by PIO, on their way to the runs of its PRDT, block by block, or out of them, and then they are not here. Contracts see the
/// bytes that are left and the runs that they go to or come from.
#[derive(Drop)]
pub struct Blocks<A: Allocator = Global> {
    list: Vec<PrdEntry, A>,
    next: usize,
    bytes: Vec<u8, A>,
    done: usize,
}

impl<A: Allocator> Model for Blocks<A> {
    ghost use Rattle.std.specs.Prelude.{◌≤◌, drop, length};
    ghost use Rattle.hba_memory.specs.Blocks.{BlocksView};

    ghost Value = { BlocksView };

    ghost view = { λ b. record { list = drop b.next b.list.items; bytes = drop b.done b.bytes.items } };

    ghost invariant = { λ b. (b.next ≤ length b.list.items) × (b.done ≤ length b.bytes.items) };
}

/// The entry of a list in which the byte lies that comes so many behind the first one of an entry, and how many of that entry's bytes come
/// before it.
fn place_behind(list: &[PrdEntry], start: usize, bytes: u32) -> (usize, u32)
    requires { start ≤ length list.now }
    ensures place { result.0 ≤ length list.now }
    ensures within { result.0 < length list.now → result.1 < (get_or list.now result.0 no_entry).length }
    ensures list { list_after (drop start list.now) bytes ≡ list_after (drop result.0 list.now) result.1 }
{
    let mut at = start;
    let mut left = bytes;
    while at < list.len() && list[at].length <= left {
        left -= list[at].length;
        at += 1;
    }
    (at, left)
}

/// An entry behind its first bytes.
fn shortened(entry: PrdEntry, bytes: u32) -> PrdEntry
    requires { bytes ≤ entry.length }
    ensures { result ≡ shortened entry bytes }
{
    PrdEntry {
        address: entry.address.wrapping_add(u64::from(bytes)),
        length: entry.length - bytes,
        interrupt: entry.interrupt,
    }
}

/// Splits the entry of an index, if there is one, behind its first bytes.
#[tactic(auto, using(crate::proofs::BlockLemmas::split_at, crate::proofs::BlockLemmas::none_behind))]
fn split<A: Allocator>(list: &mut Vec<PrdEntry, A>, at: usize, bytes: u32)
    requires { at < length list.old.items → bytes < (get_or list.old.items at no_entry).length }
    ensures len { length list.new.items ≡ length list.old.items }
    ensures list { drop at list.new.items ≡ list_after (drop at list.old.items) bytes }
{
    if at < list.len() {
        list[at] = shortened(list[at], bytes);
    }
}

/// Passes some bytes behind an index: the index of the entry that the next byte lies in, which begins with that byte then.
fn pass<A: Allocator>(list: &mut Vec<PrdEntry, A>, start: usize, bytes: u32) -> usize
    requires { start ≤ length list.old.items }
    ensures place { result ≤ length list.new.items }
    ensures list { drop result list.new.items ≡ list_after (drop start list.old.items) bytes }
{
    let (at, left) = place_behind(list, start, bytes);
    split(list, at, left);
    at
}

impl<A: Allocator> Blocks<A> {
    ghost use Rattle.std.specs.Prelude.{◌≡◌, ◌≤◌, ◌*◌, length};
    ghost use Rattle.hba_memory.specs.{Blocks.{after_block, block_list}, Processing.{has_processed}, Runs.{total}};

    /// These bytes, to be written to the runs that the entries name; none of a write.
    pub fn new(list: Vec<PrdEntry, A>, bytes: Vec<u8, A>) -> Self
        ensures list { result.list ≡ list.items }
        ensures bytes { result.bytes ≡ bytes.items }
    {
        Blocks {
            list,
            next: 0,
            bytes,
            done: 0,
        }
    }

    /// The entries for the next block, of so many sectors.
    fn block_list(&self, sectors: u32) -> &[PrdEntry]
        requires { sectors ≤ 65536 }
        ensures { result.now ≡ block_list self.now sectors }
    {
        let count = (SECTOR_ENTRIES * sectors as usize).min(self.list.len() - self.next);
        &self.list[self.next..self.next + count]
    }

    /// How many bytes there is room for in the entries for the next block, of so many sectors.
    pub fn block_room(&self, sectors: u32) -> u128
        requires { sectors ≤ 65536 }
        ensures { result ≡ total (block_list self.now sectors) }
    {
        total(self.block_list(sectors))
    }

    /// Whether the next block, of so many sectors, has the last byte of an entry with I.
    pub fn block_processes(&self, sectors: u32) -> bool
        requires { sectors ≤ 65536 }
        ensures { result ≡ has_processed (block_list self.now sectors) (512 * sectors) }
    {
        has_processed(self.block_list(sectors), 512 * sectors)
    }

    /// The next block has moved, of so many sectors.
    pub fn advance(&mut self, sectors: u32)
        requires { sectors ≤ 65536 }
        ensures { self.new ≡ after_block self.old sectors }
    {
        let at = pass(&mut self.list, self.next, 512 * sectors);
        self.next = at;
        self.done += (512 * sectors as usize).min(self.bytes.len() - self.done);
    }
}

impl<A: Allocator> Blocks<A> {
    ghost use Rattle.std.specs.Prelude.{◌≡◌, ◌≤◌, IfOk};
    ghost use Rattle.hba_memory.specs.Blocks.{block_bytes, block_puts};

    /// The bytes of the next block, of so many sectors.
    fn block_bytes(&self, sectors: u32) -> &[u8]
        requires { sectors ≤ 65536 }
        ensures { result.now ≡ block_bytes self.now sectors }
    {
        let count = (512 * sectors as usize).min(self.bytes.len() - self.done);
        &self.bytes[self.done..self.done + count]
    }

    /// The next block on its way, of so many sectors. It is copied, with its entries.
    pub fn block(&self, alloc: A, sectors: u32) -> Result<Scatter<A>, AllocError>
    where
        A: Copy,
        requires { sectors ≤ 65536 }
        ensures { IfOk result (λ s. s ≡ block_puts self.now sectors) }
    {
        let list = Vec::from_slice(alloc, self.block_list(sectors))?;
        let bytes = Vec::from_slice(alloc, self.block_bytes(sectors))?;
        Ok(Scatter::new(list, bytes))
    }
}
