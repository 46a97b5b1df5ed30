//! A page of eight sectors in memory.

ghost use Rattle.std.specs.Prelude.{◌≡◌, ℕ, ◌+◌, ◌*◌, ◌/◌, ◌<◌, ◌≤◌, ◌==◌, if◌then◌else◌, length, IfOk};
ghost use Rattle.ncq_journal.specs.Image.{sector_at};
ghost use Rattle.sector_store.specs.Layers.{IsPageWritten};

use std::alloc::{AllocError, Allocator};
use std::marker::Model;

/// How many bytes a page has.
pub const PAGE: usize = 4096;

/// Eight sectors, on the heap. Contracts see the list of its bytes.
#[derive(Drop)]
pub struct Page<A: Allocator> {
    bytes: Box<[u8; PAGE], A>,
}

impl<A: Allocator> Model for Page<A> {
    ghost use Rattle.std.specs.Prelude.{◌≡◌, List, ℕ, length};

    ghost Value = { List ℕ };

    ghost view = { λ p. p.bytes.value };

    ghost invariant = { λ p. length p.bytes.value ≡ 4096 };
}

impl<A: Allocator> Page<A> {
    /// A page of these bytes.
    ///
    /// # Errors
    /// If there is no memory.
    pub fn new(alloc: A, bytes: [u8; PAGE]) -> Result<Self, AllocError>
        ensures { IfOk result (λ p. p ≡ bytes) }
    {
        Ok(Page {
            bytes: Box::new(alloc, bytes)?,
        })
    }

    /// Its bytes.
    pub fn bytes(&self) -> &[u8]
        ensures bytes { result.now ≡ self.now }
        ensures len { length self.now ≡ 4096 }
    {
        self.bytes.as_slice()
    }

    /// Writes the sector at a place, which is below eight.
    pub fn write(&mut self, place: usize, sector: &[u8])
        requires place { place < 8 }
        requires sector { length sector.now ≡ 512 }
        ensures written { IsPageWritten place sector.now self.old self.new }
        ensures len { length self.new ≡ length self.old }
    {
        let start = place * 512;
        let end = start + 512;
        self.bytes[start..end].copy_from_slice(sector);
    }
}
