//! A disk of pages, of which those alone are in memory that were written.

mod keep;
mod read;
mod reserve;
mod write;
mod zero;

ghost use Rattle.std.specs.Prelude.{◌≡◌, ℕ, ◌*◌, ◌≤◌, true, refl, IfOk};
ghost use Rattle.sector_store.specs.Slots.{slot_at, table_span};
ghost use Rattle.sector_store.specs.Shown.{AreTouched, ChangesAmong, HasWholePages, joined, sector_now, sector_kept, is_writable};

use crate::base::{Base, Zeros};
use crate::sector_store::SectorStore;
use crate::table::Table;
use ncq_journal::Journal;
use std::alloc::{AllocError, Allocator, Global};

/// A disk's sectors as pages of 4,096 bytes in two layers over a base: those that were written since the last keep, and those
/// that were kept. A page is made when it is reserved. `keep` and `restore` take time for the pages of the upper layer alone.
#[derive(Drop)]
pub struct Pages<B = Zeros, A: Allocator = Global> {
    base: B,
    table: Table<A>,
    /// The number of each page in the upper layer.
    touched: Vec<u32, A>,
    sectors: u64,
    alloc: A,
    ghost most: { sectors ≤ 4294967296 },
    ghost room: { sectors ≤ 8 * table_span table },
    ghost whole: { HasWholePages (slot_at table) },
    ghost touched_are: { AreTouched (slot_at table) touched.items },
}

impl<B: Base + Drop, A: Allocator + Copy> Pages<B, A> {
    /// So many sectors over a base, at most 2^32, of which none is written.
    ///
    /// # Errors
    /// If there is no memory.
    pub fn new(alloc: A, base: B, sectors: u64) -> Result<Self, AllocError>
        requires { sectors ≤ 4294967296 }
        ensures image { IfOk result (λ p. ⟦<Pages<B, A> as SectorStore>⟧.image p ≡ joined (B.sector base) sectors) }
        ensures starting { IfOk result (λ p. ⟦<Pages<B, A> as SectorStore>⟧.starting p ≡ joined (B.sector base) sectors) }
    {
        let table = Table::new(alloc, sectors.div_ceil(8) as u32)?;
        Ok(Pages {
            base,
            table,
            touched: Vec::new(alloc),
            sectors,
            alloc,
        })
    }
}

impl<B: Base, A: Allocator + Copy> Pages<B, A> {
    /// The numbers of the pages that were reserved or became zeros since the last `keep` or `restore`. The sectors of every other page are
    /// those that were kept.
    pub fn touched(&self) -> &[u32]
        ensures { ChangesAmong result.now (⟦<Pages<B, A> as SectorStore>⟧.image self.now) (⟦<Pages<B, A> as SectorStore>⟧.starting self.now) }
    {
        self.touched.as_slice()
    }
}

impl<B: Base, A: Allocator + Copy> SectorStore for Pages<B, A> {
    ghost image = { λ p. joined (sector_now (B.sector p.base) (slot_at p.table)) p.sectors };

    ghost starting = { λ p. joined (sector_kept (B.sector p.base) (slot_at p.table)) p.sectors };

    ghost is_reserved = { λ p s. is_writable (slot_at p.table) s };

    ghost can_grow = { true };

    ghost grows = { λ p. true };

    ghost none_grows = { λ p. refl };

    ghost none_lacks = { λ p s. refl };

    fn sectors(&self) -> u64 {
        self.sectors
    }

    fn read(&self, lba: u64, out: &mut [u8]) {
        self.read_run(lba, out);
    }

    fn at_hand(&self, lba: u64, len: usize) -> Option<&[u8]> {
        self.run_in_page(lba, len)
    }

    fn read_starting(&self, lba: u64, out: &mut [u8]) {
        self.read_kept_run(lba, out);
    }

    fn reserve(&mut self, lba: u64, sectors: u64) -> Result<(), AllocError> {
        self.reserve_run(lba, sectors)
    }

    fn write(&mut self, lba: u64, bytes: &[u8]) {
        self.write_run(lba, bytes);
    }

    fn zero<J: Allocator>(
        &mut self,
        lba: u64,
        sectors: u64,
        journal: &mut Journal<J>,
        count: u64,
    ) -> Result<(), AllocError> {
        self.zero_run(lba, sectors, journal, count)
    }

    fn keep(&mut self) {
        self.keep_all();
    }

    fn restore(&mut self) {
        self.restore_all();
    }
}
