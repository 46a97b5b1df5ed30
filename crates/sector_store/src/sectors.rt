//! A store whose kind is chosen when it is made.

ghost use Rattle.std.specs.Prelude.{◌≡◌, ℕ, ◌+◌, ◌*◌, ◌/◌, ◌<◌, ◌≤◌, ◌||◌, Bool, length, false, true, refl, is_some, IfOk, IfSome};
ghost use Rattle.std.specs.Option.{option_copied};
ghost use Rattle.sector_store.specs.Reserved.{AreReserved};
ghost use Rattle.sector_store.specs.Shown.{ChangesAmong, buffer_sector, joined};
ghost use Rattle.sector_store.specs.declared.sectors.Sectors.TheVariants as the;

use crate::base::Buffer;
use crate::pages::Pages;
use crate::sector_store::SectorStore;
use crate::whole::Whole;
use ncq_journal::Journal;
use std::alloc::{AllocError, Allocator, Global};

/// What holds a disk's sectors: all of them, or the pages that were written over bytes that never change. Pages are in the process's heap.
#[derive(Drop)]
pub enum Sectors<A: Allocator = Global> {
    /// Every byte twice.
    Whole(Whole<A>),
    /// The pages that were written, and bytes below them.
    Pages(Pages<Buffer<'static>, Global>),
}

impl<A: Allocator> Sectors<A> {
    /// The sectors in this buffer, which are kept as they are.
    ///
    /// # Errors
    /// If there is no memory for the copy.
    pub fn whole(alloc: A, image: Vec<u8, A>) -> Result<Self, AllocError>
        requires { length image.items ≡ 512 * (length image.items / 512) }
        ensures image { IfOk result (λ s. ⟦<Sectors<A> as SectorStore>⟧.image s ≡ image.items) }
        ensures starting { IfOk result (λ s. ⟦<Sectors<A> as SectorStore>⟧.starting s ≡ image.items) }
        ensures kind { IfOk result (λ s. ⟦<Sectors<A> as SectorStore>⟧.grows s ≡ false) }
    {
        Ok(Sectors::Whole(Whole::new(alloc, image)?))
    }

    /// So many sectors over these bytes and zeros after them, of which none is written. What is written takes memory.
    ///
    /// # Errors
    /// If there is no memory.
    #[tactic(auto, using(crate::proofs::ShownLemmas::joined_same))]
    pub fn over(heap: Global, base: &'static [u8], sectors: u64) -> Result<Self, AllocError>
        requires { sectors ≤ 4294967296 }
        ensures image { IfOk result (λ s. ⟦<Sectors<A> as SectorStore>⟧.image s ≡ joined (buffer_sector base.now) sectors) }
        ensures starting { IfOk result (λ s. ⟦<Sectors<A> as SectorStore>⟧.starting s ≡ joined (buffer_sector base.now) sectors) }
        ensures kind { IfOk result (λ s. ⟦<Sectors<A> as SectorStore>⟧.grows s ≡ true) }
    {
        Ok(Sectors::Pages(Pages::new(heap, Buffer::new(base), sectors)?))
    }
}

impl<A: Allocator> Sectors<A> {
    /// The numbers of the pages of eight sectors that may have changed since they were last kept; nothing if all bytes are in memory,
    /// since that isn't known then.
    pub fn touched(&self) -> Option<&[u32]>
        ensures known { is_some (option_copied result) ≡ ⟦<Sectors<A> as SectorStore>⟧.grows self.now }
        ensures pages { IfSome (option_copied result) (λ touched. ChangesAmong touched (⟦<Sectors<A> as SectorStore>⟧.image self.now) (⟦<Sectors<A> as SectorStore>⟧.starting self.now)) }
    {
        match self {
            Sectors::Whole(_) => None,
            Sectors::Pages(store) => Some(store.touched()),
        }
    }
}

impl<A: Allocator> SectorStore for Sectors<A> {
    ghost image = { λ s. elim s [ the.Whole w ↦ ⟦<Whole<A> as SectorStore>⟧.image w | the.Pages p ↦ ⟦<Pages<Buffer<'static>, Global> as SectorStore>⟧.image p ] };

    ghost starting = { λ s. elim s [ the.Whole w ↦ ⟦<Whole<A> as SectorStore>⟧.starting w | the.Pages p ↦ ⟦<Pages<Buffer<'static>, Global> as SectorStore>⟧.starting p ] };

    ghost is_reserved = { λ s. elim s [ the.Whole w ↦ ⟦<Whole<A> as SectorStore>⟧.is_reserved w | the.Pages p ↦ ⟦<Pages<Buffer<'static>, Global> as SectorStore>⟧.is_reserved p ] };

    ghost can_grow = { true };

    ghost none_grows = { λ s. refl };

    ghost grows = { λ s. elim s [ the.Whole w ↦ false | the.Pages p ↦ true ] };

    ghost none_lacks = { λ s lba. elim s as (λ k. ((elim k as (λ x. Bool) [ the.Whole w ↦ false | the.Pages p ↦ true ]) || (elim k as (λ x. ℕ → Bool) [ the.Whole w ↦ ⟦<Whole<A> as SectorStore>⟧.is_reserved w | the.Pages p ↦ ⟦<Pages<Buffer<'static>, Global> as SectorStore>⟧.is_reserved p ]) lba) ≡ true) [ the.Whole w ↦ refl | the.Pages p ↦ refl ] };

    fn sectors(&self) -> u64 {
        match self {
            Sectors::Whole(store) => store.sectors(),
            Sectors::Pages(store) => store.sectors(),
        }
    }

    fn read(&self, lba: u64, out: &mut [u8]) {
        match self {
            Sectors::Whole(store) => store.read(lba, out),
            Sectors::Pages(store) => store.read(lba, out),
        }
    }

    fn at_hand(&self, lba: u64, len: usize) -> Option<&[u8]> {
        match self {
            Sectors::Whole(store) => store.at_hand(lba, len),
            Sectors::Pages(store) => store.at_hand(lba, len),
        }
    }

    fn read_starting(&self, lba: u64, out: &mut [u8]) {
        match self {
            Sectors::Whole(store) => store.read_starting(lba, out),
            Sectors::Pages(store) => store.read_starting(lba, out),
        }
    }

    fn reserve(&mut self, lba: u64, sectors: u64) -> Result<(), AllocError> {
        match self {
            Sectors::Whole(store) => store.reserve(lba, sectors),
            Sectors::Pages(store) => store.reserve(lba, sectors),
        }
    }

    fn write(&mut self, lba: u64, bytes: &[u8]) {
        match self {
            Sectors::Whole(store) => store.write(lba, bytes),
            Sectors::Pages(store) => store.write(lba, bytes),
        }
    }

    fn zero<J: Allocator>(
        &mut self,
        lba: u64,
        sectors: u64,
        journal: &mut Journal<J>,
        count: u64,
    ) -> Result<(), AllocError> {
        match self {
            Sectors::Whole(store) => store.zero(lba, sectors, journal, count),
            Sectors::Pages(store) => store.zero(lba, sectors, journal, count),
        }
    }

    fn keep(&mut self) {
        match self {
            Sectors::Whole(store) => store.keep(),
            Sectors::Pages(store) => store.keep(),
        }
    }

    fn restore(&mut self) {
        match self {
            Sectors::Whole(store) => store.restore(),
            Sectors::Pages(store) => store.restore(),
        }
    }
}
