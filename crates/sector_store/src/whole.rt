//! Every byte of a disk, twice.

ghost use Rattle.std.specs.Prelude.{◌≡◌, ℕ, ◌+◌, ◌*◌, ◌/◌, ◌<◌, ◌≤◌, length, false, true, refl, IfOk};

use crate::run::run_at;
use crate::sector_store::SectorStore;
use crate::zero_sectors::zero_sectors;
use ncq_journal::{Journal, read_sectors, write_sectors};
use std::alloc::{AllocError, Allocator, Global};

/// A disk's sectors in two buffers: as they are now, and as they were when they were last kept. Every sector is always
/// reserved. `keep` and `restore` copy the whole disk.
#[derive(Drop)]
pub struct Whole<A: Allocator = Global> {
    image: Vec<u8, A>,
    starting: Vec<u8, A>,
    ghost whole: { length image.items ≡ 512 * (length image.items / 512) },
    ghost same_size: { length starting.items ≡ length image.items },
}

impl<A: Allocator> Whole<A> {
    /// The sectors in this buffer, which are kept as they are.
    ///
    /// # Errors
    /// If there is no memory for the copy.
    pub fn new(alloc: A, image: Vec<u8, A>) -> Result<Self, AllocError>
        requires { length image.items ≡ 512 * (length image.items / 512) }
        ensures image { IfOk result (λ w. ⟦<Whole<A> as SectorStore>⟧.image w ≡ image.items) }
        ensures starting { IfOk result (λ w. ⟦<Whole<A> as SectorStore>⟧.starting w ≡ image.items) }
    {
        let starting = Vec::from_slice(alloc, image.as_slice())?;
        Ok(Whole { image, starting })
    }

    /// The bytes of all sectors when they were last kept.
    pub fn starting_bytes(&self) -> &[u8]
        ensures { result.now ≡ ⟦<Whole<A> as SectorStore>⟧.starting self.now }
    {
        self.starting.as_slice()
    }
}

impl<A: Allocator> SectorStore for Whole<A> {
    ghost image = { λ w. w.image.items };

    ghost starting = { λ w. w.starting.items };

    ghost is_reserved = { λ w s. true };

    ghost can_grow = { false };

    ghost grows = { λ w. false };

    ghost none_grows = { λ w. refl };

    ghost none_lacks = { λ w s. refl };

    fn sectors(&self) -> u64 {
        self.image.len() as u64 / 512
    }

    fn read(&self, lba: u64, out: &mut [u8]) {
        read_sectors(self.image.as_slice(), lba, out);
    }

    fn at_hand(&self, lba: u64, len: usize) -> Option<&[u8]> {
        Some(run_at(self.image.as_slice(), lba, len))
    }

    fn read_starting(&self, lba: u64, out: &mut [u8]) {
        read_sectors(self.starting.as_slice(), lba, out);
    }

    fn reserve(&mut self, _lba: u64, _sectors: u64) -> Result<(), AllocError> {
        Ok(())
    }

    fn write(&mut self, lba: u64, bytes: &[u8]) {
        write_sectors(self.image.as_mut_slice(), lba, bytes);
    }

    fn zero<J: Allocator>(
        &mut self,
        lba: u64,
        sectors: u64,
        journal: &mut Journal<J>,
        count: u64,
    ) -> Result<(), AllocError> {
        journal.reserve(count)?;
        zero_sectors(self.image.as_mut_slice(), lba, sectors);
        Ok(())
    }

    fn keep(&mut self) {
        self.starting
            .as_mut_slice()
            .copy_from_slice(self.image.as_slice());
    }

    fn restore(&mut self) {
        self.image
            .as_mut_slice()
            .copy_from_slice(self.starting.as_slice());
    }
}
