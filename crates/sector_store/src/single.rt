//! Every byte of a disk, once.

ghost use Rattle.std.specs.Prelude.{◌≡◌, ℕ, ◌+◌, ◌*◌, ◌/◌, ◌<◌, ◌≤◌, length, [], false, true, refl};

use crate::run::run_at;
use crate::sector_store::SectorStore;
use crate::zero_sectors::zero_sectors;
use ncq_journal::{Journal, read_sectors, write_sectors};
use std::alloc::{AllocError, Allocator, Global};

/// A disk's sectors in one buffer, as they are now. None is kept, and every sector is always reserved.
#[derive(Drop)]
pub struct Single<A: Allocator = Global> {
    image: Vec<u8, A>,
    ghost whole: { length image.items ≡ 512 * (length image.items / 512) },
}

impl<A: Allocator> Single<A> {
    /// The sectors in this buffer.
    pub fn new(image: Vec<u8, A>) -> Self
        requires { length image.items ≡ 512 * (length image.items / 512) }
        ensures image { ⟦<Single<A> as SectorStore>⟧.image result ≡ image.items }
        ensures starting { ⟦<Single<A> as SectorStore>⟧.starting result ≡ [] }
    {
        Single { image }
    }

    /// The bytes of all sectors as they are now.
    pub fn bytes(&self) -> &[u8]
        ensures { result.now ≡ ⟦<Single<A> as SectorStore>⟧.image self.now }
    {
        self.image.as_slice()
    }
}

impl<A: Allocator> SectorStore for Single<A> {
    ghost image = { λ s. s.image.items };

    ghost starting = { λ s. [] };

    ghost is_reserved = { λ s lba. true };

    ghost can_grow = { false };

    ghost grows = { λ s. false };

    ghost none_grows = { λ s. refl };

    ghost none_lacks = { λ s lba. refl };

    fn sectors(&self) -> u64 {
        self.image.len() as u64 / 512
    }

    fn read(&self, lba: u64, out: &mut [u8]) {
        read_sectors(self.image.as_slice(), lba, out);
    }

    fn at_hand(&self, lba: u64, len: usize) -> Option<&[u8]> {
        Some(run_at(self.image.as_slice(), lba, len))
    }

    fn read_starting(&self, _lba: u64, _out: &mut [u8]) {}

    fn reserve(&mut self, _lba: u64, _sectors: u64) -> Result<(), AllocError> {
        Ok(())
    }

    fn write(&mut self, lba: u64, bytes: &[u8]) {
        write_sectors(self.image.as_mut_slice(), lba, bytes);
    }

    fn zero<J: Allocator>(
        &mut self,
        lba: u64,
        sectors: u64,
        journal: &mut Journal<J>,
        count: u64,
    ) -> Result<(), AllocError> {
        journal.reserve(count)?;
        zero_sectors(self.image.as_mut_slice(), lba, sectors);
        Ok(())
    }

    fn keep(&mut self) {}

    fn restore(&mut self) {}
}
