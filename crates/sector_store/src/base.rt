//! What a disk has below its pages.

ghost use Rattle.std.specs.Prelude.{◌≡◌, ℕ, ◌≤◌, true, List, length};
ghost use Rattle.sector_store.specs.Shown.{buffer_sector, length-buffer_sector};
ghost use Rattle.ncq_journal.specs.Image.{zero_sector};
ghost use Rattle.sector_store.specs.Zeroed.{length-zero_sector};

use ncq_journal::read_sectors;

/// What is read where no page was written. It never changes.
pub trait Base {
    // the bytes of a sector
    ghost sector: { Self → ℕ → List ℕ };

    /// Reads a sector into 512 bytes.
    fn read(&self, lba: u64, out: &mut [u8])
        requires { length out.old ≡ 512 }
        ensures { out.new ≡ sector self.now lba };

    /// Whether every sector from this one on is known to be zeros, with no look at its bytes.
    fn ends_at(&self, lba: u64) -> bool
        ensures { result ≡ true → (s : ℕ) → lba ≤ s → sector self.now s ≡ zero_sector };

    // every sector has 512 bytes
    ghost whole: { (base : Self) (lba : ℕ) → length (sector base lba) ≡ 512 };
}

/// Zeros alone.
#[derive(Clone, Copy)]
pub struct Zeros;

impl Base for Zeros {
    ghost sector = { λ base lba. zero_sector };

    ghost whole = { λ base lba. length-zero_sector };

    #[tactic(auto, unfolding(ncq_journal::specs::Image::zero_sector))]
    fn read(&self, _lba: u64, out: &mut [u8]) {
        out.fill(0);
    }

    fn ends_at(&self, _lba: u64) -> bool {
        true
    }
}

/// The whole sectors of a buffer, and zeros after them.
#[derive(Clone, Copy)]
pub struct Buffer<'a> {
    bytes: &'a [u8],
}

impl<'a> Buffer<'a> {
    /// A base of these bytes.
    pub fn new(bytes: &'a [u8]) -> Self
        ensures { (lba : ℕ) → ⟦<Buffer<'a> as Base>⟧.sector result lba ≡ buffer_sector bytes.now lba }
    {
        Buffer { bytes }
    }
}

impl Base for Buffer<'_> {
    ghost sector = { λ base lba. buffer_sector base.bytes.now lba };

    ghost whole = { λ base lba. length-buffer_sector base.bytes.now lba };

    #[tactic(auto, unfolding(ncq_journal::specs::Image::zero_sector))]
    fn read(&self, lba: u64, out: &mut [u8]) {
        if lba < (self.bytes.len() / 512) as u64 {
            read_sectors(self.bytes, lba, out);
        } else {
            out.fill(0);
        }
    }

    fn ends_at(&self, lba: u64) -> bool {
        lba >= (self.bytes.len() / 512) as u64
    }
}
