//! What a disk needs of what holds its sectors.

ghost use Rattle.std.specs.Prelude.{◌≡◌, ◌⊎◌, ℕ, ◌+◌, ◌*◌, ◌/◌, ◌<◌, ◌≤◌, Bool, true, not, ◌&&◌, ◌||◌, List, length, take, drop, IfSome, OnOk, OnErr};
ghost use Rattle.std.specs.Option.{option_copied};
ghost use Rattle.ncq_journal.specs.Image.{IsWrittenOver, IsZeroedOver};
ghost use Rattle.sector_store.specs.Reserved.{AreReserved, StayReserved};
ghost use Rattle.sector_store.specs.Room.{MakesRoom};
ghost use Rattle.sector_store.specs.Zeroed.{StayReservedBut};

use ncq_journal::Journal;
use std::alloc::{AllocError, Allocator};

/// What holds the sectors of a disk, of 512 bytes each, as they are now, and mostly also as they were when they were last kept.
pub trait SectorStore {
    // the bytes of all sectors as they are now, one sector after the other
    ghost image: { Self → List ℕ };

    // the bytes of all sectors when they were last kept; none if the store keeps no sector
    ghost starting: { Self → List ℕ };

    // a sector can be written with no more memory
    ghost is_reserved: { Self → ℕ → Bool };

    // a write to some such store may need more memory
    ghost can_grow: { Bool };

    // a write to this one may
    ghost grows: { Self → Bool };

    /// How many sectors there are.
    fn sectors(&self) -> u64
        ensures { length (image self.now) ≡ 512 * result };

    /// Reads whole sectors from `lba` on, as many as `out` has, as they are now.
    fn read(&self, lba: u64, out: &mut [u8])
        requires whole { length out.old ≡ 512 * (length out.old / 512) }
        requires fits { 512 * lba + length out.old ≤ length (image self.now) }
        ensures { out.new ≡ take (length out.old) (drop (512 * lba) (image self.now)) };

    /// So many bytes of whole sectors from `lba` on, as they are now, where the store has them in one run of memory.
    fn at_hand(&self, lba: u64, len: usize) -> Option<&[u8]>
        requires whole { len ≡ 512 * (len / 512) }
        requires fits { 512 * lba + len ≤ length (image self.now) }
        ensures { IfSome (option_copied result) (λ bytes. bytes ≡ take len (drop (512 * lba) (image self.now))) };

    /// Reads whole sectors from `lba` on, as many as `out` has, as they were when they were last kept.
    fn read_starting(&self, lba: u64, out: &mut [u8])
        requires whole { length out.old ≡ 512 * (length out.old / 512) }
        requires fits { 512 * lba + length out.old ≤ length (starting self.now) }
        ensures { out.new ≡ take (length out.old) (drop (512 * lba) (starting self.now)) };

    /// Takes the memory that writes of these sectors need until the next `keep` or `restore`.
    ///
    /// # Errors
    /// If there is no memory, which only a store lacks that grows. No sector changes then either, and what was reserved is.
    fn reserve(&mut self, lba: u64, sectors: u64) -> Result<(), AllocError>
        requires { 512 * (lba + sectors) ≤ length (image self.old) }
        ensures ok { OnOk result (AreReserved (is_reserved self.new) lba sectors) }
        ensures lacking { OnErr result ((can_grow && grows self.old) ≡ true) }
        ensures kind { grows self.new ≡ grows self.old }
        ensures stay { StayReserved (is_reserved self.old) (is_reserved self.new) }
        ensures image { image self.new ≡ image self.old }
        ensures starting { starting self.new ≡ starting self.old };

    /// Writes these bytes, whole sectors, over those from `lba` on. It takes no memory.
    fn write(&mut self, lba: u64, bytes: &[u8])
        requires whole { length bytes.now ≡ 512 * (length bytes.now / 512) }
        requires fits { 512 * lba + length bytes.now ≤ length (image self.old) }
        requires reserved { AreReserved (is_reserved self.old) lba (length bytes.now / 512) }
        ensures written { IsWrittenOver lba bytes.now (image self.old) (image self.new) }
        ensures kind { grows self.new ≡ grows self.old }
        ensures len { length (image self.new) ≡ length (image self.old) }
        ensures stay { StayReserved (is_reserved self.old) (is_reserved self.new) }
        ensures starting { starting self.new ≡ starting self.old };

    /// Makes these sectors zeros, and gives the memory back that they no longer need. Before the first of them changes, a journal has room for `count` more
    /// entries. Of these sectors what was reserved may no longer be.
    ///
    /// # Errors
    /// If there is no memory for the sectors, which only a store lacks that grows, or for the room. No sector and no room changes then, and what was reserved is.
    fn zero<J: Allocator>(
        &mut self,
        lba: u64,
        sectors: u64,
        journal: &mut Journal<J>,
        count: u64,
    ) -> Result<(), AllocError>
        requires { 512 * (lba + sectors) ≤ length (image self.old) }
        ensures ok { OnOk result (IsZeroedOver lba sectors (image self.old) (image self.new)) }
        ensures err { OnErr result (image self.new ≡ image self.old) }
        ensures room { OnOk result (MakesRoom count journal.old journal.new) }
        ensures journal { OnErr result (journal.new ≡ journal.old) }
        ensures lacking { OnErr result (((can_grow && grows self.old) ≡ true) ⊎ (journal.old.held < length journal.old.past + count)) }
        ensures kind { grows self.new ≡ grows self.old }
        ensures len { length (image self.new) ≡ length (image self.old) }
        ensures stay { StayReservedBut lba sectors (is_reserved self.old) (is_reserved self.new) }
        ensures held { OnErr result (StayReserved (is_reserved self.old) (is_reserved self.new)) }
        ensures starting { starting self.new ≡ starting self.old };

    /// Keeps the sectors as they are now. It takes no memory, and what was reserved may no longer be.
    fn keep(&mut self)
        requires { length (starting self.old) ≡ length (image self.old) }
        ensures kind { grows self.new ≡ grows self.old }
        ensures image { image self.new ≡ image self.old }
        ensures starting { starting self.new ≡ image self.old };

    /// Makes the sectors what they were when they were last kept. It takes no memory, and what was reserved may no longer be.
    fn restore(&mut self)
        requires { length (starting self.old) ≡ length (image self.old) }
        ensures kind { grows self.new ≡ grows self.old }
        ensures image { image self.new ≡ starting self.old }
        ensures starting { starting self.new ≡ starting self.old };

    // a store that doesn't grow has reserved every sector
    ghost none_lacks: { (store : Self) (lba : ℕ) → (grows store || is_reserved store lba) ≡ true };

    // none grows that can't
    ghost none_grows: { (store : Self) → (can_grow || not (grows store)) ≡ true };
}
