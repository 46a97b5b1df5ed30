//! How sectors become zeros. Those of whole pages get a mark, which takes no page; those of the others are written.

ghost use Rattle.std.specs.Prelude.{◌≡◌, ◌⊎◌, ℕ, ◌+◌, ◌-◌, ◌*◌, ◌/◌, ◌<◌, ◌≤◌, OnOk, OnErr};
ghost use Rattle.sector_store.specs.Blank.{AreClearable, AreMarkable, IsCleared};
ghost use Rattle.sector_store.specs.Slots.{slot_at, table_span};
ghost use Rattle.sector_store.specs.Shown.{ShowSame, is_touched, is_writable, sector_kept};
ghost use Rattle.ncq_journal.specs.Image.{is_within};
ghost use Rattle.sector_store.specs.Room.{MakesRoom};
ghost use Rattle.sector_store.specs.Zeroed.{StayReservedBut};

use crate::base::Base;
use crate::change;
use crate::pages::Pages;
use ncq_journal::Journal;
use std::alloc::{AllocError, Allocator};

/// What a sector has that is zeros.
static SECTOR: [u8; 512] = [0; 512];

/// Where the first whole page of these sectors begins, or their end.
fn front_of(lba: u64, end: u64) -> u64
    requires order { lba ≤ end }
    requires most { end ≤ 4294967296 }
    ensures from { lba ≤ result }
    ensures to { result ≤ end }
    ensures part { result ≤ 8 * (lba / 8) + 8 }
    ensures whole { (8 * (result / 8) ≡ result) ⊎ (result ≡ end) }
{
    let whole = lba.div_ceil(8) * 8;
    if whole < end { whole } else { end }
}

/// Where the last whole page of the sectors from the first whole page on ends, or that place.
fn back_of(front: u64, end: u64) -> u64
    requires { front ≤ end }
    ensures from { front ≤ result }
    ensures to { result ≤ end }
    ensures part { end ≤ 8 * (result / 8) + 8 }
    ensures whole { (8 * (result / 8) ≡ result) ⊎ (result ≡ front) }
{
    let whole = end / 8 * 8;
    if front < whole { whole } else { front }
}

impl<B: Base, A: Allocator + Copy> Pages<B, A> {
    /// Takes the memory with which these sectors of one page can be written, if they aren't known to be zeros.
    ///
    /// # Errors
    /// If there is no memory.
    #[tactic(auto, using(crate::proofs::ZeroLemmas::clearable_none, crate::proofs::ZeroLemmas::clearable_blank, crate::proofs::ZeroLemmas::clearable_held))]
    fn prepare_part(&mut self, lba: u64, sectors: u64) -> Result<(), AllocError>
        requires inside { lba + sectors ≤ self.old.sectors }
        requires one { lba + sectors ≤ 8 * (lba / 8) + 8 }
        ensures ok { OnOk result (AreClearable (B.sector self.old.base) (is_within lba sectors) (slot_at self.new.table)) }
        ensures same { ShowSame (B.sector self.old.base) (slot_at self.old.table) (slot_at self.new.table) }
        ensures base { self.new.base ≡ self.old.base }
        ensures sectors { self.new.sectors ≡ self.old.sectors }
    {
        let number = (lba / 8) as u32;
        if sectors == 0 || self.is_blank(number) {
            return Ok(());
        }
        self.reserve_page(number)?;
        Ok(())
    }

    /// Takes the memory that the mark of a page needs, if it isn't known to be zeros.
    ///
    /// # Errors
    /// If there is no memory.
    #[tactic(auto, using(crate::proofs::ZeroLemmas::markable_blank, crate::proofs::ZeroLemmas::markable_touched))]
    fn prepare_page(&mut self, number: u32) -> Result<(), AllocError>
        requires { number < table_span self.old.table }
        ensures ok { OnOk result (AreMarkable (B.sector self.old.base) number (number + 1) (slot_at self.new.table)) }
        ensures same { ShowSame (B.sector self.old.base) (slot_at self.old.table) (slot_at self.new.table) }
        ensures span { table_span self.new.table ≡ table_span self.old.table }
        ensures base { self.new.base ≡ self.old.base }
        ensures sectors { self.new.sectors ≡ self.old.sectors }
    {
        if self.is_blank(number) {
            return Ok(());
        }
        self.touch(number)?;
        Ok(())
    }

    /// Takes the memory that the marks of these pages need, of those that aren't known to be zeros.
    ///
    /// # Errors
    /// If there is no memory.
    fn prepare_pages(&mut self, first: u64, end: u64) -> Result<(), AllocError>
        requires { 8 * end ≤ self.old.sectors }
        ensures ok { OnOk result (AreMarkable (B.sector self.old.base) first end (slot_at self.new.table)) }
        ensures same { ShowSame (B.sector self.old.base) (slot_at self.old.table) (slot_at self.new.table) }
        ensures base { self.new.base ≡ self.old.base }
        ensures sectors { self.new.sectors ≡ self.old.sectors }
    {
        for number in first..end {
            self.prepare_page(number as u32)?;
        }
        Ok(())
    }

    /// Takes the memory with which sectors can become zeros: those before the whole pages, the whole pages, and those behind them.
    ///
    /// # Errors
    /// If there is no memory.
    fn prepare_run(
        &mut self,
        lba: u64,
        sectors: u64,
        front: u64,
        back: u64,
    ) -> Result<(), AllocError>
        requires inside { lba + sectors ≤ self.old.sectors }
        requires from { lba ≤ front }
        requires order { front ≤ back }
        requires to { back ≤ lba + sectors }
        requires head { front ≤ 8 * (lba / 8) + 8 }
        requires tail { lba + sectors ≤ 8 * (back / 8) + 8 }
        ensures head { OnOk result (AreClearable (B.sector self.old.base) (is_within lba (front - lba)) (slot_at self.new.table)) }
        ensures tail { OnOk result (AreClearable (B.sector self.old.base) (is_within back (lba + sectors - back)) (slot_at self.new.table)) }
        ensures pages { OnOk result (AreMarkable (B.sector self.old.base) (front / 8) (back / 8) (slot_at self.new.table)) }
        ensures same { ShowSame (B.sector self.old.base) (slot_at self.old.table) (slot_at self.new.table) }
        ensures base { self.new.base ≡ self.old.base }
        ensures sectors { self.new.sectors ≡ self.old.sectors }
    {
        self.prepare_part(lba, front - lba)?;
        self.prepare_part(back, lba + sectors - back)?;
        self.prepare_pages(front / 8, back / 8)
    }

    /// Makes these sectors zeros. All memory is taken before the first changes, that for the journal's room among it.
    ///
    /// # Errors
    /// If there is no memory.
    pub(super) fn zero_run<J: Allocator>(
        &mut self,
        lba: u64,
        sectors: u64,
        journal: &mut Journal<J>,
        count: u64,
    ) -> Result<(), AllocError>
        requires { lba + sectors ≤ self.old.sectors }
        ensures ok { OnOk result (IsCleared (B.sector self.old.base) (is_within lba sectors) (slot_at self.old.table) (slot_at self.new.table)) }
        ensures err { OnErr result (ShowSame (B.sector self.old.base) (slot_at self.old.table) (slot_at self.new.table)) }
        ensures room { OnOk result (MakesRoom count journal.old journal.new) }
        ensures journal { OnErr result (journal.new ≡ journal.old) }
        ensures kept { (s : ℕ) → sector_kept (B.sector self.old.base) (slot_at self.new.table) s ≡ sector_kept (B.sector self.old.base) (slot_at self.old.table) s }
        ensures stay { StayReservedBut lba sectors (is_writable (slot_at self.old.table)) (is_writable (slot_at self.new.table)) }
        ensures base { self.new.base ≡ self.old.base }
        ensures sectors { self.new.sectors ≡ self.old.sectors }
    {
        let end = lba + sectors;
        let front = front_of(lba, end);
        let back = back_of(front, end);
        self.prepare_run(lba, sectors, front, back)?;
        journal.reserve(count)?;
        self.zero_prepared(lba, sectors, front, back);
        Ok(())
    }
}

impl<B: Base, A: Allocator> Pages<B, A> {
    /// Makes a sector zeros, if it can be written.
    #[tactic(auto, using(crate::proofs::ZeroLemmas::cleared_unheld))]
    fn zero_sector(&mut self, lba: u64)
        requires inside { lba < self.old.sectors }
        requires clearable { AreClearable (B.sector self.old.base) (is_within lba 1) (slot_at self.old.table) }
        ensures cleared { IsCleared (B.sector self.old.base) (is_within lba 1) (slot_at self.old.table) (slot_at self.new.table) }
        ensures base { self.new.base ≡ self.old.base }
        ensures sectors { self.new.sectors ≡ self.old.sectors }
    {
        if self.is_held((lba / 8) as u32) {
            self.write_sector(lba, SECTOR.as_slice());
        }
    }

    /// Makes these sectors zeros, of those that can be written.
    fn zero_part(&mut self, lba: u64, sectors: u64)
        requires inside { lba + sectors ≤ self.old.sectors }
        requires clearable { AreClearable (B.sector self.old.base) (is_within lba sectors) (slot_at self.old.table) }
        ensures cleared { IsCleared (B.sector self.old.base) (is_within lba sectors) (slot_at self.old.table) (slot_at self.new.table) }
        ensures base { self.new.base ≡ self.old.base }
        ensures sectors { self.new.sectors ≡ self.old.sectors }
    {
        for k in 0..sectors {
            self.zero_sector(lba + k);
        }
    }

    /// Marks a page as zeros, if its number is in the list. Its memory comes back.
    #[tactic(auto, using(crate::proofs::ZeroLemmas::cleared_unlisted, crate::proofs::ChangeLemmas::touched_zeroed))]
    fn zero_page(&mut self, number: u32)
        requires { AreMarkable (B.sector self.old.base) number (number + 1) (slot_at self.old.table) }
        ensures cleared { IsCleared (B.sector self.old.base) (is_within (8 * number) 8) (slot_at self.old.table) (slot_at self.new.table) }
        ensures touched { (q : ℕ) → is_touched (slot_at self.new.table) q ≡ is_touched (slot_at self.old.table) q }
        ensures base { self.new.base ≡ self.old.base }
        ensures sectors { self.new.sectors ≡ self.old.sectors }
    {
        if self.is_touched(number) {
            change::zero(&mut self.table, number);
        }
    }

    /// Marks these pages as zeros.
    fn zero_pages(&mut self, first: u64, end: u64)
        requires order { first ≤ end }
        requires inside { 8 * end ≤ self.old.sectors }
        requires markable { AreMarkable (B.sector self.old.base) first end (slot_at self.old.table) }
        ensures cleared { IsCleared (B.sector self.old.base) (is_within (8 * first) (8 * (end - first))) (slot_at self.old.table) (slot_at self.new.table) }
        ensures base { self.new.base ≡ self.old.base }
        ensures sectors { self.new.sectors ≡ self.old.sectors }
    {
        for number in first..end {
            self.zero_page(number as u32);
        }
    }

    /// Makes sectors zeros: those before the whole pages, the whole pages, and those behind them.
    fn zero_prepared(&mut self, lba: u64, sectors: u64, front: u64, back: u64)
        requires inside { lba + sectors ≤ self.old.sectors }
        requires from { lba ≤ front }
        requires order { front ≤ back }
        requires to { back ≤ lba + sectors }
        requires first { (8 * (front / 8) ≡ front) ⊎ (front ≡ lba + sectors) }
        requires last { (8 * (back / 8) ≡ back) ⊎ (back ≡ front) }
        requires head { AreClearable (B.sector self.old.base) (is_within lba (front - lba)) (slot_at self.old.table) }
        requires tail { AreClearable (B.sector self.old.base) (is_within back (lba + sectors - back)) (slot_at self.old.table) }
        requires pages { AreMarkable (B.sector self.old.base) (front / 8) (back / 8) (slot_at self.old.table) }
        ensures cleared { IsCleared (B.sector self.old.base) (is_within lba sectors) (slot_at self.old.table) (slot_at self.new.table) }
        ensures base { self.new.base ≡ self.old.base }
        ensures sectors { self.new.sectors ≡ self.old.sectors }
    {
        self.zero_pages(front / 8, back / 8);
        self.zero_part(lba, front - lba);
        self.zero_part(back, lba + sectors - back);
    }
}
