//! How a sector is read.

ghost use Rattle.std.specs.Prelude.{◌≡◌, ◌+◌, ◌*◌, ◌/◌, ◌<◌, ◌≤◌, true, Some, length, IfSome};
ghost use Rattle.std.specs.Option.{option_copied};
ghost use Rattle.sector_store.specs.Blank.{IsBlank};
ghost use Rattle.sector_store.specs.Layers.{page_now, zero_page};
ghost use Rattle.sector_store.specs.Slots.{layers_of, slot_at};
ghost use Rattle.sector_store.specs.Shown.{AreRead, sector_now, sector_kept};

use crate::base::Base;
use crate::page::PAGE;
use crate::pages::Pages;
use crate::run::run_at;
use ncq_journal::read_sectors;
use std::alloc::Allocator;

impl<B: Base, A: Allocator> Pages<B, A> {
    /// The bytes of a page as it is now, if there is one.
    pub(super) fn page(&self, number: u32) -> Option<&[u8]>
        ensures bytes { option_copied result ≡ page_now (layers_of (slot_at self.now.table number)) }
        ensures len { IfSome (option_copied result) (λ page. length page ≡ 4096) }
    {
        match self.table.slot(number) {
            Some(slot) => slot.page(),
            None => None,
        }
    }

    /// The bytes of a page that was kept, if there is one.
    fn kept_page(&self, number: u32) -> Option<&[u8]>
        ensures bytes { option_copied result ≡ (layers_of (slot_at self.now.table number)).lower }
        ensures len { IfSome (option_copied result) (λ page. length page ≡ 4096) }
    {
        match self.table.slot(number) {
            Some(slot) => slot.kept(),
            None => None,
        }
    }

    /// Whether a page as it is now has a mark that it is zeros.
    fn is_marked(&self, number: u32) -> bool
        ensures { result ≡ true → page_now (layers_of (slot_at self.now.table number)) ≡ Some zero_page }
    {
        match self.table.slot(number) {
            Some(slot) => slot.is_zeros(),
            None => false,
        }
    }

    /// Whether a page as it is now is known to be zeros, with no look at its bytes.
    #[tactic(auto, using(crate::proofs::ZeroLemmas::blank_marked, crate::proofs::ZeroLemmas::blank_below))]
    pub(super) fn is_blank(&self, number: u32) -> bool
        ensures { result ≡ true → IsBlank (sector_now (B.sector self.now.base) (slot_at self.now.table)) number }
    {
        match self.page(number) {
            Some(_) => self.is_marked(number),
            None => self.base.ends_at(number as u64 * 8),
        }
    }

    /// Reads a sector as it is now.
    pub(super) fn read_sector(&self, lba: u64, out: &mut [u8])
        requires inside { lba < self.now.sectors }
        requires room { length out.old ≡ 512 }
        ensures { out.new ≡ sector_now (B.sector self.now.base) (slot_at self.now.table) lba }
    {
        match self.page((lba / 8) as u32) {
            Some(page) => read_sectors(page, lba % 8, out),
            None => self.base.read(lba, out),
        }
    }

    /// Reads a sector as it was kept.
    pub(super) fn read_kept(&self, lba: u64, out: &mut [u8])
        requires inside { lba < self.now.sectors }
        requires room { length out.old ≡ 512 }
        ensures { out.new ≡ sector_kept (B.sector self.now.base) (slot_at self.now.table) lba }
    {
        match self.kept_page((lba / 8) as u32) {
            Some(page) => read_sectors(page, lba % 8, out),
            None => self.base.read(lba, out),
        }
    }

    /// Reads sectors from `lba` on as they are now, as many as `out` has.
    pub(super) fn read_run(&self, lba: u64, out: &mut [u8])
        requires whole { length out.old ≡ 512 * (length out.old / 512) }
        requires inside { lba + length out.old / 512 ≤ self.now.sectors }
        ensures { AreRead (sector_now (B.sector self.now.base) (slot_at self.now.table)) lba out.new }
    {
        let count = out.len() / 512;
        for k in 0..count {
            self.read_sector(lba + k as u64, &mut out[k * 512..k * 512 + 512]);
        }
    }

    /// So many bytes of sectors from `lba` on as they are now, where one page in memory has them all.
    pub(super) fn run_in_page(&self, lba: u64, len: usize) -> Option<&[u8]>
        requires whole { len ≡ 512 * (len / 512) }
        requires inside { lba + len / 512 ≤ self.now.sectors }
        ensures sectors { IfSome (option_copied result) (AreRead (sector_now (B.sector self.now.base) (slot_at self.now.table)) lba) }
        ensures len { IfSome (option_copied result) (λ bytes. length bytes ≡ len) }
    {
        let first = lba % 8;
        if len > PAGE - first as usize * 512 {
            return None;
        }
        match self.page((lba / 8) as u32) {
            Some(page) => Some(run_at(page, first, len)),
            None => None,
        }
    }

    /// Reads sectors from `lba` on as they were kept, as many as `out` has.
    pub(super) fn read_kept_run(&self, lba: u64, out: &mut [u8])
        requires whole { length out.old ≡ 512 * (length out.old / 512) }
        requires inside { lba + length out.old / 512 ≤ self.now.sectors }
        ensures { AreRead (sector_kept (B.sector self.now.base) (slot_at self.now.table)) lba out.new }
    {
        let count = out.len() / 512;
        for k in 0..count {
            self.read_kept(lba + k as u64, &mut out[k * 512..k * 512 + 512]);
        }
    }
}
