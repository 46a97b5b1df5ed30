//! How a page is made.

ghost use Rattle.std.specs.Prelude.{◌≡◌, ◌+◌, ◌<◌, ◌≤◌, true, length, OnOk};
ghost use Rattle.sector_store.specs.Reserved.{AreReserved};
ghost use Rattle.sector_store.specs.Slots.{slot_at, table_span};
ghost use Rattle.sector_store.specs.Shown.{IsPageOf, ShowSame, is_held, is_touched, is_writable, sector_now};

use crate::base::Base;
use crate::change;
use crate::page::{PAGE, Page};
use crate::pages::Pages;
use std::alloc::{AllocError, Allocator};

/// Reads the eight sectors of a page.
fn read_page<B: Base>(base: &B, number: u32, out: &mut [u8])
    requires { length out.old ≡ 4096 }
    ensures { IsPageOf (B.sector base.now) number out.new }
{
    for place in 0..8usize {
        base.read(
            number as u64 * 8 + place as u64,
            &mut out[place * 512..place * 512 + 512],
        );
    }
}

impl<B: Base, A: Allocator + Copy> Pages<B, A> {
    /// The bytes of a page as it is now.
    fn shown(&self, number: u32) -> [u8; PAGE]
        ensures page { IsPageOf (sector_now (B.sector self.now.base) (slot_at self.now.table)) number result }
        ensures len { length result ≡ 4096 }
    {
        let mut bytes = [0; PAGE];
        match self.page(number) {
            Some(page) => bytes.copy_from_slice(page),
            None => read_page(&self.base, number, &mut bytes),
        }
        bytes
    }

    /// Makes the slot of a number, and puts the number into the list, if it isn't there.
    ///
    /// # Errors
    /// If there is no memory.
    pub(super) fn touch(&mut self, number: u32) -> Result<(), AllocError>
        requires { number < table_span self.old.table }
        ensures ok { OnOk result (is_touched (slot_at self.new.table) number ≡ true) }
        ensures same { ShowSame (B.sector self.old.base) (slot_at self.old.table) (slot_at self.new.table) }
        ensures span { table_span self.new.table ≡ table_span self.old.table }
        ensures base { self.new.base ≡ self.old.base }
        ensures sectors { self.new.sectors ≡ self.old.sectors }
    {
        if self.is_touched(number) {
            return Ok(());
        }
        let alloc = self.alloc;
        self.table.make(alloc, number)?;
        self.touched.push(number)?;
        change::touch(&mut self.table, number);
        Ok(())
    }

    /// Makes a page in the upper layer, if none is in memory there, with the bytes that it shows.
    ///
    /// # Errors
    /// If there is no memory.
    pub(super) fn reserve_page(&mut self, number: u32) -> Result<(), AllocError>
        requires { number < table_span self.old.table }
        ensures ok { OnOk result (is_held (slot_at self.new.table) number ≡ true) }
        ensures same { ShowSame (B.sector self.old.base) (slot_at self.old.table) (slot_at self.new.table) }
        ensures span { table_span self.new.table ≡ table_span self.old.table }
        ensures base { self.new.base ≡ self.old.base }
        ensures sectors { self.new.sectors ≡ self.old.sectors }
    {
        if self.is_held(number) {
            return Ok(());
        }
        self.touch(number)?;
        let bytes = self.shown(number);
        let page = Page::new(self.alloc, bytes)?;
        change::put(&mut self.table, number, page);
        Ok(())
    }

    /// Makes each page of these sectors in the upper layer.
    ///
    /// # Errors
    /// If there is no memory.
    pub(super) fn reserve_run(&mut self, lba: u64, sectors: u64) -> Result<(), AllocError>
        requires { lba + sectors ≤ self.old.sectors }
        ensures ok { OnOk result (AreReserved (is_writable (slot_at self.new.table)) lba sectors) }
        ensures same { ShowSame (B.sector self.old.base) (slot_at self.old.table) (slot_at self.new.table) }
        ensures base { self.new.base ≡ self.old.base }
        ensures sectors { self.new.sectors ≡ self.old.sectors }
    {
        let end = (lba + sectors).div_ceil(8);
        for number in lba / 8..end {
            self.reserve_page(number as u32)?;
        }
        Ok(())
    }
}

impl<B, A: Allocator> Pages<B, A> {
    /// Whether the page of a number's upper layer is in memory.
    pub(super) fn is_held(&self, number: u32) -> bool
        ensures { result ≡ is_held (slot_at self.now.table) number }
    {
        match self.table.slot(number) {
            Some(slot) => slot.is_held(),
            None => false,
        }
    }

    /// Whether a number is in the list.
    pub(super) fn is_touched(&self, number: u32) -> bool
        ensures { result ≡ is_touched (slot_at self.now.table) number }
    {
        match self.table.slot(number) {
            Some(slot) => slot.is_touched(),
            None => false,
        }
    }
}
