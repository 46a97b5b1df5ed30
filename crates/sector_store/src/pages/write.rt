//! How a sector is written.

ghost use Rattle.std.specs.Prelude.{◌≡◌, ◌+◌, ◌*◌, ◌/◌, ◌<◌, ◌≤◌, true, length};
ghost use Rattle.sector_store.specs.Slots.{slot_at};
ghost use Rattle.sector_store.specs.Reserved.{AreReserved};
ghost use Rattle.sector_store.specs.Shown.{AreWrittenAt, IsWrittenAt, is_writable};

use crate::base::Base;
use crate::change;
use crate::pages::Pages;
use std::alloc::Allocator;

impl<B: Base, A: Allocator> Pages<B, A> {
    /// Writes a sector whose page is in the upper layer.
    pub(super) fn write_sector(&mut self, lba: u64, sector: &[u8])
        requires inside { lba < self.old.sectors }
        requires sector { length sector.now ≡ 512 }
        requires writable { is_writable (slot_at self.old.table) lba ≡ true }
        ensures written { IsWrittenAt lba sector.now (slot_at self.old.table) (slot_at self.new.table) }
        ensures base { self.new.base ≡ self.old.base }
        ensures sectors { self.new.sectors ≡ self.old.sectors }
    {
        let place = (lba % 8) as usize;
        change::write(&mut self.table, (lba / 8) as u32, place, sector);
    }

    /// Writes these bytes over the sectors from `lba` on, whose pages are in the upper layer.
    pub(super) fn write_run(&mut self, lba: u64, bytes: &[u8])
        requires whole { length bytes.now ≡ 512 * (length bytes.now / 512) }
        requires inside { lba + length bytes.now / 512 ≤ self.old.sectors }
        requires writable { AreReserved (is_writable (slot_at self.old.table)) lba (length bytes.now / 512) }
        ensures written { AreWrittenAt lba (length bytes.now / 512) bytes.now (slot_at self.old.table) (slot_at self.new.table) }
        ensures base { self.new.base ≡ self.old.base }
        ensures sectors { self.new.sectors ≡ self.old.sectors }
    {
        let count = bytes.len() / 512;
        for k in 0..count {
            self.write_sector(lba + k as u64, &bytes[k * 512..k * 512 + 512]);
        }
    }
}
