//! The memory that the disk moves a command's data in: the host side of a Data FIS.

use ahci_table::{Piece, Window};
use arrayvec::ArrayVec;
use ncq_core::Host;
use sata_fis::data_head;
use std::alloc::{Allocator, Global};
use std::marker::Model;

/// The memory of one tag's command, which the device reads and writes: the text is the window's.
#[derive(Drop)]
pub(crate) struct Memory<A: Allocator = Global> {
    pub(crate) window: Window<A>,
    /// The window's pieces, as its PRDT named them when it was issued: a Data FIS reads no PRDT.
    pub(crate) list: ArrayVec<Piece, 32>,
    /// The last DMA Setup.
    pub(crate) setup: [u8; 28],
    /// How many bytes of the text have moved since.
    offset: u32,
}

impl<A: Allocator> Model for Memory<A> {
    ghost use Rattle.ahci_port.specs.Memory.{MemoryState};
    ghost use Rattle.std.specs.Prelude.{◌≡◌, ◌≤◌};
    ghost use Rattle.ncq_journal.specs.Lawful.{most_sectors};
    ghost use Rattle.ahci_table.specs.Command.{queued_of};
    ghost use Rattle.ahci_table.specs.Fit.{IsFit};
    ghost use Rattle.ahci_table.specs.Prdt.{pieces};

    ghost Value = { MemoryState };

    ghost view = { λ m. record { window = m.window; setup = m.setup; offset = m.offset } };

    ghost invariant = { λ m. IsFit m.window × (m.list.items ≡ pieces m.window) × ((queued_of m.window).sectors ≤ most_sectors) };
}

impl<A: Allocator> Memory<A> {
    ghost use Rattle.std.specs.Prelude.{◌≡◌, ◌≤◌};
    ghost use Rattle.ncq_journal.specs.Lawful.{most_sectors};
    ghost use Rattle.ahci_table.specs.Command.{queued_of};
    ghost use Rattle.ahci_table.specs.Fit.{IsFit};
    ghost use Rattle.ahci_table.specs.Prdt.{pieces};

    /// The memory of a window that a port takes, before its first DMA Setup.
    pub(crate) fn of(window: Window<A>, list: ArrayVec<Piece, 32>) -> Self
        requires fit { IsFit window }
        requires list { list.items ≡ pieces window }
        requires short { (queued_of window).sectors ≤ most_sectors }
        ensures { result.window ≡ window }
    {
        Memory {
            window,
            list,
            setup: [0; 28],
            offset: 0,
        }
    }
}

impl<A: Allocator> Host for Memory<A> {
    ghost use Rattle.ahci_table.specs.Text.{text};
    ghost use Rattle.ahci_port.specs.Memory.{IsKept, kept_itself, kept_on};

    ghost text = { λ m. text m.window };

    ghost last_setup = { λ m. m.setup };

    ghost offset = { λ m. m.offset };

    ghost keeps = { λ a b. IsKept a.window b.window };

    ghost saw = { λ a fises b. Unit {0} };

    ghost keeps_itself = { λ a. kept_itself a.window };

    ghost keeps_on = { λ a b c ab bc. kept_on a.window b.window c.window ab bc };

    ghost saw_none = { λ a. Prim.tt };

    ghost saw_more = { λ a b c first then ab bc. Prim.tt };

    fn setup(&mut self, fis: &[u8; 28]) {
        self.setup = *fis;
        self.offset = 0;
    }

    fn deliver(&mut self, fis: &[u8]) {
        let payload = &fis[4..];
        self.window.scatter_in(&self.list, self.offset, payload);
        self.offset += payload.len() as u32;
    }

    fn deliver_parts(&mut self, _head: &[u8; 4], payload: &[u8]) {
        self.window.scatter_in(&self.list, self.offset, payload);
        self.offset += payload.len() as u32;
    }

    fn activate(&mut self, fis: &[u8; 4], out: &mut [u8]) {
        let (head, payload) = out.split_at_mut(4);
        head.copy_from_slice(&data_head());
        self.window.gather_in(&self.list, self.offset, payload);
        self.offset += payload.len() as u32;
    }

    fn at_hand(&self, len: usize) -> Option<&[u8]> {
        self.window.part_in(&self.list, self.offset, len)
    }

    fn activate_at_hand(&mut self, _fis: &[u8; 4], len: usize) {
        self.offset += len as u32;
    }
}
