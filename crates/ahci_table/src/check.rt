//! How a window is checked, rule by rule.

ghost use Rattle.std.specs.Prelude.{◌≡◌, ◌*◌, ◌<◌, ◌↔◌, length, IsTrue, IsSome, IfSome, IfOk, IfErr};
ghost use Rattle.ahci_table.specs.Command.{queued_of};
ghost use Rattle.ahci_table.specs.Fit.{HasHeader, HasCommand, HasEntries, HasList, IsEntry, IsFit, Breaks};
ghost use Rattle.ahci_table.specs.Header.{header_of};
ghost use Rattle.ahci_table.specs.Prdt.{pieces, piece_of, entry_of, table_end};
ghost use Rattle.ahci_table.specs.Window.{base};

use crate::command::Command;
use crate::entry::Entry;
use crate::fault::TableFault;
use crate::header::Header;
use crate::list::{are_apart, total};
use crate::piece::Piece;
use crate::window::{MAX_BYTES, Window};
use arrayvec::ArrayVec;
use sata_fis::{Fis, Queued, decode, queued};
use std::alloc::Allocator;

/// The physical address at which the window of a tag begins.
pub(crate) fn base(tag: u8) -> u32
    requires { tag < 32 }
    ensures value { result ≡ base tag }
{
    0x1000_0000 + u32::from(tag) * 0x0400_0000
}

impl<A: Allocator> Window<A> {
    /// Reads the command, where a port takes the window. The rules are tested in the order of `TableFault`. It takes no
    /// memory.
    ///
    /// # Errors
    /// The first rule that the window breaks.
    pub fn check(&self) -> Result<Command, TableFault>
        ensures fit { IfOk result (λ c. IsFit self.now) }
        ensures queued { IfOk result (λ c. c.queued ≡ queued_of self.now) }
        ensures pieces { IfOk result (λ c. c.pieces.items ≡ pieces self.now) }
        ensures fault { IfErr result (λ e. Breaks self.now e) }
    {
        if !self.has_header() {
            return Err(TableFault::BadHeader);
        }
        let Some(queued) = self.command() else {
            return Err(TableFault::BadCommand);
        };
        if queued.tag != self.tag {
            return Err(TableFault::WrongTag);
        }
        let Some(pieces) = self.whole_list(queued.sectors) else {
            return Err(TableFault::BadList);
        };
        Ok(Command { queued, pieces })
    }

    /// Whether the header is that of a queued command with 1 to 32 entries whose table is in this window.
    fn has_header(&self) -> bool
        ensures { IsTrue result ↔ HasHeader self.now }
    {
        let header = Header::at(&self.header);
        if header.cfl != 5 || header.a || header.r || header.b || header.c {
            return false;
        }
        if header.prdtl == 0 || header.prdtl > 32 {
            return false;
        }
        if header.ctba != base(self.tag) || header.ctbau != 0 {
            return false;
        }
        let len = self.bytes.len();
        0x80 + 16 * usize::from(header.prdtl) <= len && len as u64 <= MAX_BYTES
    }

    /// The queued command that CFIS spells, where the header names its direction.
    fn command(&self) -> Option<Queued>
        requires { HasHeader self.now }
        ensures some { IsSome result ↔ HasCommand self.now }
        ensures value { IfSome result (λ q. q ≡ queued_of self.now) }
    {
        let asked = match &decode(&self.bytes[..20]) {
            Ok(Fis::H2d(h2d)) => queued(h2d),
            _ => None,
        };
        let command = asked?;
        if Header::at(&self.header).w == command.write {
            Some(command)
        } else {
            None
        }
    }

    /// How many entries the PRDT has.
    fn entries(&self) -> usize
        ensures { result ≡ (header_of self.now).prdtl }
    {
        usize::from(Header::at(&self.header).prdtl)
    }

    /// The piece of an entry, where it names a run between the table and the end of the window.
    fn piece_at(&self, index: usize) -> Option<Piece>
        requires header { HasHeader self.now }
        requires index { index < (header_of self.now).prdtl }
        ensures fit { IsSome result ↔ IsEntry (base self.now.tag) (table_end self.now) (length self.now.bytes) (entry_of self.now index) }
        ensures value { IfSome result (λ p. p ≡ piece_of (base self.now.tag) (entry_of self.now index)) }
    {
        let first = 0x80 + 16 * self.entries();
        Entry::at(&self.bytes, 0x80 + 16 * index).piece(
            u64::from(base(self.tag)),
            first as u64,
            self.bytes.len() as u64,
        )
    }

    /// The pieces, where each entry names a run between the table and the end of the window.
    pub(crate) fn pieces(&self) -> Option<ArrayVec<Piece, 32>>
        requires { HasHeader self.now }
        ensures some { IsSome result ↔ HasEntries self.now }
        ensures value { IfSome result (λ v. v.items ≡ pieces self.now) }
    {
        let mut pieces = ArrayVec::new();
        for index in 0..self.entries() {
            pieces.push(self.piece_at(index)?);
        }
        Some(pieces)
    }

    /// The pieces, where they share no byte either, and have the bytes of the command's sectors.
    fn whole_list(&self, sectors: u32) -> Option<ArrayVec<Piece, 32>>
        requires header { HasHeader self.now }
        requires sectors { sectors ≡ (queued_of self.now).sectors }
        ensures some { IsSome result ↔ HasList self.now }
        ensures value { IfSome result (λ v. v.items ≡ pieces self.now) }
    {
        let pieces = self.pieces()?;
        if are_apart(&pieces) && total(&pieces) == 512 * u64::from(sectors) {
            Some(pieces)
        } else {
            None
        }
    }
}
