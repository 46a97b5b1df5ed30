//! One entry of a PRDT (AHCI 1.3.1, section 4.2.3).

ghost use Rattle.std.specs.Prelude.{◌≡◌, ◌+◌, ◌≤◌, length};
ghost use Rattle.sata_fis.specs.Places.{number};

use crate::piece::Piece;
use byteorder::{ByteOrder, LittleEndian};
use std::marker::Model;

/// The fields of a PRDT entry (AHCI 1.3.1, section 4.2.3).
#[derive(Clone, Copy)]
pub(crate) struct Entry {
    /// The data's address, low and high.
    pub(crate) dba: u32,
    pub(crate) dbau: u32,
    /// The data's byte count less one.
    pub(crate) dbc: u32,
}

impl Model for Entry {
    ghost use Rattle.ahci_table.specs.Prdt.{EntryFields};

    ghost Value = { EntryFields };

    ghost view = { λ e. e };

    ghost inverse = { λ e. e };
}

/// The dword at a place.
fn dword(bytes: &[u8], place: usize) -> u32
    requires { place + 4 ≤ length bytes.now }
    ensures { result ≡ number place 4 bytes.now }
{
    LittleEndian::read_u32(&bytes[place..])
}

impl Entry {
    ghost use Rattle.std.specs.Prelude.{◌≡◌, ◌+◌, ◌≤◌, ◌<◌, ◌^◌, ◌↔◌, length, IsSome, IfSome};
    ghost use Rattle.ahci_table.specs.Fit.{IsEntry};
    ghost use Rattle.ahci_table.specs.Prdt.{entry_at, piece_of};

    /// What the 16 bytes at a place say.
    pub(crate) fn at(bytes: &[u8], place: usize) -> Entry
        requires { place + 16 ≤ length bytes.now }
        ensures { result ≡ entry_at place bytes.now }
    {
        Entry {
            dba: dword(bytes, place),
            dbau: dword(bytes, place + 4),
            dbc: dword(bytes, place + 12) % (1 << 22),
        }
    }

    /// The run of bytes that the entry names, where it has whole words, and lies wholly between two places of the window
    /// that begins at `start`.
    pub(crate) fn piece(&self, start: u64, first: u64, last: u64) -> Option<Piece>
        requires start { start < 2 ^ 32 }
        requires first { first < 2 ^ 32 }
        requires last { last < 2 ^ 32 }
        ensures fit { IsSome result ↔ IsEntry start first last self.now }
        ensures piece { IfSome result (λ p. p ≡ piece_of start self.now) }
    {
        let dba = u64::from(self.dba);
        let len = u64::from(self.dbc) + 1;
        if dba % 2 != 0 || self.dbau != 0 || len % 2 != 0 {
            return None;
        }
        if dba < start + first || dba + len > start + last {
            return None;
        }
        Some(Piece {
            at: (dba - start) as u32,
            len: len as u32,
        })
    }
}
