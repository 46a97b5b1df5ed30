//! Data after what a new window has already. Where the pieces rise, a write's bytes are appended, and nothing is filled
//! that they would cover.

ghost use Rattle.std.specs.Prelude.{◌≡◌, ◌++◌, true, length, IfOk};
ghost use Rattle.ahci_table.specs.Laying.{laid, rises};
ghost use Rattle.ahci_table.specs.Piece.{total};

use crate::piece::{Piece, end_of};
use std::alloc::{AllocError, Allocator};

/// Whether the first piece begins at a place or after it, and each other one where the piece before it ends, or after
/// that.
pub(crate) fn rises(place: u64, pieces: &[Piece]) -> bool
    ensures { result ≡ rises place pieces.now }
{
    let mut end = place;
    for piece in pieces {
        if u64::from(piece.at) < end {
            return false;
        }
        end = end_of(piece);
    }
    true
}

/// Appends a text piece by piece, with zeros up to each.
pub(crate) fn lay<A: Allocator>(
    mut bytes: Vec<u8, A>,
    pieces: &[Piece],
    text: &[u8],
) -> Result<Vec<u8, A>, AllocError>
    requires rise { rises (length bytes.items) pieces.now ≡ true }
    requires sum { total pieces.now ≡ length text.now }
    ensures { IfOk result (λ v. v.items ≡ bytes.items ++ laid (length bytes.items) pieces.now text.now) }
{
    let mut rest = text;
    for piece in pieces {
        let (own, others) = rest.split_at(piece.len as usize);
        bytes.resize(piece.at as usize, 0)?;
        bytes.extend_from_slice(own)?;
        rest = others;
    }
    Ok(bytes)
}
