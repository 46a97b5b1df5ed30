//! What is asked of a list of pieces as a whole.

ghost use Rattle.std.specs.Prelude.{◌≡◌, ◌≤◌, length};
ghost use Rattle.std.specs.List.{list_all};
ghost use Rattle.ahci_table.specs.Piece.{are_apart, are_one_run, is_apart, total, furthest};

use crate::piece::{Piece, end_of, is_apart};

/// Whether a piece shares no byte with any of these.
fn is_apart_from(piece: &Piece, others: &[Piece]) -> bool
    ensures { result ≡ list_all (is_apart piece.now) others.now }
{
    others.iter().all(|other| is_apart(piece, other))
}

/// Whether no two pieces share a byte.
pub(crate) fn are_apart(pieces: &[Piece]) -> bool
    ensures { result ≡ are_apart pieces.now }
{
    for (index, piece) in pieces.iter().enumerate() {
        if !is_apart_from(piece, &pieces[index + 1..]) {
            return false;
        }
    }
    true
}

/// Whether the first piece begins at a place, and each other one where the piece before it ends.
pub(crate) fn are_one_run(place: u64, pieces: &[Piece]) -> bool
    ensures { result ≡ are_one_run place pieces.now }
{
    let mut end = place;
    for piece in pieces {
        if u64::from(piece.at) != end {
            return false;
        }
        end = end_of(piece);
    }
    true
}

/// The bytes of all pieces together.
pub(crate) fn total(pieces: &[Piece]) -> u64
    requires { length pieces.now ≤ 32 }
    ensures { result ≡ total pieces.now }
{
    let mut bytes = 0;
    for piece in pieces {
        bytes += u64::from(piece.len);
    }
    bytes
}

/// Where the piece that reaches furthest ends.
pub(crate) fn furthest(pieces: &[Piece]) -> u64
    ensures { result ≡ furthest pieces.now }
{
    let mut end = 0;
    for piece in pieces {
        end = end_of(piece).max(end);
    }
    end
}
