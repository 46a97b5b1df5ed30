ghost use Rattle.std.specs.Prelude.{◌≡◌, ℕ, ◌+◌, ◌*◌, ◌<◌, ◌≤◌};
ghost use Rattle.std.specs.Int.{div_ceil};
ghost use Rattle.ahci_table.specs.Defaults.{default_list, packed_list, piece_from, pieces_from, sectors_apiece};

use crate::piece::Piece;
use arrayvec::ArrayVec;
use ncq_journal::MAX_COUNT;

/// The most pieces of a command.
const MAX_PIECES: u32 = 32;

/// How many sectors a page of 4,096 bytes has.
const PAGE: u32 = 8;

/// How many sectors 1 MiB has.
const MEBIBYTE: u32 = 2_048;

/// How many sectors the longest piece has.
const MOST: u32 = 8_192;

/// How many sectors a whole piece has.
fn sectors_apiece(sectors: u32) -> u32
    ensures { result ≡ sectors_apiece sectors }
{
    if sectors <= MAX_PIECES * PAGE {
        PAGE
    } else {
        MEBIBYTE
    }
}

/// Piece number `index` of those that begin at `first`, where a whole piece has so many sectors.
fn piece_from(first: u32, sectors: u32, apiece: u32, index: u32) -> Piece
    requires begun { apiece * index < sectors }
    requires most { sectors ≤ MAX_COUNT }
    requires small { apiece ≤ MOST }
    requires first { first ≤ 0x1000 }
    ensures { result ≡ piece_from first sectors apiece index }
{
    let begun = apiece * index;
    Piece {
        at: first + 512 * begun,
        len: 512 * (sectors - begun).min(apiece),
    }
}

/// Pieces that follow one another.
fn pieces_from(first: u32, sectors: u32, apiece: u32) -> ArrayVec<Piece, 32>
    requires some { 1 ≤ apiece }
    requires most { sectors ≤ MAX_COUNT }
    requires small { apiece ≤ MOST }
    requires first { first ≤ 0x1000 }
    requires few { div_ceil sectors apiece ≤ 32 }
    requires begun { (i : ℕ) → i < div_ceil sectors apiece → apiece * i < sectors }
    ensures { result.items ≡ pieces_from first sectors apiece }
{
    let mut pieces = ArrayVec::new();
    for index in 0..sectors.div_ceil(apiece) {
        pieces.push(piece_from(first, sectors, apiece, index));
    }
    pieces
}

/// The pieces of a command with so many sectors where nothing else is asked for: one after the other from 1000h on, each of
/// 4,096 bytes for up to 256 sectors and of 1,048,576 bytes for more, the last shorter. None for no sectors, and none for
/// more than a command may have.
pub fn default_pieces(sectors: u32) -> ArrayVec<Piece, 32>
    ensures { result.items ≡ default_list sectors }
{
    if sectors > MAX_COUNT {
        return ArrayVec::new();
    }
    pieces_from(0x1000, sectors, sectors_apiece(sectors))
}

/// The fewest pieces of a command with so many sectors, one after the other right behind the PRDT: of 4,194,304 bytes, the last shorter.
/// None for no sectors, and none for more than a command may have.
pub(crate) fn packed_pieces(sectors: u32) -> ArrayVec<Piece, 32>
    ensures { result.items ≡ packed_list sectors }
{
    if sectors > MAX_COUNT {
        return ArrayVec::new();
    }
    pieces_from(0x80 + 16 * sectors.div_ceil(MOST), sectors, MOST)
}
