ghost use Rattle.std.specs.Prelude.{◌≡◌};
ghost use Rattle.ahci_table.specs.Defaults.{list_of};

use crate::defaults::{default_pieces, packed_pieces};
use crate::piece::Piece;
use arrayvec::ArrayVec;

/// Where the data of a command lie that names no pieces.
#[derive(Clone, Copy, Debug, PartialEq, Eq)]
pub enum PieceLayout {
    /// As `default_pieces` has them: from 1000h on, each of a page or of 1 MiB.
    Default,
    /// As few pieces as hold the command, right behind the PRDT: the window has no byte more than it needs.
    Packed,
}

impl PieceLayout {
    /// The pieces of a command with so many sectors. None for no sectors, and none for more than a command may have.
    pub(crate) fn pieces(self, sectors: u32) -> ArrayVec<Piece, 32>
        ensures { result.items ≡ list_of self sectors }
    {
        match self {
            PieceLayout::Default => default_pieces(sectors),
            PieceLayout::Packed => packed_pieces(sectors),
        }
    }
}
