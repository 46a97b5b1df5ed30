ghost use Rattle.std.specs.Prelude.{◌≡◌};
ghost use Rattle.ahci_table.specs.Piece.{end_of, is_apart};

/// A run of a window's bytes for a command's data (AHCI 1.3.1, "Physical Region Descriptor Table"): the place of its
/// first byte, counted from the window's base, and its length, both in bytes.
#[derive(Clone, Copy, Debug, Default, PartialEq, Eq)]
pub struct Piece {
    pub at: u32,
    pub len: u32,
}

/// The place after the last byte, which may not fit 32 bits.
pub(crate) fn end_of(piece: &Piece) -> u64
    ensures { result ≡ end_of piece.now }
{
    u64::from(piece.at) + u64::from(piece.len)
}

/// Whether two pieces share no byte.
pub(crate) fn is_apart(piece: &Piece, other: &Piece) -> bool
    ensures { result ≡ is_apart piece.now other.now }
{
    end_of(piece) <= u64::from(other.at) || end_of(other) <= u64::from(piece.at)
}
