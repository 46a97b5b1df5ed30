use crate::piece::Piece;
use arrayvec::ArrayVec;
use sata_fis::Queued;

/// What a window that a port takes asks for: the queued command in CFIS, and the pieces of its data in the list's order.
#[derive(Debug, Drop)]
pub struct Command {
    pub queued: Queued,
    pub pieces: ArrayVec<Piece, 32>,
}
