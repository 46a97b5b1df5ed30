use std::alloc::AllocError;

/// Why no board was made.
#[derive(Clone, Copy, Debug, PartialEq, Eq)]
pub enum BoardFault {
    /// Room for the board's word was refused.
    OutOfMemory,
}

impl From<AllocError> for BoardFault {
    ghost use Rattle.std.specs.Prelude.{◌≡◌};
    ghost use Rattle.tag_board.specs.declared.board_fault.BoardFault.TheVariants as the-fault;

    ghost from_gives = { λ _ fault. fault ≡ the-fault.OutOfMemory };

    fn from(_refused: AllocError) -> BoardFault {
        BoardFault::OutOfMemory
    }
}
