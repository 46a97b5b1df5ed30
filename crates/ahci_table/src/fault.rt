//! Why no window is built, and which rule a window breaks.

use port_refusal::{Refusal, same_name};
use std::alloc::AllocError;
use thiserror::Error;

/// Why no window is built. The cases are tested in this order.
#[derive(Clone, Copy, Debug, PartialEq, Eq, Error)]
pub enum BuildFault {
    /// The command has no sectors or over 65,536, or the bytes of a write aren't whole sectors of 512 bytes.
    #[error("not 1 to 65,536 whole sectors")]
    BadCount,
    /// The LBA doesn't fit 48 bits.
    #[error("the LBA does not fit 48 bits")]
    BadLba,
    /// There are no pieces.
    #[error("there are no pieces")]
    NoPieces,
    /// There are over 32 pieces.
    #[error("there are over 32 pieces")]
    TooManyPieces,
    /// A piece has an odd place, an odd length, no bytes or over 4,194,304.
    #[error("a piece has an odd place, an odd length, no bytes or over 4,194,304")]
    OddPiece,
    /// A piece begins before the end of the command table, or ends past 67,108,864.
    #[error("a piece begins before the end of the command table, or ends past 67,108,864")]
    PieceOutside,
    /// Two pieces share a byte.
    #[error("two pieces share a byte")]
    PiecesOverlap,
    /// The lengths don't add up to the command's bytes.
    #[error("the pieces' lengths do not add up to the command's bytes")]
    WrongTotal,
    /// A growth was refused.
    #[error("out of memory")]
    OutOfMemory,
}

impl From<AllocError> for BuildFault {
    ghost use Rattle.std.specs.Prelude.{◌≡◌};
    ghost use Rattle.ahci_table.specs.declared.fault.BuildFault.TheVariants as the-fault;

    ghost from_gives = { λ _ fault. fault ≡ the-fault.OutOfMemory };

    fn from(_refused: AllocError) -> BuildFault {
        BuildFault::OutOfMemory
    }
}

/// The first rule that a window breaks. The rules are tested in this order.
#[derive(Clone, Copy, Debug, PartialEq, Eq, Error)]
#[error("{}", Refusal::from(*self))]
pub enum TableFault {
    /// The command header isn't that of a queued command with 1 to 32 entries whose table is in this window, or the
    /// window is shorter than its table or longer than 67,108,864 bytes.
    BadHeader,
    /// CFIS is no READ or WRITE FPDMA QUEUED, or the header names the other direction.
    BadCommand,
    /// The command's tag isn't the window's.
    WrongTag,
    /// An entry is odd, has a high address or lies outside, two share a byte, or all together don't have the command's
    /// bytes.
    BadList,
}

impl From<TableFault> for Refusal {
    ghost use Rattle.std.specs.Prelude.{◌≡◌};
    ghost use Rattle.ahci_table.specs.Refusals.{of_table};

    ghost from_gives = { λ fault refusal. refusal ≡ of_table fault };

    fn from(fault: TableFault) -> Refusal {
        same_name!(fault, TableFault: BadHeader, BadCommand, WrongTag, BadList)
    }
}
