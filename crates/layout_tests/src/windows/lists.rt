//! Lists of pieces at their limits.

use super::{Asked, Refusal, built, op_of, refuses};
use crate::table::equal;
use BuildFault::{OddPiece, PieceOutside, PiecesOverlap, WrongTotal};
use ahci_table::{BuildFault, Piece, Window, default_pieces};
use std::test::Fail;

/// Sectors, the number of their default pieces, and the last of these.
static DEFAULTS: [(u32, usize, Option<(u32, u32)>); 10] = [
    (0, 0, None),
    (1, 1, Some((0x1000, 512))),
    (8, 1, Some((0x1000, 4096))),
    (9, 2, Some((0x2000, 512))),
    (256, 32, Some((0x20000, 4096))),
    (257, 1, Some((0x1000, 131_584))),
    (2_048, 1, Some((0x1000, 1_048_576))),
    (2_049, 2, Some((0x10_1000, 512))),
    (65_536, 32, Some((0x1F0_1000, 1_048_576))),
    (65_537, 0, None),
];

#[test]
fn default_pieces_are_pages_or_mebibytes(rt: HostRuntime) {
    for (row, (sectors, count, wanted)) in DEFAULTS.iter().enumerate() {
        let pieces = default_pieces(*sectors);
        let last = match pieces.last() {
            Some(piece) => Some((piece.at, piece.len)),
            None => None,
        };
        equal(&rt, row, &(pieces.len(), last), &(*count, *wanted));
    }
}

/// 32 pieces of one sector each, the last place first.
fn falling() -> [Piece; 32] {
    let mut pieces = [Piece { at: 0, len: 512 }; 32];
    for (index, piece) in pieces.iter_mut().enumerate() {
        piece.at = 0x8000 - 0x400 * index as u32;
    }
    pieces
}

#[test]
fn pieces_may_come_in_falling_order(rt: HostRuntime) -> Result<(), Fail> {
    let pieces = falling();
    let op = op_of(rt.alloc(), Asked::Read(0, 32))?;
    let window = Window::build(rt.alloc(), 0, &op, &pieces)?;
    equal(&rt, 0, &window.bytes().len(), &0x8200);
    let Ok(command) = window.check() else {
        panic!(rt; "the window is not fit");
    };
    assert_eq!(rt; command.pieces.as_slice(), pieces.as_slice());
    Ok(())
}

/// Two pieces for a read of one sector.
static TOUCHING: [Refusal; 7] = [
    (&[(0x400, 256), (0x500, 256)], None),
    (&[(0x500, 256), (0x400, 256)], None),
    (&[(0x400, 258), (0x500, 254)], Some(PiecesOverlap)),
    (&[(0x500, 254), (0x400, 258)], Some(PiecesOverlap)),
    (&[(0x400, 510), (0x500, 2)], Some(PiecesOverlap)),
    (&[(0xA0, 256), (0x500, 256)], None),
    (&[(0x9E, 256), (0x500, 256)], Some(PieceOutside)),
];

#[test]
fn pieces_may_touch(rt: HostRuntime) -> Result<(), Fail> {
    refuses(&rt, rt.alloc(), Asked::Read(0, 1), TOUCHING.as_slice())?;
    Ok(())
}

static LARGE: [Refusal; 5] = [
    (
        &[(0xFFFF_FFFE, 0x40_0000), (0x400, 512)],
        Some(PieceOutside),
    ),
    (&[(0xFFFF_FFFE, 0xFFFF_FFFE), (0x400, 512)], Some(OddPiece)),
    (&[(0xFFFF_FFFE, 2), (0xFFFF_FFFE, 2)], Some(PieceOutside)),
    (&[(0x400, 0x40_0002), (0x1000, 2)], Some(OddPiece)),
    (
        &[(0x400, 0x40_0000), (0x80_0000, 0x40_0000)],
        Some(WrongTotal),
    ),
];

#[test]
fn sizes_may_pass_32_bits_when_added(rt: HostRuntime) -> Result<(), Fail> {
    refuses(&rt, rt.alloc(), Asked::Read(0, 1), LARGE.as_slice())?;
    Ok(())
}

static PAST_THE_LONGEST: [Refusal; 1] = [(&[(0x0400_0000 - 510, 512)], Some(PieceOutside))];

#[test]
fn the_longest_window(rt: HostRuntime) -> Result<(), Fail> {
    let one = Asked::Read(0, 1);
    let window = built(rt.alloc(), 31, one, &[(0x0400_0000 - 512, 512)])?;
    let found = (window.bytes().len(), window.check().err());
    equal(&rt, 0, &found, &(67_108_864, None));
    refuses(&rt, rt.alloc(), one, PAST_THE_LONGEST.as_slice())?;
    Ok(())
}
