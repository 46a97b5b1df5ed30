ghost use Rattle.std.specs.Prelude.{◌≡◌, ◌++◌, OnOk};
ghost use Rattle.ahci_draw.specs.Text.{letter, numbered, piece_text, shape};

use std::alloc::{AllocError, Allocator};
use streams::TextBuffer;

/// A piece of a text: a word, one with a decimal number after it, or a byte. 128 bits hold each place of a picture.
#[derive(Clone, Copy, Debug)]
pub(crate) enum Piece<'a> {
    Word(&'a [u8]),
    Numbered(&'a [u8], u128),
    Byte(u8),
}

/// Appends a word, and a decimal number after it.
#[tactic(auto, unfolding(crate::specs::Text::numbered))]
pub(crate) fn push_number<A: Allocator>(
    text: &mut TextBuffer<A>,
    word: &[u8],
    number: u128,
) -> Result<(), AllocError>
    ensures { OnOk result (text.new.bytes ≡ text.old.bytes ++ numbered word.now number) }
{
    text.push_number(word, number)
}

/// Appends pieces, one after the other.
pub(crate) fn push_pieces<A: Allocator>(
    text: &mut TextBuffer<A>,
    pieces: &[Piece<'_>],
) -> Result<(), AllocError>
    ensures { OnOk result (text.new.bytes ≡ text.old.bytes ++ shape pieces.now) }
{
    for piece in pieces {
        push_piece(text, *piece)?;
    }
    Ok(())
}

fn push_piece<A: Allocator>(text: &mut TextBuffer<A>, piece: Piece<'_>) -> Result<(), AllocError>
    ensures { OnOk result (text.new.bytes ≡ text.old.bytes ++ piece_text piece.entry) }
{
    match piece {
        Piece::Word(word) => text.push(word),
        Piece::Numbered(word, number) => push_number(text, word, number),
        Piece::Byte(byte) => text.push(&[byte]),
    }
}

/// A count or a tag as a letter, from `A` on.
pub(crate) fn letter(count: usize) -> u8
    ensures { result ≡ letter count }
{
    65 + (count % 58) as u8
}
