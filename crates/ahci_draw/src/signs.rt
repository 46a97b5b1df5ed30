//! The signs of entries, and what is above the lanes.

ghost use Rattle.std.specs.Prelude.{◌≡◌, ◌++◌, OnOk};
ghost use Rattle.ahci_draw.specs.Lines.{texts};
ghost use Rattle.ahci_draw.specs.Signs.{head_at, heads_text, label_at, rule_at, rule_shape, sign_at, signs_text};

use crate::listing::{LANE, SIGN, byte_at, label_of, title_of};
use crate::text::{Piece, push_pieces};
use std::alloc::{AllocError, Allocator};
use streams::TextBuffer;

/// Appends the sign of a column, and what a pointer shows there, if it is in a lane of this letter.
#[tactic(auto, unfolding(crate::specs::Signs::sign_shape))]
fn push_sign_at<A: Allocator>(
    text: &mut TextBuffer<A>,
    lane: u8,
    foot: u128,
    column: usize,
    line: &[u8],
) -> Result<(), AllocError>
    ensures { OnOk result (text.new.bytes ≡ text.old.bytes ++ sign_at lane foot column line.now) }
{
    if byte_at(line, LANE) != lane {
        return Ok(());
    }
    push_pieces(
        text,
        &[
            Piece::Numbered(b"<text x='", 12 * (column as u128) + 78),
            Piece::Numbered(b"' y='", foot),
            Piece::Word(b"'><title>"),
            Piece::Word(title_of(line)),
            Piece::Word(b"</title>"),
            Piece::Byte(byte_at(line, SIGN)),
            Piece::Word(b"</text>"),
        ],
    )
}

/// Appends the signs of a lane of this letter.
#[tactic(auto, unfolding(crate::specs::Signs::signs_text))]
pub(crate) fn push_signs<A: Allocator>(
    text: &mut TextBuffer<A>,
    lane: u8,
    foot: u128,
    lines: &[&[u8]],
) -> Result<(), AllocError>
    ensures { OnOk result (text.new.bytes ≡ text.old.bytes ++ signs_text lane foot (texts lines.now)) }
{
    for column in 0..lines.len() {
        push_sign_at(text, lane, foot, column, lines[column])?;
    }
    Ok(())
}

/// Appends a line down across so many lanes.
#[tactic(auto, unfolding(crate::specs::Signs::rule_shape))]
fn push_rule<A: Allocator>(
    text: &mut TextBuffer<A>,
    lanes: usize,
    column: usize,
    colour: &[u8],
) -> Result<(), AllocError>
    ensures { OnOk result (text.new.bytes ≡ text.old.bytes ++ rule_shape lanes column colour.now) }
{
    push_pieces(
        text,
        &[
            Piece::Word(b"<path stroke-width='2' stroke='#"),
            Piece::Word(colour),
            Piece::Numbered(b"' d='M", 12 * (column as u128) + 78),
            Piece::Numbered(b" 24v", 16 * (lanes as u128)),
            Piece::Word(b"'/>"),
        ],
    )
}

/// Appends the line of a failure, or of a recovery; another entry has none.
fn push_rule_at<A: Allocator>(
    text: &mut TextBuffer<A>,
    lanes: usize,
    column: usize,
    sign: u8,
) -> Result<(), AllocError>
    ensures { OnOk result (text.new.bytes ≡ text.old.bytes ++ rule_at lanes column sign) }
{
    match sign {
        b'X' => push_rule(text, lanes, column, b"e55"),
        b'V' => push_rule(text, lanes, column, b"96d"),
        _ => Ok(()),
    }
}

/// Appends the entry's number above each tenth column.
#[tactic(auto, unfolding(crate::specs::Signs::label_shape))]
pub(crate) fn push_label_at<A: Allocator>(
    text: &mut TextBuffer<A>,
    column: usize,
    line: &[u8],
) -> Result<(), AllocError>
    ensures { OnOk result (text.new.bytes ≡ text.old.bytes ++ label_at column line.now) }
{
    if column % 10 != 0 {
        return Ok(());
    }
    push_pieces(
        text,
        &[
            Piece::Numbered(b"<text x='", 12 * (column as u128) + 78),
            Piece::Word(b"' y='10'>"),
            Piece::Word(label_of(title_of(line))),
            Piece::Word(b"</text>"),
        ],
    )
}

/// Appends what is behind and above the lanes of a column.
#[tactic(auto, unfolding(crate::specs::Signs::head_at))]
fn push_head<A: Allocator>(
    text: &mut TextBuffer<A>,
    lanes: usize,
    column: usize,
    line: &[u8],
) -> Result<(), AllocError>
    ensures { OnOk result (text.new.bytes ≡ text.old.bytes ++ head_at lanes column line.now) }
{
    push_rule_at(text, lanes, column, byte_at(line, SIGN))?;
    push_label_at(text, column, line)?;
    push_sign_at(text, b'.', 20, column, line)
}

/// The same of all columns.
#[tactic(auto, unfolding(crate::specs::Signs::heads_text))]
pub(crate) fn push_heads<A: Allocator>(
    text: &mut TextBuffer<A>,
    lanes: usize,
    lines: &[&[u8]],
) -> Result<(), AllocError>
    ensures { OnOk result (text.new.bytes ≡ text.old.bytes ++ heads_text lanes (texts lines.now)) }
{
    for column in 0..lines.len() {
        push_head(text, lanes, column, lines[column])?;
    }
    Ok(())
}
