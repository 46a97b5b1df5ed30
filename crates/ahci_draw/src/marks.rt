//! The marks of an overview: one for each place that has an entry of a sign.

ghost use Rattle.std.specs.Prelude.{◌≡◌, ◌++◌, ◌<◌, OnOk};
ghost use Rattle.ahci_draw.specs.Lines.{texts};
ghost use Rattle.ahci_draw.specs.Overview.{line_at, mark_at, mark_colour, mark_head, mark_shape, mark_top, marks_text, more_text};

use crate::listing::title_of;
use crate::places::{count_of, edge, first_of, part_of};
use crate::text::{Piece, push_number, push_pieces};
use std::alloc::{AllocError, Allocator};
use streams::TextBuffer;

/// The line of the entry of an index.
pub(crate) fn line_at<'a>(lines: &[&'a [u8]], index: usize) -> &'a [u8]
    ensures { result.now ≡ line_at (texts lines.now) index }
{
    match lines.get(index) {
        Some(line) => line,
        None => &[],
    }
}

/// Red for a failure, violet for a recovery.
fn mark_colour(sign: u8) -> &'static [u8]
    ensures { result.now ≡ mark_colour sign }
{
    match sign {
        b'X' => b"e55",
        _ => b"96d",
    }
}

/// A failure's mark is in the upper lane, a recovery's in the lower one.
fn mark_top(sign: u8) -> u128
    ensures { result ≡ mark_top sign }
{
    match sign {
        b'X' => 24,
        _ => 40,
    }
}

/// Appends how many more entries a mark has.
fn push_more<A: Allocator>(text: &mut TextBuffer<A>, more: usize) -> Result<(), AllocError>
    ensures { OnOk result (text.new.bytes ≡ text.old.bytes ++ more_text more) }
{
    if more == 0 {
        return Ok(());
    }
    push_number(text, b" and ", more as u128)?;
    text.push(b" more")
}

/// Appends a mark as far as the row of an entry.
#[tactic(auto, unfolding(crate::specs::Overview::mark_head))]
fn push_mark_head<A: Allocator>(
    text: &mut TextBuffer<A>,
    colour: &[u8],
    place: usize,
    top: u128,
    index: usize,
) -> Result<(), AllocError>
    ensures { OnOk result (text.new.bytes ≡ text.old.bytes ++ mark_head colour.now place top index) }
{
    push_pieces(
        text,
        &[
            Piece::Word(b"<path stroke-width='2' stroke='#"),
            Piece::Word(colour),
            Piece::Numbered(b"' d='M", place as u128 + 72),
            Piece::Numbered(b" ", top),
            Piece::Numbered(b"v16'><title>row ", (index / 100) as u128 + 1),
            Piece::Word(b", "),
        ],
    )
}

/// Appends a mark, with the row of an entry, the entry in words, and how many more the mark has.
fn push_mark<A: Allocator>(
    text: &mut TextBuffer<A>,
    sign: u8,
    place: usize,
    index: usize,
    title: &[u8],
    more: usize,
) -> Result<(), AllocError>
    ensures { OnOk result (text.new.bytes ≡ text.old.bytes ++ mark_shape sign place index title.now more) }
{
    push_mark_head(text, mark_colour(sign), place, mark_top(sign), index)?;
    text.push(title)?;
    push_more(text, more)?;
    text.push(b"</title></path>")
}

/// Appends the mark of the entries of a sign at a place.
fn push_mark_at<A: Allocator>(
    text: &mut TextBuffer<A>,
    sign: u8,
    signs: &[u8],
    lines: &[&[u8]],
    place: usize,
) -> Result<(), AllocError>
    requires { place < 1200 }
    ensures { OnOk result (text.new.bytes ≡ text.old.bytes ++ mark_at sign signs.now (texts lines.now) place) }
{
    let part = part_of(signs, place);
    match first_of(part, sign) {
        None => Ok(()),
        Some(first) => {
            let index = edge(signs.len(), place) + first;
            let more = count_of(part, sign).saturating_sub(1);
            let title = title_of(line_at(lines, index));
            push_mark(text, sign, place, index, title, more)
        }
    }
}

/// Appends the marks of a sign.
pub(crate) fn push_marks<A: Allocator>(
    text: &mut TextBuffer<A>,
    sign: u8,
    signs: &[u8],
    lines: &[&[u8]],
) -> Result<(), AllocError>
    ensures { OnOk result (text.new.bytes ≡ text.old.bytes ++ marks_text sign signs.now (texts lines.now)) }
{
    for place in 0..1200usize {
        push_mark_at(text, sign, signs, lines, place)?;
    }
    Ok(())
}
