//! The overview of a picture of more than a thousand entries, and the numbers of the rows below it.

ghost use Rattle.std.specs.Prelude.{◌≡◌, ◌++◌, ◌≤◌, OnOk, length};
ghost use Rattle.ahci_draw.specs.Lines.{texts};
ghost use Rattle.ahci_draw.specs.Overview.{body_text, counts_shape, counts_text, failure_label, long_text, overview_height, overview_of, overview_text, row_name, row_names, strip_text, tenths_text};

use crate::grid::push_grid;
use crate::lanes::cells_in;
use crate::listing::{SIGN, label_of, title_of};
use crate::marks::{line_at, push_marks};
use crate::places::{count_of, edge, first_of};
use crate::row::{push_rows, row_left, row_top, rows_in};
use crate::signs::push_label_at;
use crate::text::{Piece, push_number, push_pieces};
use std::alloc::{AllocError, Allocator};
use streams::TextBuffer;

/// How far down an overview moves the rows of so many columns.
pub(crate) fn overview_height(columns: usize) -> u128
    ensures { result ≡ overview_height columns }
{
    if columns <= 1000 { 0 } else { 88 }
}

/// The number of the first failure, whose index this is.
fn failure_label<'a>(lines: &[&'a [u8]], first: Option<usize>) -> &'a [u8]
    ensures { result.now ≡ failure_label (texts lines.now) first }
{
    match first {
        None => b"none",
        Some(index) => label_of(title_of(line_at(lines, index))),
    }
}

/// Appends how many entries, rows, failures and recoveries there are, and the number of the first failure.
#[tactic(auto, unfolding(crate::specs::Overview::counts_shape))]
fn push_numbers<A: Allocator>(
    text: &mut TextBuffer<A>,
    entries: usize,
    rows: usize,
    failures: usize,
    recoveries: usize,
    first: &[u8],
) -> Result<(), AllocError>
    ensures { OnOk result (text.new.bytes ≡ text.old.bytes ++ counts_shape entries rows failures recoveries first.now) }
{
    push_pieces(
        text,
        &[
            Piece::Numbered(
                b"\n<text x='8' y='94' font-size='13' text-anchor='start'>overview: entries: ",
                entries as u128,
            ),
            Piece::Numbered(b", rows: ", rows as u128),
            Piece::Numbered(b", failures: ", failures as u128),
            Piece::Numbered(b", recoveries: ", recoveries as u128),
            Piece::Word(b", first failure: "),
            Piece::Word(first),
            Piece::Word(b"</text>"),
        ],
    )
}

/// Appends the line of counts.
fn push_counts<A: Allocator>(
    text: &mut TextBuffer<A>,
    signs: &[u8],
    lines: &[&[u8]],
) -> Result<(), AllocError>
    ensures { OnOk result (text.new.bytes ≡ text.old.bytes ++ counts_text signs.now (texts lines.now)) }
{
    let rows = rows_in(signs.len());
    let failures = count_of(signs, b'X');
    let recoveries = count_of(signs, b'V');
    let first = failure_label(lines, first_of(signs, b'X'));
    push_numbers(text, signs.len(), rows, failures, recoveries, first)
}

/// Appends the number of the first entry from each tenth of the strip on.
#[tactic(auto, unfolding(crate::specs::Overview::tenths_text))]
fn push_tenths<A: Allocator>(text: &mut TextBuffer<A>, lines: &[&[u8]]) -> Result<(), AllocError>
    ensures { OnOk result (text.new.bytes ≡ text.old.bytes ++ tenths_text (texts lines.now)) }
{
    for ten in 0..10usize {
        let line = line_at(lines, edge(lines.len(), 120 * ten));
        push_label_at(text, 10 * ten, line)?;
    }
    Ok(())
}

/// Appends the strip: its two lanes, and the marks of failures and of recoveries.
#[tactic(auto, unfolding(crate::specs::Overview::strip_text))]
fn push_strip<A: Allocator>(
    text: &mut TextBuffer<A>,
    signs: &[u8],
    lines: &[&[u8]],
) -> Result<(), AllocError>
    ensures { OnOk result (text.new.bytes ≡ text.old.bytes ++ strip_text signs.now (texts lines.now)) }
{
    push_grid(text, 2, 100)?;
    push_tenths(text, lines)?;
    text.push(b"<text x='36' y='35'>failures</text><text x='36' y='51'>recoveries</text>")?;
    push_marks(text, b'X', signs, lines)?;
    push_marks(text, b'V', signs, lines)
}

/// Appends the overview of entries with these signs.
#[tactic(auto, unfolding(crate::specs::Overview::overview_of))]
fn push_overview_of<A: Allocator>(
    text: &mut TextBuffer<A>,
    signs: &[u8],
    lines: &[&[u8]],
) -> Result<(), AllocError>
    ensures { OnOk result (text.new.bytes ≡ text.old.bytes ++ overview_of signs.now (texts lines.now)) }
{
    push_counts(text, signs, lines)?;
    text.push(b"\n<g transform='translate(0 104)'>")?;
    push_strip(text, signs, lines)?;
    text.push(b"</g>")
}

/// Appends the overview of these lines.
fn push_overview<A: Allocator + Copy>(
    text: &mut TextBuffer<A>,
    lines: &[&[u8]],
) -> Result<(), AllocError>
    ensures { OnOk result (text.new.bytes ≡ text.old.bytes ++ overview_text (texts lines.now)) }
{
    let signs = cells_in(text.alloc(), lines, SIGN)?;
    push_overview_of(text, &signs, lines)
}

/// Appends the number of a row of so many lanes, from 1 on.
#[tactic(auto, unfolding(crate::specs::Overview::row_name))]
fn push_row_name<A: Allocator>(
    text: &mut TextBuffer<A>,
    lanes: usize,
    row: usize,
) -> Result<(), AllocError>
    requires { lanes ≤ 32 }
    ensures { OnOk result (text.new.bytes ≡ text.old.bytes ++ row_name lanes row) }
{
    push_number(text, b"\n<text x='", row_left(row) + 36)?;
    push_number(text, b"' y='", row_top(lanes, row) + 20)?;
    push_number(text, b"'>row ", row as u128 + 1)?;
    text.push(b"</text>")
}

/// Appends the numbers of so many rows.
#[tactic(auto, unfolding(crate::specs::Overview::row_names))]
fn push_row_names<A: Allocator>(
    text: &mut TextBuffer<A>,
    lanes: usize,
    rows: usize,
) -> Result<(), AllocError>
    requires { lanes ≤ 32 }
    ensures { OnOk result (text.new.bytes ≡ text.old.bytes ++ row_names lanes rows) }
{
    for row in 0..rows {
        push_row_name(text, lanes, row)?;
    }
    Ok(())
}

/// Appends an overview, and below it the rows with their numbers.
#[tactic(auto, unfolding(crate::specs::Overview::long_text))]
fn push_long<A: Allocator + Copy>(
    text: &mut TextBuffer<A>,
    tags: &[usize],
    lines: &[&[u8]],
) -> Result<(), AllocError>
    requires { length tags.now ≤ 32 }
    ensures { OnOk result (text.new.bytes ≡ text.old.bytes ++ long_text tags.now (texts lines.now)) }
{
    push_overview(text, lines)?;
    text.push(b"\n<g transform='translate(0 88)'>")?;
    push_row_names(text, tags.len(), rows_in(lines.len()))?;
    push_rows(text, tags, lines)?;
    text.push(b"\n</g>")
}

/// Appends the rows of these lines, below an overview if there are more than a thousand.
pub(crate) fn push_body<A: Allocator + Copy>(
    text: &mut TextBuffer<A>,
    tags: &[usize],
    lines: &[&[u8]],
) -> Result<(), AllocError>
    requires { length tags.now ≤ 32 }
    ensures { OnOk result (text.new.bytes ≡ text.old.bytes ++ body_text tags.now (texts lines.now)) }
{
    if lines.len() <= 1000 {
        return push_rows(text, tags, lines);
    }
    push_long(text, tags, lines)
}
