//! A row of a hundred columns, and where it is.

ghost use Rattle.std.specs.Prelude.{◌≡◌, ◌++◌, ◌*◌, ◌<◌, ◌≤◌, OnOk, length};
ghost use Rattle.ahci_draw.specs.Lines.{texts};
ghost use Rattle.ahci_draw.specs.Row.{row_height, row_left, row_of, row_text, row_top, rows_in, rows_text, stacks_in};

use crate::grid::push_grid;
use crate::lanes::{push_device, push_lanes};
use crate::signs::push_heads;
use crate::text::push_number;
use std::alloc::{AllocError, Allocator};
use streams::TextBuffer;

/// How many rows so many columns have.
pub(crate) fn rows_in(columns: usize) -> usize
    ensures { result ≡ rows_in columns }
{
    ((columns as u128 + 99) / 100) as usize
}

/// How many stacks of rows so many columns have.
pub(crate) fn stacks_in(columns: usize) -> u128
    ensures { result ≡ stacks_in columns }
{
    (rows_in(columns) as u128 + 47) / 48
}

/// How high a row of so many lanes is.
pub(crate) fn row_height(lanes: usize) -> u128
    ensures { result ≡ row_height lanes }
{
    19 * (lanes as u128) + 56
}

/// Where a row begins, from the top.
pub(crate) fn row_top(lanes: usize, row: usize) -> u128
    requires { lanes ≤ 32 }
    ensures { result ≡ row_top lanes row }
{
    (19 * (lanes as u128) + 56) * (row as u128 % 48) + 96
}

/// Where it begins, from the left.
pub(crate) fn row_left(row: usize) -> u128
    ensures { result ≡ row_left row }
{
    1280 * (row as u128 / 48)
}

/// The lines of a row.
fn row_of<'a, 'b>(lines: &'b [&'a [u8]], row: usize) -> &'b [&'a [u8]]
    requires { 100 * row < length lines.now }
    ensures { texts result.now ≡ row_of (texts lines.now) row }
{
    let rest = &lines[100 * row..];
    if rest.len() < 100 {
        return rest;
    }
    &rest[..100]
}

/// Appends a row with a lane for each of these tags.
#[tactic(auto, unfolding(crate::specs::Row::row_text))]
fn push_row<A: Allocator + Copy>(
    text: &mut TextBuffer<A>,
    tags: &[usize],
    lines: &[&[u8]],
    row: usize,
) -> Result<(), AllocError>
    requires { length tags.now ≤ 32 }
    ensures { OnOk result (text.new.bytes ≡ text.old.bytes ++ row_text tags.now (texts lines.now) row) }
{
    push_number(text, b"\n<g transform='translate(", row_left(row))?;
    push_number(text, b" ", row_top(tags.len(), row))?;
    text.push(b")'>")?;
    push_grid(text, tags.len(), lines.len())?;
    push_heads(text, tags.len(), lines)?;
    push_lanes(text, tags, lines)?;
    push_device(text, tags.len(), lines)?;
    text.push(b"</g>")
}

/// Appends all rows.
#[tactic(auto, unfolding(crate::specs::Row::rows_text))]
pub(crate) fn push_rows<A: Allocator + Copy>(
    text: &mut TextBuffer<A>,
    tags: &[usize],
    lines: &[&[u8]],
) -> Result<(), AllocError>
    requires { length tags.now ≤ 32 }
    ensures { OnOk result (text.new.bytes ≡ text.old.bytes ++ rows_text tags.now (texts lines.now)) }
{
    for row in 0..rows_in(lines.len()) {
        push_row(text, tags, row_of(lines, row), row)?;
    }
    Ok(())
}
