//! The lines between lanes and between tens of columns.

ghost use Rattle.std.specs.Prelude.{◌≡◌, ◌+◌, ◌/◌, ◌≤◌, ◌++◌, OnOk, flat_map};
ghost use Rattle.std.specs.List.{range_with_len};
ghost use Rattle.ahci_draw.specs.Grid.{across, down, grid_text};

use crate::text::push_number;
use std::alloc::{AllocError, Allocator};
use streams::TextBuffer;

/// Appends the line above each lane, as wide as so many columns, and the one below the last.
fn push_across<A: Allocator>(
    text: &mut TextBuffer<A>,
    lanes: usize,
    columns: usize,
) -> Result<(), AllocError>
    requires { lanes ≤ 32 }
    ensures { OnOk result (text.new.bytes ≡ text.old.bytes ++ flat_map (across columns) (range_with_len 0 (lanes + 1))) }
{
    for lane in 0..lanes + 1 {
        push_number(text, b"M72 ", 16 * (lane as u128) + 24)?;
        push_number(text, b"h", 12 * (columns as u128))?;
    }
    Ok(())
}

/// Appends the line left of each ten of columns, as high as so many lanes.
fn push_down<A: Allocator>(
    text: &mut TextBuffer<A>,
    lanes: usize,
    columns: usize,
) -> Result<(), AllocError>
    ensures { OnOk result (text.new.bytes ≡ text.old.bytes ++ flat_map (down lanes) (range_with_len 0 (columns / 10 + 1))) }
{
    for ten in 0..columns / 10 + 1 {
        push_number(text, b"M", 120 * (ten as u128) + 72)?;
        push_number(text, b" 24v", 16 * (lanes as u128))?;
    }
    Ok(())
}

/// Appends the lines of a row of so many lanes and columns.
#[tactic(auto, unfolding(crate::specs::Grid::grid_text))]
pub(crate) fn push_grid<A: Allocator>(
    text: &mut TextBuffer<A>,
    lanes: usize,
    columns: usize,
) -> Result<(), AllocError>
    requires { lanes ≤ 32 }
    ensures { OnOk result (text.new.bytes ≡ text.old.bytes ++ grid_text lanes columns) }
{
    text.push(b"<path stroke='#ddd' stroke-width='1' d='")?;
    push_across(text, lanes, columns)?;
    push_down(text, lanes, columns)?;
    text.push(b"'/>")
}
