//! Strips of a row: a lane, in which each run of one letter is a bar in its colour, and the row of the device, in which each run of
//! one count is a bar as high.

ghost use Rattle.std.specs.Prelude.{◌≡◌, ◌++◌, ◌<◌, ◌==◌, OnOk, length};
ghost use Rattle.std.specs.List.{take_while};
ghost use Rattle.ahci_draw.specs.Strip.{bar_shape, begins, colour_of, count_foot, level_shape, run_at, run_length, run_text, runs_text};

use crate::text::{Piece, push_pieces};
use std::alloc::{AllocError, Allocator};
use streams::TextBuffer;

/// Which strip of a row.
#[derive(Clone, Copy, Debug)]
pub(crate) enum Strip {
    /// The lane after so many others.
    Lane(usize),
    /// The row of the device, after so many lanes.
    Device(usize),
}

/// The colour of a letter: light for a read, dark for a write.
fn colour_of(cell: u8) -> &'static [u8]
    ensures { result.now ≡ colour_of cell }
{
    match cell {
        b'i' => b"fe8",
        b'I' => b"ea1",
        b'a' => b"bdf",
        b'A' => b"49f",
        b'f' => b"fbb",
        b'F' => b"e55",
        b'h' => b"ddd",
        b'H' => b"aaa",
        b'd' => b"bea",
        _ => b"5b6",
    }
}

/// Whether a run begins at a place: another letter comes before it, or none.
fn begins(cells: &[u8], place: usize) -> bool
    requires { place < length cells.now }
    ensures { result ≡ begins cells.now place }
{
    place == 0 || cells[place - 1] != cells[place]
}

/// How many letters at the front are this one.
fn front_length(cells: &[u8], first: u8) -> usize
    ensures { result ≡ length (take_while (λ cell. cell == first) cells.now) }
{
    cells.iter().take_while(|cell| **cell == first).count()
}

/// How long the run is that begins at a place.
fn run_length(cells: &[u8], place: usize) -> usize
    requires { place < length cells.now }
    ensures { result ≡ run_length cells.now place }
{
    front_length(&cells[place..], cells[place])
}

/// Appends the bar of so many columns from one on.
#[tactic(auto, unfolding(crate::specs::Strip::bar_shape))]
fn push_bar<A: Allocator>(
    text: &mut TextBuffer<A>,
    lane: usize,
    colour: &[u8],
    start: usize,
    count: usize,
) -> Result<(), AllocError>
    ensures { OnOk result (text.new.bytes ≡ text.old.bytes ++ bar_shape lane colour.now start count) }
{
    push_pieces(
        text,
        &[
            Piece::Word(b"<path stroke='#"),
            Piece::Word(colour),
            Piece::Numbered(b"' d='M", 12 * (start as u128) + 72),
            Piece::Numbered(b" ", 16 * (lane as u128) + 32),
            Piece::Numbered(b"h", 12 * (count as u128)),
            Piece::Word(b"'/>"),
        ],
    )
}

/// The foot of a count below its bar: in every second column a count of two digits is a line lower.
fn count_foot(tags: u8, start: usize) -> u128
    ensures { result ≡ count_foot tags start }
{
    if tags >= 10 && start % 2 == 1 { 49 } else { 40 }
}

/// Appends a bar as high as so many tags of the device, and their number below its first column.
#[tactic(auto, unfolding(crate::specs::Strip::level_shape))]
fn push_level<A: Allocator>(
    text: &mut TextBuffer<A>,
    lanes: usize,
    tags: u8,
    start: usize,
    count: usize,
) -> Result<(), AllocError>
    ensures { OnOk result (text.new.bytes ≡ text.old.bytes ++ level_shape lanes tags start count) }
{
    push_pieces(
        text,
        &[
            Piece::Numbered(b"<path d='M", 12 * (start as u128) + 72),
            Piece::Numbered(b" ", 19 * (lanes as u128) + 30),
            Piece::Numbered(b"v-", 3 * (tags as u128)),
            Piece::Numbered(b"h", 12 * (count as u128)),
            Piece::Numbered(b"v", 3 * (tags as u128)),
            Piece::Numbered(b"z'/><text x='", 12 * (start as u128) + 78),
            Piece::Numbered(b"' y='", 19 * (lanes as u128) + count_foot(tags, start)),
            Piece::Numbered(b"'>", tags as u128),
            Piece::Word(b"</text>"),
        ],
    )
}

/// Appends what is drawn of a run of a letter, which has so many columns from one on.
fn push_run<A: Allocator>(
    text: &mut TextBuffer<A>,
    strip: Strip,
    cell: u8,
    start: usize,
    count: usize,
) -> Result<(), AllocError>
    ensures { OnOk result (text.new.bytes ≡ text.old.bytes ++ run_text strip cell start count) }
{
    match strip {
        Strip::Lane(_) if cell == b'.' => Ok(()),
        Strip::Lane(lane) => push_bar(text, lane, colour_of(cell), start, count),
        Strip::Device(_) if cell <= b'A' => Ok(()),
        Strip::Device(lanes) => push_level(text, lanes, cell - b'A', start, count),
    }
}

/// Appends the run that begins at a place; nothing where none does.
fn push_run_at<A: Allocator>(
    text: &mut TextBuffer<A>,
    strip: Strip,
    cells: &[u8],
    place: usize,
) -> Result<(), AllocError>
    requires { place < length cells.now }
    ensures { OnOk result (text.new.bytes ≡ text.old.bytes ++ run_at strip cells.now place) }
{
    if begins(cells, place) {
        return push_run(text, strip, cells[place], place, run_length(cells, place));
    }
    Ok(())
}

/// Appends all runs of a strip, in which each column has a letter.
#[tactic(auto, unfolding(crate::specs::Strip::runs_text))]
pub(crate) fn push_runs<A: Allocator>(
    text: &mut TextBuffer<A>,
    strip: Strip,
    cells: &[u8],
) -> Result<(), AllocError>
    ensures { OnOk result (text.new.bytes ≡ text.old.bytes ++ runs_text strip cells.now) }
{
    for place in 0..cells.len() {
        push_run_at(text, strip, cells, place)?;
    }
    Ok(())
}
