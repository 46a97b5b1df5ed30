//! The picture's frame, its key and its heading.

ghost use Rattle.std.specs.Prelude.{◌≡◌, ◌++◌, ◌≤◌, OnOk};
ghost use Rattle.ahci_draw.specs.Heading.{heading_text, height_of, width_of};

use crate::overview::overview_height;
use crate::row::{row_height, rows_in, stacks_in};
use crate::text::{Piece, push_pieces};
use std::alloc::{AllocError, Allocator};
use streams::TextBuffer;

/// The end of the frame's tag, and what colours and signs mean.
static KEY: &[u8] =
    b"' font-family='sans-serif' font-size='9' text-anchor='middle' stroke-width='13'>
<rect width='100%' height='100%' fill='#fff'/>
<g font-size='11' text-anchor='start'>
<path stroke='#fe8' d='M8 36h12'/><path stroke='#ea1' d='M22 36h12'/><text x='40' y='40'>issued</text>
<path stroke='#bdf' d='M96 36h12'/><path stroke='#49f' d='M110 36h12'/><text x='128' y='40'>accepted</text>
<path stroke='#fbb' d='M196 36h12'/><path stroke='#e55' d='M210 36h12'/><text x='228' y='40'>failed</text>
<path stroke='#ddd' d='M280 36h12'/><path stroke='#aaa' d='M294 36h12'/><text x='312' y='40'>held</text>
<path stroke='#bea' d='M356 36h12'/><path stroke='#5b6' d='M370 36h12'/><text x='388' y='40'>done</text>
<text x='436' y='40'>light: a read, dark: a write</text>
<text x='8' y='58'>R a read is issued, W a write, N issued again, A accepted, C completed, X failed, V recovered, E collected</text>
<text x='8' y='74'>above the lanes: I IDENTIFY DEVICE, F FLUSH CACHE EXT, L READ LOG EXT; below: tags outstanding in the device</text>
";

/// How wide the picture of so many columns is.
fn width_of(columns: usize) -> u128
    ensures { result ≡ width_of columns }
{
    let more = stacks_in(columns).saturating_sub(1);
    (12 * (columns.min(100) as u128) + 80 + 1280 * more).max(640)
}

/// How high the picture of so many columns and lanes is.
fn height_of(columns: usize, lanes: usize) -> u128
    requires { lanes ≤ 32 }
    ensures { result ≡ height_of columns lanes }
{
    row_height(lanes) * (rows_in(columns).min(48) as u128) + 96 + overview_height(columns)
}

/// Appends what comes before the rows, where there are so many columns and lanes.
pub(crate) fn push_heading<A: Allocator>(
    text: &mut TextBuffer<A>,
    columns: usize,
    lanes: usize,
) -> Result<(), AllocError>
    requires { lanes ≤ 32 }
    ensures { OnOk result (text.new.bytes ≡ text.old.bytes ++ heading_text columns lanes) }
{
    let width = width_of(columns);
    let height = height_of(columns, lanes);
    push_pieces(
        text,
        &[
            Piece::Numbered(b"<svg xmlns='http://www.w3.org/2000/svg' width='", width),
            Piece::Numbered(b"' height='", height),
            Piece::Numbered(b"' viewBox='0 0 ", width),
            Piece::Numbered(b" ", height),
            Piece::Word(KEY),
            Piece::Numbered(
                b"<text x='8' y='18' font-size='13'>entries: ",
                columns as u128,
            ),
            Piece::Numbered(b", tags: ", lanes as u128),
            Piece::Word(b"</text></g>"),
        ],
    )
}
