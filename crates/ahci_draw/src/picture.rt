//! The picture that a listing gives.

ghost use Rattle.std.specs.Prelude.{◌≡◌, ◌≤◌, IfOk, length};
ghost use Rattle.ahci_draw.specs.Lines.{texts};
ghost use Rattle.ahci_draw.specs.Picture.{picture_of, picture_text, picture_with};

use crate::heading::push_heading;
use crate::lanes::tags_in;
use crate::listing::lines_from;
use crate::overview::push_body;
use std::alloc::{AllocError, Allocator};
use streams::TextBuffer;

/// The picture of these lines with lanes for these tags.
fn picture_with<A: Allocator + Copy>(
    alloc: A,
    tags: &[usize],
    lines: &[&[u8]],
) -> Result<Vec<u8, A>, AllocError>
    requires { length tags.now ≤ 32 }
    ensures { IfOk result (λ text. text.items ≡ picture_with tags.now (texts lines.now)) }
{
    let mut text = TextBuffer::new(alloc);
    push_heading(&mut text, lines.len(), tags.len())?;
    push_body(&mut text, tags, lines)?;
    text.push(b"\n</svg>")?;
    Ok(text.into_bytes())
}

/// The picture of these lines, each of which is an entry.
fn picture_of<A: Allocator + Copy>(alloc: A, lines: &[&[u8]]) -> Result<Vec<u8, A>, AllocError>
    ensures { IfOk result (λ text. text.items ≡ picture_of (texts lines.now)) }
{
    let tags = tags_in(alloc, lines)?;
    picture_with(alloc, &tags, lines)
}

/// The picture of a listing's entries from one number to another, without its last line feed.
pub(crate) fn picture_text<A: Allocator + Copy>(
    alloc: A,
    from: u64,
    to: u64,
    listing: &[u8],
) -> Result<Vec<u8, A>, AllocError>
    ensures { IfOk result (λ text. text.items ≡ picture_text from to listing.now) }
{
    picture_of(alloc, &lines_from(alloc, from, to, listing)?)
}
