//! The lines of a listing, and what a line has.

ghost use Rattle.std.specs.Prelude.{◌≡◌, ◌<◌, ◌==◌, IfOk, IfSome, length, position, slice_index};
ghost use Rattle.ahci_draw.specs.Lines.{is_asked, label_of, lines_from, texts, title_of};

use ahci_script::decimal;
use std::alloc::{AllocError, Allocator};

/// The places in a line after the letters of the 32 tags.
pub(crate) const DEVICE: usize = 32;

pub(crate) const SIGN: usize = 33;

pub(crate) const LANE: usize = 34;

const TITLE: usize = 35;

/// The byte at a place of a line; 0 after its end.
pub(crate) fn byte_at(line: &[u8], place: usize) -> u8
    ensures { result ≡ slice_index line.now place }
{
    match line.get(place) {
        Some(byte) => *byte,
        None => 0,
    }
}

/// The entry in words, after its number.
pub(crate) fn title_of(line: &[u8]) -> &[u8]
    ensures { result.now ≡ title_of line.now }
{
    if line.len() < TITLE {
        return &[];
    }
    &line[TITLE..]
}

/// The place of the first colon.
fn colon_in(title: &[u8]) -> Option<usize>
    ensures place { result ≡ position (λ byte. byte == 58) title.now }
    ensures within { IfSome result (λ end. end < length title.now) }
{
    title.iter().position(|byte| *byte == b':')
}

/// The entry's number, which is before the first colon.
pub(crate) fn label_of(title: &[u8]) -> &[u8]
    ensures { result.now ≡ label_of title.now }
{
    match colon_in(title) {
        Some(end) => &title[..end],
        None => title,
    }
}

/// Whether a line is that of an entry whose number is one from `from` to `to`.
fn is_asked(line: &[u8], from: u64, to: u64) -> bool
    ensures { result ≡ is_asked from to line.now }
{
    match decimal(label_of(title_of(line))) {
        Ok(number) => from <= number && number <= to,
        Err(_) => false,
    }
}

/// The lines of the entries from one number to another, both of them too.
pub(crate) fn lines_from<A: Allocator>(
    alloc: A,
    from: u64,
    to: u64,
    listing: &[u8],
) -> Result<Vec<&[u8], A>, AllocError>
    ensures { IfOk result (λ lines. texts lines.items ≡ lines_from from to listing.now) }
{
    listing
        .split(|byte| *byte == b'\n')
        .filter(|line| is_asked(line, from, to))
        .collect(alloc)
}
