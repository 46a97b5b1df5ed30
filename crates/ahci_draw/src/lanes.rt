//! The lanes of a row.

ghost use Rattle.std.specs.Prelude.{◌≡◌, ◌++◌, ◌≤◌, IfOk, OnOk, length, map, slice_index};
ghost use Rattle.std.specs.List.{list_any};
ghost use Rattle.ahci_draw.specs.Lanes.{cells_in, device_text, has_lane, is_told, lane_text, lanes_text, tags_in};
ghost use Rattle.ahci_draw.specs.Lines.{texts};

use crate::listing::{DEVICE, LANE, byte_at};
use crate::signs::push_signs;
use crate::strip::{Strip, push_runs};
use crate::text::{letter, push_number};
use std::alloc::{AllocError, Allocator};
use streams::TextBuffer;

/// Whether an entry is about a tag: the tag is not free after it, or it is the entry's own.
fn is_told(line: &[u8], tag: usize) -> bool
    ensures { result ≡ is_told line.now tag }
{
    byte_at(line, tag) != b'.' || byte_at(line, LANE) == letter(tag)
}

/// Whether some entry is about a tag.
fn some_tells(lines: &[&[u8]], tag: usize) -> bool
    ensures { result ≡ list_any (λ line. is_told line.now tag) lines.now }
{
    lines.iter().any(|line| is_told(line, tag))
}

/// Whether a tag has a lane: some entry is about it.
fn has_lane(lines: &[&[u8]], tag: usize) -> bool
    ensures { result ≡ has_lane (texts lines.now) tag }
{
    some_tells(lines, tag)
}

/// The tags that have a lane.
#[tactic(auto, unfolding(crate::specs::Lanes::tags_in))]
pub(crate) fn tags_in<A: Allocator>(alloc: A, lines: &[&[u8]]) -> Result<Vec<usize, A>, AllocError>
    ensures tags { IfOk result (λ tags. tags.items ≡ tags_in (texts lines.now)) }
    ensures most { IfOk result (λ tags. length tags.items ≤ 32) }
{
    (0..32usize)
        .filter(|tag| has_lane(lines, *tag))
        .collect(alloc)
}

/// The byte that each line has at a place.
fn bytes_at<A: Allocator>(alloc: A, lines: &[&[u8]], place: usize) -> Result<Vec<u8, A>, AllocError>
    ensures { IfOk result (λ cells. cells.items ≡ map (λ line. slice_index line.now place) lines.now) }
{
    lines.iter().map(|line| byte_at(line, place)).collect(alloc)
}

/// The letter that each column has at a place.
pub(crate) fn cells_in<A: Allocator>(
    alloc: A,
    lines: &[&[u8]],
    place: usize,
) -> Result<Vec<u8, A>, AllocError>
    ensures { IfOk result (λ cells. cells.items ≡ cells_in (texts lines.now) place) }
{
    bytes_at(alloc, lines, place)
}

/// Appends the lane of a tag, after so many others.
#[tactic(auto, unfolding(crate::specs::Lanes::lane_text))]
fn push_lane<A: Allocator + Copy>(
    text: &mut TextBuffer<A>,
    lines: &[&[u8]],
    lane: usize,
    tag: usize,
) -> Result<(), AllocError>
    ensures { OnOk result (text.new.bytes ≡ text.old.bytes ++ lane_text (texts lines.now) lane tag) }
{
    let cells = cells_in(text.alloc(), lines, tag)?;
    push_number(text, b"\n<text x='36' y='", 16 * (lane as u128) + 35)?;
    push_number(text, b"'>tag ", tag as u128)?;
    text.push(b"</text>")?;
    push_runs(text, Strip::Lane(lane), &cells)?;
    push_signs(text, letter(tag), 16 * (lane as u128) + 35, lines)
}

/// Appends the lanes of these tags.
#[tactic(auto, unfolding(crate::specs::Lanes::lanes_text))]
pub(crate) fn push_lanes<A: Allocator + Copy>(
    text: &mut TextBuffer<A>,
    tags: &[usize],
    lines: &[&[u8]],
) -> Result<(), AllocError>
    ensures { OnOk result (text.new.bytes ≡ text.old.bytes ++ lanes_text tags.now (texts lines.now)) }
{
    for lane in 0..tags.len() {
        push_lane(text, lines, lane, tags[lane])?;
    }
    Ok(())
}

/// Appends the row of the device, below so many lanes.
#[tactic(auto, unfolding(crate::specs::Lanes::device_text))]
pub(crate) fn push_device<A: Allocator + Copy>(
    text: &mut TextBuffer<A>,
    lanes: usize,
    lines: &[&[u8]],
) -> Result<(), AllocError>
    ensures { OnOk result (text.new.bytes ≡ text.old.bytes ++ device_text lanes (texts lines.now)) }
{
    let cells = cells_in(text.alloc(), lines, DEVICE)?;
    push_number(
        text,
        b"\n<g fill='#579'><text x='36' y='",
        19 * (lanes as u128) + 30,
    )?;
    text.push(b"'>in device</text>")?;
    push_runs(text, Strip::Device(lanes), &cells)?;
    text.push(b"</g>")
}
