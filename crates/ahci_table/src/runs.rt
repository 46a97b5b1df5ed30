//! Moves between a text and the runs of bytes that it is joined of.

ghost use Rattle.std.specs.Prelude.{◌≡◌, ◌+◌, ◌≤◌, ℕ, true, false, length, take, drop, IfOk, IfSome};
ghost use Rattle.std.specs.Option.{option_copied};
ghost use Rattle.std.specs.List.{All};
ghost use Rattle.sata_fis.specs.Places.{byte};
ghost use Rattle.ahci_table.specs.Piece.{are_apart, end_of};
ghost use Rattle.ahci_table.specs.Scatter.{in_some};
ghost use Rattle.ahci_table.specs.Text.{joined, replaced};

use crate::list::are_one_run;
use crate::piece::Piece;
use std::alloc::{AllocError, Allocator};

/// Copies the bytes of the text from an offset on, as many as `out` has, run by run.
pub(crate) fn gather(pieces: &[Piece], bytes: &[u8], offset: usize, out: &mut [u8])
    requires inside { All (λ p. end_of p ≤ length bytes.now) pieces.now }
    requires within { offset + length out.old ≤ length (joined pieces.now bytes.now) }
    ensures { out.new ≡ take (length out.old) (drop offset (joined pieces.now bytes.now)) }
{
    let mut skip = offset;
    let mut done = 0;
    for piece in pieces {
        let lead = skip.min(piece.len as usize);
        let count = (piece.len as usize - lead).min(out.len() - done);
        let start = piece.at as usize + lead;
        out[done..done + count].copy_from_slice(&bytes[start..start + count]);
        skip -= lead;
        done += count;
    }
}

/// Copies these bytes over those of the text from an offset on, run by run.
pub(crate) fn scatter(pieces: &[Piece], bytes: &mut [u8], offset: usize, from: &[u8])
    requires inside { All (λ p. end_of p ≤ length bytes.old) pieces.now }
    requires apart { are_apart pieces.now ≡ true }
    requires within { offset + length from.now ≤ length (joined pieces.now bytes.old) }
    ensures len { length bytes.new ≡ length bytes.old }
    ensures text { joined pieces.now bytes.new ≡ replaced offset from.now (joined pieces.now bytes.old) }
    ensures others { (x : ℕ) → in_some x pieces.now ≡ false → byte x bytes.new ≡ byte x bytes.old }
{
    let mut skip = offset;
    let mut rest = from;
    for piece in pieces {
        let lead = skip.min(piece.len as usize);
        let count = (piece.len as usize - lead).min(rest.len());
        let start = piece.at as usize + lead;
        bytes[start..start + count].copy_from_slice(&rest[..count]);
        skip -= lead;
        rest = &rest[count..];
    }
}

/// So many bytes of the text from an offset on as they lie in memory, where the pieces lie one after the other.
#[tactic(auto, using(crate::proofs::RunLemmas::one_run_part))]
pub(crate) fn part<'a>(
    pieces: &[Piece],
    bytes: &'a [u8],
    offset: usize,
    len: usize,
) -> Option<&'a [u8]>
    requires inside { All (λ p. end_of p ≤ length bytes.now) pieces.now }
    requires within { offset + len ≤ length (joined pieces.now bytes.now) }
    ensures { IfSome (option_copied result) (λ part. part ≡ take len (drop offset (joined pieces.now bytes.now))) }
{
    let Some(first) = pieces.first() else {
        return None;
    };
    if !are_one_run(u64::from(first.at), pieces) {
        return None;
    }
    let start = first.at as usize + offset;
    Some(&bytes[start..start + len])
}

/// The text, in a `Vec` that takes its memory at once.
pub(crate) fn joined<A: Allocator>(
    alloc: A,
    pieces: &[Piece],
    bytes: &[u8],
    len: usize,
) -> Result<Vec<u8, A>, AllocError>
    requires inside { All (λ p. end_of p ≤ length bytes.now) pieces.now }
    ensures { IfOk result (λ v. v.items ≡ joined pieces.now bytes.now) }
{
    let mut text = Vec::with_capacity(alloc, len)?;
    for piece in pieces {
        let start = piece.at as usize;
        text.extend_from_slice(&bytes[start..start + piece.len as usize])?;
    }
    Ok(text)
}
