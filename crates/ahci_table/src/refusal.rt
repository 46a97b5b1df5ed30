//! Why no window is built.

ghost use Rattle.std.specs.Prelude.{◌≡◌, ◌<◌, ◌≤◌, ◌^◌, ⊤, length, MatchOption};
ghost use Rattle.std.specs.List.{list_any};
ghost use Rattle.ncq_journal.specs.{Lawful.{IsProper}, Work.{sectors_of, work_of}};
ghost use Rattle.ahci_table.specs.Defaults.{default_list};
ghost use Rattle.ahci_table.specs.Refusal.{has_bad_count, is_odd, is_outside, list_refusal, refusal};

use crate::fault::BuildFault;
use crate::list::{are_apart, total};
use crate::piece::{Piece, end_of};
use crate::window::MAX_BYTES;
use ncq_journal::{LBA_LIMIT, MAX_COUNT, Op};
use std::alloc::Allocator;

/// Whether there are no sectors, too many, or not whole ones.
fn has_bad_count<A: Allocator>(op: &Op<A>) -> bool
    ensures { result ≡ has_bad_count (work_of op.now) }
{
    op.sectors() == 0 || op.sectors() > u64::from(MAX_COUNT) || op.is_ragged()
}

/// Whether a piece has an odd place, an odd length, no bytes, or more than an entry can count.
fn is_odd(piece: &Piece) -> bool
    ensures { result ≡ is_odd piece.now }
{
    piece.at % 2 != 0 || piece.len % 2 != 0 || piece.len == 0 || piece.len > 1 << 22
}

/// Whether a piece begins before the end of a table of so many entries, or ends past the longest window.
fn is_outside(entries: usize, piece: &Piece) -> bool
    requires { entries < 2 ^ 32 }
    ensures { result ≡ is_outside entries piece.now }
{
    u64::from(piece.at) < 0x80 + 16 * entries as u64 || end_of(piece) > MAX_BYTES
}

/// Whether some piece is odd.
fn has_odd(pieces: &[Piece]) -> bool
    ensures { result ≡ list_any is_odd pieces.now }
{
    pieces.iter().any(|piece| is_odd(piece))
}

/// Whether some piece is outside.
fn has_outside(pieces: &[Piece]) -> bool
    requires { length pieces.now ≤ 32 }
    ensures { result ≡ list_any (is_outside (length pieces.now)) pieces.now }
{
    let entries = pieces.len();
    pieces.iter().any(|piece| is_outside(entries, piece))
}

/// Why pieces don't serve for a command of so many bytes.
fn list_refusal(pieces: &[Piece], bytes: u64) -> Option<BuildFault>
    ensures { result ≡ list_refusal pieces.now bytes }
{
    if pieces.is_empty() {
        return Some(BuildFault::NoPieces);
    }
    if pieces.len() > 32 {
        return Some(BuildFault::TooManyPieces);
    }
    if has_odd(pieces) {
        return Some(BuildFault::OddPiece);
    }
    if has_outside(pieces) {
        return Some(BuildFault::PieceOutside);
    }
    if !are_apart(pieces) {
        return Some(BuildFault::PiecesOverlap);
    }
    if total(pieces) != bytes {
        return Some(BuildFault::WrongTotal);
    }
    None
}

/// Why no window is built for a command with these pieces, want of memory aside.
pub(crate) fn refusal<A: Allocator>(op: &Op<A>, pieces: &[Piece]) -> Option<BuildFault>
    ensures { result ≡ refusal (work_of op.now) pieces.now }
{
    if has_bad_count(op) {
        return Some(BuildFault::BadCount);
    }
    if op.lba() >= LBA_LIMIT {
        return Some(BuildFault::BadLba);
    }
    list_refusal(pieces, 512 * op.sectors())
}

/// Why no window over the default pieces is built for a command, memory aside: `BadCount` or `BadLba`, since the default
/// pieces serve every other command.
#[tactic(auto, using(crate::proofs::ProperLemmas::default_serves))]
pub fn default_fault<A: Allocator>(op: &Op<A>) -> Option<BuildFault>
    ensures fault { result ≡ refusal (work_of op.now) (default_list (sectors_of (work_of op.now))) }
    ensures proper { MatchOption result (IsProper (work_of op.now)) (λ fault. ⊤) }
{
    if has_bad_count(op) {
        return Some(BuildFault::BadCount);
    }
    if op.lba() >= LBA_LIMIT {
        return Some(BuildFault::BadLba);
    }
    None
}
