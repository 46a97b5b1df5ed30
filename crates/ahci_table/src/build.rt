//! How a window is laid out: command header, command table, data.

ghost use Rattle.std.specs.Prelude.{◌≡◌, ◌<◌, ◌≤◌, ◌+◌, ◌-◌, ◌*◌, ℕ, false, true, ◌++◌, ◌^◌, length, [], None, IfOk, IfErr, IsErrAnd, MatchOption, replicate};
ghost use Rattle.std.specs.List.{All};
ghost use Rattle.sata_fis.specs.Command.{h2d_for};
ghost use Rattle.sata_fis.specs.Encoding.{h2d_bytes};
ghost use Rattle.ncq_journal.specs.{Lawful.{IsProper}, Work.{work_of, lba_of, sectors_of, is_ragged}};
ghost use Rattle.ahci_table.specs.Build.{IsBuilt, Carries, data_for, header_for, entry_for, table_for, queued_for};
ghost use Rattle.ahci_table.specs.Defaults.{list_of};
ghost use Rattle.ahci_table.specs.Fit.{IsFit};
ghost use Rattle.ahci_table.specs.Piece.{are_apart, end_of, furthest};
ghost use Rattle.ahci_table.specs.Prdt.{entry_place};
ghost use Rattle.ahci_table.specs.Refusal.{refusal};
ghost use Rattle.sata_fis.specs.Places.{byte};
ghost use Rattle.ahci_table.specs.Scatter.{in_some};
ghost use Rattle.ahci_table.specs.Text.{joined};
ghost use Rattle.ahci_table.specs.Window.{base, most_bytes};

use crate::check::base;
use crate::command::Command;
use crate::fault::BuildFault;
use crate::lay::{lay, rises};
use crate::list::furthest;
use crate::piece::Piece;
use crate::piece_layout::PieceLayout;
use crate::refusal::refusal;
use crate::runs;
use crate::window::Window;
use ncq_journal::Op;
use sata_fis::{Queued, h2d_bytes, h2d_of};
use std::alloc::{AllocError, Allocator};

/// The header of a command with so many pieces.
fn header_for<A: Allocator>(tag: u8, op: &Op<A>, pieces: u16) -> [u8; 32]
    requires { tag < 32 }
    ensures { result ≡ header_for tag (work_of op.now) pieces }
{
    let mut header = [0; 32];
    header[0] = if op.is_write() { 0x45 } else { 0x05 };
    header[2..4].copy_from_slice(&pieces.to_le_bytes());
    header[8..12].copy_from_slice(&base(tag).to_le_bytes());
    header
}

/// The queued command, with FUA or without.
fn queued_for<A: Allocator>(tag: u8, op: &Op<A>, fua: bool) -> Queued
    requires tag { tag < 32 }
    requires lba { lba_of (work_of op.now) < 2 ^ 48 }
    requires some { 1 ≤ sectors_of (work_of op.now) }
    requires most { sectors_of (work_of op.now) ≤ 65536 }
    ensures { result ≡ queued_for tag (work_of op.now) fua }
{
    Queued {
        write: op.is_write(),
        tag,
        lba: op.lba(),
        sectors: op.sectors() as u32,
        fua,
    }
}

/// The bytes of the command FIS.
fn command_fis<A: Allocator>(tag: u8, op: &Op<A>, fua: bool) -> [u8; 20]
    requires tag { tag < 32 }
    requires lba { lba_of (work_of op.now) < 2 ^ 48 }
    requires some { 1 ≤ sectors_of (work_of op.now) }
    requires most { sectors_of (work_of op.now) ≤ 65536 }
    ensures { result ≡ h2d_bytes (h2d_for (queued_for tag (work_of op.now) fua)) }
{
    h2d_bytes(&h2d_of(&queued_for(tag, op, fua)))
}

/// The PRDT entry of a piece.
fn entry_for(start: u32, piece: &Piece) -> [u8; 16]
    requires fits { start + piece.now.at < 2 ^ 32 }
    requires some { 0 < piece.now.len }
    ensures { result ≡ entry_for start piece.now }
{
    let [a0, a1, a2, a3] = (start + piece.at).to_le_bytes();
    let [c0, c1, c2, c3] = (piece.len - 1).to_le_bytes();
    [a0, a1, a2, a3, 0, 0, 0, 0, 0, 0, 0, 0, c0, c1, c2, c3]
}

impl<A: Allocator> Window<A> {
    /// The window of a command without FUA whose data are in these pieces: header and command table with all reserved bits 0, a
    /// write's bytes in the pieces, and zeros elsewhere. It ends where the piece that reaches furthest ends.
    ///
    /// # Errors
    /// The first of the cases of `BuildFault` that holds, `OutOfMemory` only where a growth was refused.
    pub fn build<B: Allocator>(
        alloc: A,
        tag: u8,
        op: &Op<B>,
        pieces: &[Piece],
    ) -> Result<Self, BuildFault>
        requires { tag < 32 }
        ensures bytes { IfOk result (λ w. IsBuilt tag (work_of op.now) false pieces.now w) }
        ensures carries { IfOk result (λ w. Carries tag (work_of op.now) false pieces.now w) }
        ensures fit { IfOk result (λ w. IsFit w) }
        ensures fault { MatchOption (refusal (work_of op.now) pieces.now) (IfErr result (λ e. e ≡ BuildFault.OutOfMemory)) (λ f. IsErrAnd result (λ e. e ≡ f)) }
    {
        if let Some(fault) = refusal(op, pieces) {
            return Err(fault);
        }
        match Self::written(alloc, tag, op, false, pieces) {
            Ok(window) => Ok(window),
            Err(refused) => Err(refused.into()),
        }
    }

    /// The window of a command that names no pieces, with FUA or without, and the command as `check` answers it.
    pub fn over_layout<B: Allocator>(
        alloc: A,
        tag: u8,
        op: &Op<B>,
        fua: bool,
        layout: PieceLayout,
    ) -> Result<(Self, Command), AllocError>
        requires tag { tag < 32 }
        requires proper { IsProper (work_of op.now) }
        ensures bytes { IfOk result (λ made. IsBuilt tag (work_of op.now) fua (list_of layout (sectors_of (work_of op.now))) made.0) }
        ensures carries { IfOk result (λ made. Carries tag (work_of op.now) fua (list_of layout (sectors_of (work_of op.now))) made.0) }
        ensures fit { IfOk result (λ made. IsFit made.0) }
        ensures queued { IfOk result (λ made. made.1.queued ≡ queued_for tag (work_of op.now) fua) }
        ensures pieces { IfOk result (λ made. made.1.pieces.items ≡ list_of layout (sectors_of (work_of op.now))) }
    {
        let pieces = layout.pieces(op.sectors() as u32);
        let window = Self::written(alloc, tag, op, fua, &pieces)?;
        let queued = queued_for(tag, op, fua);
        Ok((window, Command { queued, pieces }))
    }

    /// The window of a command that isn't refused.
    fn written<B: Allocator>(
        alloc: A,
        tag: u8,
        op: &Op<B>,
        fua: bool,
        pieces: &[Piece],
    ) -> Result<Self, AllocError>
        requires tag { tag < 32 }
        requires free { refusal (work_of op.now) pieces.now ≡ None }
        ensures bytes { IfOk result (λ w. IsBuilt tag (work_of op.now) fua pieces.now w) }
    {
        let end = furthest(pieces) as usize;
        let table = table_for(Vec::with_capacity(alloc, end)?, tag, op, fua, pieces)?;
        Ok(Window {
            tag,
            header: header_for(tag, op, pieces.len() as u16),
            bytes: with_data(table, op, pieces)?,
        })
    }
}

/// CFIS and what follows it up to the PRDT: the command FIS, and zeros.
fn table_head<A: Allocator>(mut bytes: Vec<u8, A>, fis: &[u8]) -> Result<Vec<u8, A>, AllocError>
    requires empty { bytes.items ≡ [] }
    requires len { length fis.now ≡ 20 }
    ensures { IfOk result (λ v. v.items ≡ fis.now ++ replicate 108 0) }
{
    bytes.extend_from_slice(fis)?;
    bytes.resize(0x80, 0)?;
    Ok(bytes)
}

/// Writes the command table into an empty `Vec`.
fn table_for<A: Allocator, B: Allocator>(
    bytes: Vec<u8, A>,
    tag: u8,
    op: &Op<B>,
    fua: bool,
    pieces: &[Piece],
) -> Result<Vec<u8, A>, AllocError>
    requires empty { bytes.items ≡ [] }
    requires tag { tag < 32 }
    requires lba { lba_of (work_of op.now) < 2 ^ 48 }
    requires some { 1 ≤ sectors_of (work_of op.now) }
    requires most { sectors_of (work_of op.now) ≤ 65536 }
    requires inside { All (λ p. end_of p ≤ most_bytes) pieces.now }
    requires full { All (λ p. 0 < p.len) pieces.now }
    ensures { IfOk result (λ v. v.items ≡ table_for tag (work_of op.now) fua pieces.now) }
{
    let mut table = table_head(bytes, &command_fis(tag, op, fua))?;
    let start = base(tag);
    for piece in pieces {
        table.extend_from_slice(&entry_for(start, piece))?;
    }
    Ok(table)
}

/// Puts a command's data after its table: a write's bytes into its pieces, and zeros elsewhere.
fn with_data<A: Allocator, B: Allocator>(
    table: Vec<u8, A>,
    op: &Op<B>,
    pieces: &[Piece],
) -> Result<Vec<u8, A>, AllocError>
    requires free { refusal (work_of op.now) pieces.now ≡ None }
    requires table { length table.items ≡ entry_place (length pieces.now) }
    ensures len { IfOk result (λ v. length v.items ≡ furthest pieces.now) }
    ensures text { IfOk result (λ v. joined pieces.now v.items ≡ data_for (work_of op.now)) }
    ensures others { IfOk result (λ v. (x : ℕ) → in_some x pieces.now ≡ false → byte x v.items ≡ byte x table.items) }
{
    match op {
        Op::Write { bytes: text, .. } if rises(table.len() as u64, pieces) => {
            lay(table, pieces, text.as_slice())
        }
        _ => written_over_zeros(table, op, pieces),
    }
}

/// The same for pieces in any order: zeros first, and a write's bytes over them.
fn written_over_zeros<A: Allocator, B: Allocator>(
    table: Vec<u8, A>,
    op: &Op<B>,
    pieces: &[Piece],
) -> Result<Vec<u8, A>, AllocError>
    requires free { refusal (work_of op.now) pieces.now ≡ None }
    requires table { length table.items ≡ entry_place (length pieces.now) }
    ensures len { IfOk result (λ v. length v.items ≡ furthest pieces.now) }
    ensures text { IfOk result (λ v. joined pieces.now v.items ≡ data_for (work_of op.now)) }
    ensures others { IfOk result (λ v. (x : ℕ) → in_some x pieces.now ≡ false → byte x v.items ≡ byte x table.items) }
{
    let mut bytes = zeroed_to(table, furthest(pieces) as usize)?;
    fill(op, pieces, &mut bytes);
    Ok(bytes)
}

/// Appends zeros up to an end.
fn zeroed_to<A: Allocator>(mut bytes: Vec<u8, A>, end: usize) -> Result<Vec<u8, A>, AllocError>
    requires { length bytes.items ≤ end }
    ensures { IfOk result (λ v. v.items ≡ bytes.items ++ replicate (end - length bytes.items) 0) }
{
    bytes.resize(end, 0)?;
    Ok(bytes)
}

/// Copies a write's bytes into pieces that hold zeros.
fn fill<A: Allocator>(op: &Op<A>, pieces: &[Piece], bytes: &mut [u8])
    requires inside { All (λ p. end_of p ≤ length bytes.old) pieces.now }
    requires apart { are_apart pieces.now ≡ true }
    requires whole { is_ragged (work_of op.now) ≡ false }
    requires zero { joined pieces.now bytes.old ≡ replicate (512 * sectors_of (work_of op.now)) 0 }
    ensures len { length bytes.new ≡ length bytes.old }
    ensures text { joined pieces.now bytes.new ≡ data_for (work_of op.now) }
    ensures others { (x : ℕ) → in_some x pieces.now ≡ false → byte x bytes.new ≡ byte x bytes.old }
{
    if let Op::Write { bytes: text, .. } = op {
        runs::scatter(pieces, bytes, 0, text.as_slice());
    }
}
