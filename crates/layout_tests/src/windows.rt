//! Windows: what is built, checked and moved.
mod build;
mod hostile;
mod lists;
mod scatter;

use crate::table::equal;
use ahci_table::{BuildFault, Piece, Window};
use ncq_journal::{Bytes, Op};
use std::alloc::{AllocError, Global};
use std::process::Abort;
use std::test::Fail;

/// A piece's place and its length.
type Place = (u32, u32);

/// What a window is asked to carry.
#[derive(Clone, Copy)]
enum Asked {
    /// A read from an LBA on, of so many sectors.
    Read(u64, u32),
    /// A write of so many bytes at LBA 0, each the low byte of its place plus one.
    Write(usize),
}

/// A list of pieces, and why no window is built over them, if none is.
type Refusal = (&'static [Place], Option<BuildFault>);

/// So many bytes, each the low byte of its place plus one.
fn rising(alloc: Global, len: usize) -> Result<Bytes, AllocError> {
    let mut bytes = vec![in alloc; 0u8; len]?;
    let mut next = 1u8;
    for byte in bytes.iter_mut() {
        *byte = next;
        next = next.wrapping_add(1);
    }
    Ok(Bytes::from_vec(bytes))
}

fn op_of(alloc: Global, asked: Asked) -> Result<Op, AllocError> {
    Ok(match asked {
        Asked::Read(lba, sectors) => Op::Read { lba, sectors },
        Asked::Write(len) => Op::Write {
            lba: 0,
            bytes: rising(alloc, len)?,
        },
    })
}

fn pieces_of(alloc: Global, places: &[Place]) -> Result<Vec<Piece>, AllocError> {
    let mut pieces = Vec::new(alloc);
    for (at, len) in places {
        pieces.push(Piece { at: *at, len: *len })?;
    }
    Ok(pieces)
}

/// A window that carries a command with its data in these pieces.
fn built(alloc: Global, tag: u8, asked: Asked, places: &[Place]) -> Result<Window, Fail> {
    let op = op_of(alloc, asked)?;
    let pieces = pieces_of(alloc, places)?;
    if tag >= 32 {
        return Err(Fail::new("no tag"));
    }
    Ok(Window::build(alloc, tag, &op, pieces.as_slice())?)
}

/// Why `build` refuses, for tag 0.
fn refused(
    alloc: Global,
    asked: Asked,
    places: &[Place],
) -> Result<Option<BuildFault>, AllocError> {
    let op = op_of(alloc, asked)?;
    let pieces = pieces_of(alloc, places)?;
    Ok(Window::build(alloc, 0, &op, pieces.as_slice()).err())
}

/// Compares what `build` says to a command with the pieces of each row.
fn refuses(
    rt: &impl Abort,
    alloc: Global,
    asked: Asked,
    rows: &[Refusal],
) -> Result<(), AllocError> {
    for (row, (places, fault)) in rows.iter().enumerate() {
        equal(rt, row, &refused(alloc, asked, places)?, fault);
    }
    Ok(())
}
