//! Windows of any bytes.

use super::{Asked, built};
use crate::table::equal;
use ahci_table::{TableFault, Window};
use std::alloc::{AllocError, Global};
use std::process::Abort;
use std::test::Fail;

/// Bytes at their places.
type Changes = &'static [(usize, u8)];

/// Changes of the header and of the window, the window's length, and why `check` refuses it, if it does.
type Change = (Changes, Changes, usize, Option<TableFault>);

/// Writes these bytes at their places, where they have one.
fn put(bytes: &mut [u8], changes: &[(usize, u8)]) {
    for (place, value) in changes {
        if let Some(byte) = bytes.get_mut(*place) {
            *byte = *value;
        }
    }
}

/// The bytes of a window that is fit, where they are not 0: a read of one sector to one piece after a table of one
/// entry.
static FIT_HEADER: [(usize, u8); 3] = [(0, 0x05), (2, 0x01), (11, 0x10)];

static FIT: [(usize, u8); 9] = [
    (0, 0x27),
    (1, 0x80),
    (2, 0x60),
    (3, 0x01),
    (7, 0x40),
    (0x80, 0x90),
    (0x83, 0x10),
    (0x8C, 0xFF),
    (0x8D, 0x01),
];

/// That window, of tag 0, once some bytes of header and window are changed.
fn changed(
    alloc: Global,
    header_changes: Changes,
    changes: Changes,
    len: usize,
) -> Result<Window, AllocError> {
    let mut header = [0; 32];
    put(&mut header, &FIT_HEADER);
    put(&mut header, header_changes);
    let mut bytes = vec![in alloc; 0u8; len]?;
    put(bytes.as_mut_slice(), &FIT);
    put(bytes.as_mut_slice(), changes);
    Ok(Window::from_parts(0, header, bytes))
}

/// Compares what `check` says to each row.
fn faults(rt: &impl Abort, alloc: Global, rows: &[Change]) -> Result<(), Fail> {
    for (row, (header_changes, changes, len, fault)) in rows.iter().enumerate() {
        let window = changed(alloc, header_changes, changes, *len)?;
        equal(rt, row, &window.check().err(), fault);
    }
    Ok(())
}

static HEADERS: [Change; 11] = [
    (&[], &[], 656, None),
    (&[(0, 0x04)], &[], 656, Some(TableFault::BadHeader)),
    (&[(0, 0x25)], &[], 656, Some(TableFault::BadHeader)),
    (&[(0, 0x45)], &[], 656, Some(TableFault::BadCommand)),
    (&[(0, 0x85)], &[], 656, None),
    (&[(2, 0x00)], &[], 656, Some(TableFault::BadHeader)),
    (&[(2, 0x21)], &[], 656, Some(TableFault::BadHeader)),
    (&[(2, 0x02)], &[], 656, Some(TableFault::BadList)),
    (&[(8, 0x7F)], &[], 656, None),
    (&[(8, 0x80)], &[], 656, Some(TableFault::BadHeader)),
    (&[(12, 0x01)], &[], 656, Some(TableFault::BadHeader)),
];

#[test]
fn a_window_with_one_header_byte_changed(rt: HostRuntime) -> Result<(), Fail> {
    faults(&rt, rt.alloc(), HEADERS.as_slice())
}

static LENGTHS: [Change; 3] = [
    (&[], &[], 143, Some(TableFault::BadHeader)),
    (&[], &[], 144, Some(TableFault::BadList)),
    (&[], &[], 655, Some(TableFault::BadList)),
];

#[test]
fn a_window_that_ends_too_early(rt: HostRuntime) -> Result<(), Fail> {
    faults(&rt, rt.alloc(), LENGTHS.as_slice())
}

static BYTES: [Change; 17] = [
    (&[], &[(0x01, 0x00)], 656, Some(TableFault::BadCommand)),
    (&[], &[(0x01, 0x8F)], 656, None),
    (&[], &[(0x02, 0xEC)], 656, Some(TableFault::BadCommand)),
    (&[], &[(0x07, 0x00)], 656, Some(TableFault::BadCommand)),
    (&[], &[(0x0C, 0x07)], 656, None),
    (&[], &[(0x0C, 0xF8)], 656, Some(TableFault::WrongTag)),
    (&[], &[(0x0E, 0xFF)], 656, None),
    (&[], &[(0x0F, 0xFF)], 656, None),
    (&[], &[(0x03, 0x02)], 656, Some(TableFault::BadList)),
    (&[], &[(0x0B, 0x01)], 656, Some(TableFault::BadList)),
    (&[], &[(0x80, 0x91)], 656, Some(TableFault::BadList)),
    (&[], &[(0x84, 0x01)], 656, Some(TableFault::BadList)),
    (&[], &[(0x8C, 0xFE)], 656, Some(TableFault::BadList)),
    (&[], &[(0x8D, 0x03)], 656, Some(TableFault::BadList)),
    (&[], &[(0x8E, 0x40)], 656, None),
    (&[], &[(0x8F, 0x80)], 656, None),
    (
        &[],
        &[(0x0B, 0x01), (0x0C, 0x08)],
        656,
        Some(TableFault::WrongTag),
    ),
];

#[test]
fn a_window_with_one_byte_changed(rt: HostRuntime) -> Result<(), Fail> {
    faults(&rt, rt.alloc(), BYTES.as_slice())
}

/// Why `check` refuses a window, or else the FUA bit and the number of sectors that it finds.
fn seen(window: &Window) -> Result<(bool, u32), TableFault> {
    match window.check() {
        Ok(command) => Ok((command.queued.fua, command.queued.sectors)),
        Err(fault) => Err(fault),
    }
}

/// A window built for a read of eight sectors by tag 5, with one byte changed.
fn eight_sectors(alloc: Global, change: (usize, u8)) -> Result<Window, Fail> {
    let window = built(alloc, 5, Asked::Read(0x12_3456_789A, 8), &[(0x1000, 4096)])?;
    let mut bytes = Vec::from_slice(alloc, window.bytes())?;
    put(bytes.as_mut_slice(), &[change]);
    Ok(Window::from_parts(5, *window.header(), bytes))
}

#[test]
fn a_built_window_with_one_byte_changed(rt: HostRuntime) -> Result<(), Fail> {
    for (change, wanted) in [
        ((3, 0x00), Err(TableFault::BadList)),
        ((2, 0x61), Err(TableFault::BadCommand)),
        ((12, 0x30), Err(TableFault::WrongTag)),
        ((7, 0xC0), Ok((true, 8))),
        ((7, 0x40), Ok((false, 8))),
    ] {
        let window = eight_sectors(rt.alloc(), change)?;
        equal(&rt, change.0, &seen(&window), &wanted);
    }
    Ok(())
}

static LONGEST: [Change; 2] = [
    (&[], &[], 67_108_864, None),
    (&[], &[], 67_108_865, Some(TableFault::BadHeader)),
];

#[test]
fn a_window_past_the_next_tag(rt: HostRuntime) -> Result<(), Fail> {
    faults(&rt, rt.alloc(), LONGEST.as_slice())
}
