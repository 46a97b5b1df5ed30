//! Data moved in and out.

use super::{Asked, built};
use ahci_table::Window;
use std::alloc::{AllocError, Global};
use std::process::Abort;
use std::test::Fail;

/// The places whose bytes two windows have not in common, and the bytes that are there now.
fn differences(alloc: Global, before: &[u8], after: &[u8]) -> Result<Vec<(usize, u8)>, AllocError> {
    let mut places = Vec::new(alloc);
    for (place, (old, new)) in before.iter().zip(after).enumerate() {
        if old != new {
            places.push((place, *new))?;
        }
    }
    Ok(places)
}

/// Moves two bytes to place 1 of the text.
fn scatter(rt: &impl Abort, alloc: Global, window: &mut Window) -> Result<(), AllocError> {
    let Ok(_command) = window.check() else {
        panic!(rt; "the window is not fit");
    };
    let text = window.text(alloc)?;
    assert!(rt; text.len() >= 3);
    window.scatter(1, &[0xA1, 0xA2]);
    Ok(())
}

/// The two bytes at place 1 of the text.
fn gather(rt: &impl Abort, alloc: Global, window: &Window) -> Result<[u8; 2], AllocError> {
    let Ok(_command) = window.check() else {
        panic!(rt; "the window is not fit");
    };
    let text = window.text(alloc)?;
    assert!(rt; text.len() >= 3);
    let mut out = [0; 2];
    window.gather(1, &mut out);
    Ok(out)
}

#[test]
fn two_bytes_that_lie_in_two_pieces(rt: HostRuntime) -> Result<(), Fail> {
    let places = [(0xE00, 2), (0xC00, 510), (0x880, 512)];
    let mut window = built(rt.alloc(), 0, Asked::Write(1024), &places)?;
    let before = Vec::from_slice(rt.alloc(), window.bytes())?;
    scatter(&rt, rt.alloc(), &mut window)?;
    let found = differences(rt.alloc(), before.as_slice(), window.bytes())?;
    assert_eq!(rt; found.as_slice(), [(0xC00, 0xA2), (0xE01, 0xA1)].as_slice());
    assert_eq!(rt; gather(&rt, rt.alloc(), &window)?, [0xA1, 0xA2]);
    Ok(())
}
