//! Windows that are built, and texts that are taken, where memory is refused.
use crate::tests::commands::Command::{Read, UrgentRead, Write};
use crate::tests::commands::{Command, op_of, window_of};
use crate::tests::heap::{Heap, Row, Tried, grant_all, growths_of, refuse_from, tries_each};
use ahci_table::{BuildFault, Piece, Window};
use std::process::Abort;
use std::test::Fail;

/// A window of tag 0 for a command of one sector, whose data are in these pieces.
type Asked = (Command, &'static [Piece]);

const LOW: Piece = Piece {
    at: 0x1000,
    len: 0x100,
};

const HIGH: Piece = Piece {
    at: 0x1200,
    len: 0x100,
};

const RISING: &[Piece] = &[LOW, HIGH];

const FALLING: &[Piece] = &[HIGH, LOW];

/// How many bytes a window has.
type Said = Result<usize, BuildFault>;

const WANTS: Said = Err(BuildFault::OutOfMemory);

// The bytes are asked for at once: up to the end of the piece that reaches furthest.
static WINDOWS: [Row<Asked, Said>; 4] = [
    Row((Read(0), RISING), &[WANTS], Ok(0x1300), 0x1300),
    Row((Read(0), FALLING), &[WANTS], Ok(0x1300), 0x1300),
    Row((Write(0, 0x77), RISING), &[WANTS], Ok(0x1300), 0x1300),
    Row((Write(0, 0x77), FALLING), &[WANTS], Ok(0x1300), 0x1300),
];

fn builds(heap: &Heap, (command, pieces): Asked, growth: usize) -> Result<Tried<Said>, Fail> {
    let op = op_of(heap, command)?;
    refuse_from(heap, growth);
    let said = match Window::build(heap, 0, &op, pieces) {
        Ok(window) => Ok(window.bytes().len()),
        Err(fault) => Err(fault),
    };
    let mut tried = Tried::of(said, growths_of(heap), heap.bytes());
    grant_all(heap);
    if said.is_err() {
        tried.again = Some(Ok(Window::build(heap, 0, &op, pieces)?.bytes().len()));
    }
    Ok(tried)
}

#[test]
fn a_window_is_built_in_one_growth(rt: HostRuntime) -> Result<(), Fail> {
    tries_each(&rt, rt.alloc(), &WINDOWS, builds)
}

/// How many bytes of this one a window's text has, where they are all alike.
fn text_of(rt: &impl Abort, heap: &Heap, window: &Window<&Heap>, byte: u8) -> Option<usize> {
    let Ok(_command) = window.check() else {
        panic!(rt; "the window is not fit");
    };
    let text = window.text(heap).ok()?;
    if text.iter().all(|b| *b == byte) {
        Some(text.len())
    } else {
        None
    }
}

/// The commands whose windows' texts are taken, with their byte.
static TEXTS: [Row<(Command, u8), Option<usize>>; 2] = [
    Row((Write(3, 0x77), 0x77), &[None], Some(512), 512),
    Row((UrgentRead(3), 0), &[None], Some(512), 512),
];

fn takes_text(
    rt: &impl Abort,
    heap: &Heap,
    (command, byte): (Command, u8),
    growth: usize,
) -> Result<Tried<Option<usize>>, Fail> {
    let window = window_of(heap, command)?;
    refuse_from(heap, growth);
    let said = text_of(rt, heap, &window, byte);
    let mut tried = Tried::of(said, growths_of(heap), heap.bytes());
    grant_all(heap);
    if said.is_none() {
        tried.again = Some(text_of(rt, heap, &window, byte));
    }
    Ok(tried)
}

#[test]
fn a_text_is_taken_in_one_growth(rt: HostRuntime) -> Result<(), Fail> {
    tries_each(&rt, rt.alloc(), &TEXTS, |heap, call, growth| {
        takes_text(&rt, heap, call, growth)
    })
}
