//! The bytes of two windows, and when none is built.

use super::{Asked, Place, Refusal, built, op_of, refused, refuses, rising};
use crate::table::{equal, equal_bytes};
use BuildFault::{
    BadCount, BadLba, NoPieces, OddPiece, PieceOutside, PiecesOverlap, TooManyPieces, WrongTotal,
};
use ahci_table::{BuildFault, PieceLayout, Window, default_fault, default_pieces};
use std::process::Abort;
use std::test::Fail;

/// Compares the header of a row's window, and its bytes at some places.
fn has(rt: &impl Abort, row: usize, window: &Window, header: &[u8], parts: &[(usize, &[u8])]) {
    equal_bytes(rt, (row, "header"), window.header(), header);
    for (place, wanted) in parts {
        let end = place.saturating_add(wanted.len());
        let part = window.bytes().get(*place..end).unwrap_or(&[]);
        equal_bytes(rt, (row, *place), part, wanted);
    }
}

/// A command by its tag, and the bytes of its command FIS.
struct Sent {
    tag: u8,
    asked: Asked,
    sectors: u32,
    fis: &'static [u8; 20],
}

/// What the window of a command has: header, command FIS, an entry at its place, and length.
struct Bytes {
    sent: Sent,
    header: &'static [u8; 32],
    entry: (usize, &'static [u8; 16]),
    len: usize,
}

/// A read of eight sectors.
const EIGHT: Sent = Sent {
    tag: 5,
    asked: Asked::Read(0x12_3456_789A, 8),
    sectors: 8,
    fis: b"\x27\x80\x60\x08\x9A\x78\x56\x40\x34\x12\x00\x00\x28\x00\x00\x00\x00\x00\x00\x00",
};

/// A write of the most that one command can have.
const LONGEST: Sent = Sent {
    tag: 0,
    asked: Asked::Write(65_536 * 512),
    sectors: 65_536,
    fis: b"\x27\x80\x61\x00\x00\x00\x00\x40\x00\x00\x00\x00\x00\x00\x00\x00\x00\x00\x00\x00",
};

/// A read of eight sectors, and a write of the most that one command can have, by 32 pieces of 1 MiB.
static OVER_DEFAULT_PIECES: [Bytes; 2] = [
    Bytes {
        sent: EIGHT,
        header: b"\x05\x00\x01\x00\x00\x00\x00\x00\x00\x00\x00\x24\x00\x00\x00\x00\x00\x00\x00\x00\x00\x00\x00\x00\x00\x00\x00\x00\x00\x00\x00\x00",
        entry: (
            0x80,
            b"\x00\x10\x00\x24\x00\x00\x00\x00\x00\x00\x00\x00\xFF\x0F\x00\x00",
        ),
        len: 8192,
    },
    Bytes {
        sent: LONGEST,
        header: b"\x45\x00\x20\x00\x00\x00\x00\x00\x00\x00\x00\x10\x00\x00\x00\x00\x00\x00\x00\x00\x00\x00\x00\x00\x00\x00\x00\x00\x00\x00\x00\x00",
        entry: (
            0x270,
            b"\x00\x10\xF0\x11\x00\x00\x00\x00\x00\x00\x00\x00\xFF\xFF\x0F\x00",
        ),
        len: 33_558_528,
    },
];

/// One sector; one more than a piece of 4 MiB has; eight sectors; and the most that one command can have, by eight pieces.
static PACKED: [Bytes; 4] = [
    Bytes {
        sent: Sent {
            tag: 31,
            asked: Asked::Read(0, 1),
            sectors: 1,
            fis: b"\x27\x80\x60\x01\x00\x00\x00\x40\x00\x00\x00\x00\xF8\x00\x00\x00\x00\x00\x00\x00",
        },
        header: b"\x05\x00\x01\x00\x00\x00\x00\x00\x00\x00\x00\x8C\x00\x00\x00\x00\x00\x00\x00\x00\x00\x00\x00\x00\x00\x00\x00\x00\x00\x00\x00\x00",
        entry: (
            0x80,
            b"\x90\x00\x00\x8C\x00\x00\x00\x00\x00\x00\x00\x00\xFF\x01\x00\x00",
        ),
        len: 656,
    },
    Bytes {
        sent: Sent {
            tag: 0,
            asked: Asked::Write(8_193 * 512),
            sectors: 8_193,
            fis: b"\x27\x80\x61\x01\x00\x00\x00\x40\x00\x00\x00\x20\x00\x00\x00\x00\x00\x00\x00\x00",
        },
        header: b"\x45\x00\x02\x00\x00\x00\x00\x00\x00\x00\x00\x10\x00\x00\x00\x00\x00\x00\x00\x00\x00\x00\x00\x00\x00\x00\x00\x00\x00\x00\x00\x00",
        entry: (
            0x90,
            b"\xA0\x00\x40\x10\x00\x00\x00\x00\x00\x00\x00\x00\xFF\x01\x00\x00",
        ),
        len: 4_194_976,
    },
    Bytes {
        sent: EIGHT,
        header: b"\x05\x00\x01\x00\x00\x00\x00\x00\x00\x00\x00\x24\x00\x00\x00\x00\x00\x00\x00\x00\x00\x00\x00\x00\x00\x00\x00\x00\x00\x00\x00\x00",
        entry: (
            0x80,
            b"\x90\x00\x00\x24\x00\x00\x00\x00\x00\x00\x00\x00\xFF\x0F\x00\x00",
        ),
        len: 4_240,
    },
    Bytes {
        sent: LONGEST,
        header: b"\x45\x00\x08\x00\x00\x00\x00\x00\x00\x00\x00\x10\x00\x00\x00\x00\x00\x00\x00\x00\x00\x00\x00\x00\x00\x00\x00\x00\x00\x00\x00\x00",
        entry: (
            0xF0,
            b"\x00\x01\xC0\x11\x00\x00\x00\x00\x00\x00\x00\x00\xFF\xFF\x3F\x00",
        ),
        len: 33_554_688,
    },
];

/// Compares a window with what a row says of it.
fn is_as(rt: &impl Abort, row: usize, window: &Window, bytes: &Bytes) {
    let (header, command, (place, entry)) = (bytes.header, bytes.sent.fis, bytes.entry);
    has(rt, row, window, header, &[(0, command), (place, entry)]);
    let found = (window.bytes().len(), window.tag());
    equal(rt, row, &found, &(bytes.len, bytes.sent.tag));
}

#[test]
fn the_bytes_of_a_read_of_eight_sectors_and_of_the_longest_write(
    rt: HostRuntime,
) -> Result<(), Fail> {
    for (row, bytes) in OVER_DEFAULT_PIECES.iter().enumerate() {
        assert!(rt; bytes.sent.tag < 32);
        let op = op_of(rt.alloc(), bytes.sent.asked)?;
        let window = Window::build(
            rt.alloc(),
            bytes.sent.tag,
            &op,
            &default_pieces(bytes.sent.sectors),
        )?;
        is_as(&rt, row, &window, bytes);
    }
    Ok(())
}

#[test]
fn packed_data_begin_behind_the_prdt(rt: HostRuntime) -> Result<(), Fail> {
    for (row, bytes) in PACKED.iter().enumerate() {
        assert!(rt; bytes.sent.tag < 32);
        let op = op_of(rt.alloc(), bytes.sent.asked)?;
        let None = default_fault(&op) else {
            panic!(rt; "no window is built");
        };
        let (window, command) = Window::over_layout(
            rt.alloc(),
            bytes.sent.tag,
            &op,
            false,
            PieceLayout::Packed,
        )?;
        is_as(&rt, row, &window, bytes);
        equal(&rt, row, &command.queued.sectors, &bytes.sent.sectors);
    }
    Ok(())
}

const THREE: [Place; 3] = [(0xE00, 2), (0xC00, 510), (0x880, 512)];

#[test]
fn the_bytes_of_a_write_to_three_pieces(rt: HostRuntime) -> Result<(), Fail> {
    let window = built(rt.alloc(), 0, Asked::Write(1024), &THREE)?;
    let header =
        b"\x45\x00\x03\x00\x00\x00\x00\x00\x00\x00\x00\x10\x00\x00\x00\x00\x00\x00\x00\x00\x00\x00\x00\x00\x00\x00\x00\x00\x00\x00\x00\x00";
    let entry = b"\x80\x08\x00\x10\x00\x00\x00\x00\x00\x00\x00\x00\xFF\x01\x00\x00";
    let parts = [
        (0xA0, entry.as_slice()),
        (0xE00, b"\x01\x02"),
        (0xC00, b"\x03\x04"),
    ];
    has(&rt, 0, &window, header, &parts);
    equal(&rt, 1, &window.bytes().len(), &3586);
    Ok(())
}

#[test]
fn the_text_is_what_was_written(rt: HostRuntime) -> Result<(), Fail> {
    let window = built(rt.alloc(), 0, Asked::Write(1024), &THREE)?;
    let Ok(_command) = window.check() else {
        panic!(rt; "the window is not fit");
    };
    let text = window.text(rt.alloc())?;
    let bytes = rising(rt.alloc(), 1024)?;
    equal_bytes(&rt, 0, text.as_slice(), bytes.as_slice());
    Ok(())
}

/// Lists of pieces for a write of two sectors.
static LISTS: [Refusal; 8] = [
    (&THREE, None),
    (
        &[(0xE00, 2), (0xA00, 510), (0x890, 512)],
        Some(PiecesOverlap),
    ),
    (&[(0xE00, 4), (0xC00, 510), (0x880, 512)], Some(WrongTotal)),
    (&[(0xE00, 2), (0xC00, 510), (0xAE, 512)], Some(PieceOutside)),
    (&[(0xE00, 2), (0xC00, 510), (0xB0, 512)], None),
    (&[(0xE00, 1), (0xC00, 510), (0x880, 512)], Some(OddPiece)),
    (&[], Some(NoPieces)),
    (&[(0x1000, 2); 33], Some(TooManyPieces)),
];

#[test]
fn lists_of_pieces_are_refused_by_the_first_case(rt: HostRuntime) -> Result<(), Fail> {
    refuses(&rt, rt.alloc(), Asked::Write(1024), LISTS.as_slice())?;
    Ok(())
}

/// Commands and pieces to which two cases apply, of which the first is reported.
static TWO_CASES: [(Asked, &[Place], BuildFault); 7] = [
    (Asked::Read(1 << 48, 0), &[], BadCount),
    (Asked::Read(0, 65_537), &[], BadCount),
    (Asked::Write(513), &[], BadCount),
    (Asked::Read(1 << 48, 1), &[], BadLba),
    (Asked::Read(0, 1), &[(1, 512)], OddPiece),
    (Asked::Read(0, 1), &[(0x80, 512), (0x80, 512)], PieceOutside),
    (
        Asked::Read(0, 1),
        &[(0x800, 512), (0x800, 512)],
        PiecesOverlap,
    ),
];

#[test]
fn an_earlier_case_hides_a_later_one(rt: HostRuntime) -> Result<(), Fail> {
    for (row, (asked, places, fault)) in TWO_CASES.iter().enumerate() {
        equal(
            &rt,
            row,
            &refused(rt.alloc(), *asked, places)?,
            &Some(*fault),
        );
    }
    Ok(())
}
