//! Windows of any bytes, as lines of a script.
use super::{CliFault, ends, replayed};
use std::alloc::{AllocError, Global};
use std::test::Fail;
use test_helpers::any_window;

/// The first byte of a header, byte 12 of CFIS, and how many bytes the window has.
type Bytes = (u8, u8, usize);

/// Appends the two digits of each byte, the letters small or capital.
fn push_digits(text: &mut Vec<u8>, bytes: &[u8], capital: bool) -> Result<(), AllocError> {
    static SMALL: &[u8; 16] = b"0123456789abcdef";
    static CAPITAL: &[u8; 16] = b"0123456789ABCDEF";
    let digits = if capital { CAPITAL } else { SMALL };
    for byte in bytes {
        text.push(digits[usize::from(*byte / 16)])?;
        text.push(digits[usize::from(*byte % 16)])?;
    }
    Ok(())
}

/// A script of a disk of eight sectors and four slots, the window's line for tag 0, and what follows.
fn script_of(
    alloc: Global,
    bytes: Bytes,
    capital: bool,
    rest: &[u8],
) -> Result<Vec<u8>, AllocError> {
    let (flags, count, len) = bytes;
    let (header, window) = any_window(alloc, flags, count, len)?;
    let mut script = Vec::from_slice(alloc, b"disk 8 4\nraw 0 ")?;
    push_digits(&mut script, &header, capital)?;
    script.push(b' ')?;
    push_digits(&mut script, window.as_slice(), capital)?;
    script.push(b'\n')?;
    script.extend_from_slice(rest)?;
    Ok(script)
}

static REST: &[u8] = b"write 1 0 1 5a\naccept 1\nserve 1\naccept 0\nserve 0\ncollect 0 0\n";

static ANSWERS: &[u8] =
    b"disk 8 4\nissued 0\nissued 1\naccepted 2\ncompleted 3\naccepted 4\ncompleted 5\nread 5 5a\n";

#[test]
fn a_window_of_any_bytes_is_issued_served_and_collected(rt: HostRuntime) -> Result<(), Fail> {
    for (row, capital) in [false, true].iter().enumerate() {
        let script = script_of(rt.alloc(), (0x05, 0, 656), *capital, REST)?;
        ends(
            &rt,
            row,
            replayed(rt.alloc(), script.as_slice()),
            Ok(()),
            ANSWERS,
        );
    }
    Ok(())
}

/// Bytes that are no window, and what they are answered.
static REFUSED: [(Bytes, &[u8]); 7] = [
    ((0x04, 0, 656), b"disk 8 4\nrefused BadHeader\njournal 0\n"),
    ((0x05, 0, 143), b"disk 8 4\nrefused BadHeader\njournal 0\n"),
    ((0x05, 0, 1), b"disk 8 4\nrefused BadHeader\njournal 0\n"),
    ((0x45, 0, 656), b"disk 8 4\nrefused BadCommand\njournal 0\n"),
    (
        (0x05, 0xF8, 656),
        b"disk 8 4\nrefused WrongTag\njournal 0\n",
    ),
    ((0x05, 0, 144), b"disk 8 4\nrefused BadList\njournal 0\n"),
    ((0x05, 0, 655), b"disk 8 4\nrefused BadList\njournal 0\n"),
];

#[test]
fn bytes_that_are_no_window_are_refused(rt: HostRuntime) -> Result<(), Fail> {
    for (row, (bytes, answers)) in REFUSED.iter().enumerate() {
        let script = script_of(rt.alloc(), *bytes, false, b"journal\n")?;
        ends(
            &rt,
            row,
            replayed(rt.alloc(), script.as_slice()),
            Ok(()),
            answers,
        );
    }
    Ok(())
}

/// What comes in place of a header of 64 digits and bytes after `raw`, and how the script ends: the tag is named before the
/// bytes are looked at.
static LINES: [(&[u8], usize, &[u8], Result<(), CliFault>); 12] = [
    (b"31 ", 64, b" 00\n", Ok(())),
    (b"0 ", 64, b" 0000\n", Ok(())),
    (b"0 ", 64, b" aF\n", Ok(())),
    (b"0 ", 64, b" \n", Err(CliFault::Line(2))),
    (b"0 ", 64, b"\n", Err(CliFault::Line(2))),
    (b"0 ", 64, b" 0\n", Err(CliFault::Line(2))),
    (b"0 ", 64, b" 000\n", Err(CliFault::Line(2))),
    (b"0 ", 64, b" 0g\n", Err(CliFault::Line(2))),
    (b"0 ", 64, b" 00 00\n", Err(CliFault::Line(2))),
    (b"0 ", 62, b" 00\n", Err(CliFault::Line(2))),
    (b"0 ", 66, b" 00\n", Err(CliFault::Line(2))),
    (b"32 ", 64, b" 00\n", Err(CliFault::Line(2))),
];

#[test]
fn a_raw_line_has_a_tag_a_header_and_whole_bytes(rt: HostRuntime) -> Result<(), Fail> {
    for (row, (tag, digits, rest, ending)) in LINES.iter().enumerate() {
        let mut script = Vec::from_slice(rt.alloc(), b"disk 8 4\nraw ")?;
        script.extend_from_slice(tag)?;
        script.extend_from_slice(vec![in rt.alloc(); b'0'; *digits]?.as_slice())?;
        script.extend_from_slice(rest)?;
        let answers: &[u8] = match ending {
            Ok(()) if row == 0 => b"disk 8 4\nrefused NoSuchTag\n",
            Ok(()) => b"disk 8 4\nrefused BadHeader\n",
            Err(_) => b"disk 8 4\n",
        };
        ends(
            &rt,
            row,
            replayed(rt.alloc(), script.as_slice()),
            *ending,
            answers,
        );
    }
    Ok(())
}
