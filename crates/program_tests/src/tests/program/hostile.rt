//! Lines that are not understood, or aren't allowed where they are, and lines that are nothing.
use super::{CliFault, REFUSED_REQUESTS, TWO_WRITES, ends, joined, replayed};
use std::alloc::{AllocError, Global};
use std::process::Abort;
use std::test::Fail;

/// Lines that are not understood, after an accepted disk.
static WRONG: [&[u8]; 56] = [
    b"journal\r",
    b"journal\t",
    b" journal",
    b"journal ",
    b"\tjournal",
    b"Journal",
    b"journal 0",
    b"journa",
    b"journals",
    b" ",
    b"\xef\xbb\xbf#",
    b" # a comment",
    b"#\x80",
    b"# a comment \xff",
    b"show  0",
    b"show\t0",
    b"show 0 0",
    b"show 0 ",
    b"show",
    b"show ",
    b"show +1",
    b"show -1",
    b"show 0x1",
    b"show 1\xb2",
    b"show 000000000000000000000",
    b"show 18446744073709551616",
    b"show 99999999999999999999",
    b"accept 32",
    b"serve",
    b"serve 256",
    b"accept",
    b"serve 0  0",
    b"collect 0",
    b"collect 32 0",
    b"read 0 0 131073",
    b"read 0 0",
    b"write 0 0 131073 00",
    b"write 0 0 1 a",
    b"write 0 0 1 0aa",
    b"write 0 0 1 gg",
    b"write 0 0 1",
    b"write 0 0 1 00 ",
    b"disk 8 4",
    b"reg",
    b"reg 000000120",
    b"reg 0x120",
    b"ack 12345678 ",
    b"identify 256",
    b"identify -1",
    b"flush 0",
    b"recover 0",
    b"reissue",
    b"reissue 32",
    b"fail 0 40",
    b"fail 0 4 0",
    b"raw 0 00 00",
];

/// Compares what a script with this line after an accepted disk comes to, whatever follows the line.
fn is_wrong(rt: &impl Abort, alloc: Global, row: usize, line: &[u8]) -> Result<(), AllocError> {
    let answers = joined(alloc, REFUSED_REQUESTS.as_slice(), true)?;
    for end in [b"".as_slice(), b"\n".as_slice(), b"\njournal\n".as_slice()] {
        let mut script = joined(alloc, REFUSED_REQUESTS.as_slice(), false)?;
        script.extend_from_slice(line)?;
        script.extend_from_slice(end)?;
        let found = replayed(alloc, script.as_slice());
        ends(rt, row, found, Err(CliFault::Line(9)), answers.as_slice());
    }
    Ok(())
}

#[test]
fn a_wrong_line_ends_the_script_after_the_answers_before_it(rt: HostRuntime) -> Result<(), Fail> {
    for (row, line) in WRONG.iter().enumerate() {
        is_wrong(&rt, rt.alloc(), row, line)?;
    }
    Ok(())
}

/// Scripts whose last line is a command after a disk that is refused.
static DISKLESS: [&[u8]; 4] = [
    b"\n# no disk\ndisk 0 1\njournal",
    b"\n# no disk\ndisk 0 1\nshow 0",
    b"\n# no disk\ndisk 0 1\nserve 0",
    b"\n# no disk\ndisk 0 1\nread 0 0 1",
];

/// Scripts without a command, which write nothing.
static EMPTY: [&[u8]; 4] = [b"", b"\n", b"\n\n#", b"# a comment\n"];

#[test]
fn a_command_needs_an_accepted_disk(rt: HostRuntime) {
    for (row, script) in DISKLESS.iter().enumerate() {
        let found = replayed(rt.alloc(), script);
        ends(
            &rt,
            row,
            found,
            Err(CliFault::Line(4)),
            b"refused BadSize\n",
        );
    }
    for (row, script) in EMPTY.iter().enumerate() {
        ends(&rt, row, replayed(rt.alloc(), script), Ok(()), b"");
    }
}

#[test]
fn the_last_line_may_lack_its_line_feed(rt: HostRuntime) -> Result<(), Fail> {
    let script = joined(rt.alloc(), TWO_WRITES.as_slice(), false)?;
    let answers = joined(rt.alloc(), TWO_WRITES.as_slice(), true)?;
    let Some(script) = script.as_slice().strip_suffix(b"\n".as_slice()) else {
        panic!(rt; "the script has no last line feed");
    };
    ends(
        &rt,
        0,
        replayed(rt.alloc(), script),
        Ok(()),
        answers.as_slice(),
    );
    Ok(())
}
