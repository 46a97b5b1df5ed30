//! Whole scripts: the text that a check writes of them, and how it ends.
use ahci_check::{CheckFault, Form, check, check_jobs};
use std::alloc::Global;
use std::io;
use std::io::Read;
use std::process::Abort;
use std::test::Fail;

/// A script, and the text of its complaints; empty where there is none.
type Script = (&'static str, &'static str);

static SCRIPTS: [Script; 7] = [
    ("", ""),
    (
        "# A disk, and a read without its line feed.\ndisk 8 4\n\nread 0 0 1",
        "",
    ),
    (
        "recover\ndisk 8 33\nread 0 0 1\ndisk 8 4\nread 0 0 70000\ndisk 8 4\nserve\n#\u{80}\nflush",
        "line 1: a command before the disk\nline 2, column 8: 33 slots, at most 32\nline 3: a command before the disk\nline 5, column 10: 70000 sectors, at most 65536\nline 6: a second disk\nline 7, column 6: a word is missing\nline 8, column 2: a byte over 127\n",
    ),
    (
        "disk 8 4\nread 0 0",
        "line 2, column 9: a word is missing\n",
    ),
    ("disk 8 4\r\n", "line 1, column 9: a carriage return\n"),
    // The disk that opens the script says how many sectors and slots there are, and no later one does.
    (
        "disk 8 33\ndisk 8 4\ndisk 9 5\nshow 8\naccept 4\nshow 7\naccept 3\n",
        "line 1, column 8: 33 slots, at most 32\nline 3: a second disk\nline 4, column 6: LBA 8 of 8 sectors\nline 5, column 8: tag 4 of 4 slots\n",
    ),
    (
        "\u{feff}disk 8 4\nshow 0\n",
        "line 1, column 1: a byte order mark\nline 2: a command before the disk\n",
    ),
];

/// The same as objects: one each, on a line.
static OBJECTS: [Script; 2] = [
    ("# Nothing.\ndisk 8 4\n", ""),
    (
        "recover\ndisk 8 4\nshow 8\nread 0 0",
        "{\"line\":1,\"column\":null,\"kind\":\"language\",\"rule\":\"BeforeDisk\",\"text\":\"a command before the disk\"}\n{\"line\":3,\"column\":6,\"kind\":\"port\",\"rule\":\"NoSuchSector\",\"text\":\"LBA 8 of 8 sectors\"}\n{\"line\":4,\"column\":9,\"kind\":\"language\",\"rule\":\"MissingWord\",\"text\":\"a word is missing\"}\n",
    ),
];

/// Job lists.
static JOBS: [Script; 4] = [
    ("", ""),
    (
        "# Two jobs.\n\nwrite 0 65536 Ff\nread 281474976710655 1",
        "",
    ),
    (
        "write 0 0 11\nread 0 65537\nread 281474976710656 1\nread 281474976710656 0\nwrite 0 131073 11\n",
        "line 1, column 9: 0 sectors, at least 1\nline 2, column 8: 65537 sectors, at most 65536\nline 3, column 6: LBA 281474976710656, at most 281474976710655\nline 4, column 22: 0 sectors, at least 1\nline 5, column 9: 131073 sectors, at most 131072\n",
    ),
    (
        "disk 8 4\nwrite 0 1\nwrite 0 1 \nread 0 1\r\n#\u{80}\n read 0 1\nread 0 1 2",
        "line 1, column 1: no such command\nline 2, column 10: a word is missing\nline 3, column 11: a space too many\nline 4, column 9: a carriage return\nline 5, column 2: a byte over 127\nline 6, column 1: a space too many\nline 7, column 10: a word too many\n",
    ),
];

/// Compares what a check of each script, or of each job list, writes with the text beside it.
fn tells(rt: &impl Abort, alloc: Global, rows: &[Script], form: Form, is_jobs: bool) {
    for (script, expected) in rows {
        let mut written = Vec::new(alloc);
        let mut reader = script.as_bytes();
        let ended = if is_jobs {
            check_jobs(alloc, form, &mut reader, &mut written)
        } else {
            check(alloc, form, &mut reader, &mut written)
        };
        assert!(rt;
            ended == Ok(!expected.is_empty()) && written.as_slice() == expected.as_bytes(),
            "{script}: {ended:?}"
        );
    }
}

#[test]
fn each_script_has_the_objects_beside_it(rt: HostRuntime) {
    tells(&rt, rt.alloc(), OBJECTS.as_slice(), Form::Json, false);
}

#[test]
fn each_job_list_has_the_complaints_beside_it(rt: HostRuntime) {
    tells(&rt, rt.alloc(), JOBS.as_slice(), Form::Text, true);
}

/// A reader that gives lines which are no command, a thousand at a time, for as long as it is asked.
#[derive(Drop)]
struct Endless;

impl Read for Endless {
    fn read(&mut self, buf: &mut [u8]) -> io::Result<usize> {
        let count = buf.len().min(2000);
        for index in 0..count {
            buf[index] = if index % 2 == 0 { b'x' } else { b'\n' };
        }
        Ok(count)
    }
}

/// What is reported is written before the next read: an output that takes a line ends the check of an input without an end.
#[test]
fn a_complaint_does_not_wait_for_the_end_of_the_input(rt: HostRuntime) {
    let mut room = [0; 34];
    let mut writer = &mut room[..];
    let ended = check(rt.alloc(), Form::Text, &mut Endless, &mut writer);
    assert!(rt; ended == Err(CheckFault::Write));
    assert!(rt; room == *b"line 1, column 1: no such command\n");
}

#[test]
fn each_script_has_the_complaints_beside_it(rt: HostRuntime) {
    tells(&rt, rt.alloc(), SCRIPTS.as_slice(), Form::Text, false);
}

/// A comment of 4,097 bytes after a line that is no command.
#[test]
fn a_line_that_is_too_long_is_the_last(rt: HostRuntime) -> Result<(), Fail> {
    let mut script = Vec::new(rt.alloc());
    script.extend_from_slice(b"x\n")?;
    for _ in 0..4097 {
        script.push(b'#')?;
    }
    script.extend_from_slice(b"\nx\n")?;
    let mut written = Vec::new(rt.alloc());
    let mut reader = script.as_slice();
    let ended = check(rt.alloc(), Form::Text, &mut reader, &mut written);
    assert!(rt; ended == Ok(true));
    assert_eq!(rt;
        written.as_slice(),
        b"line 1, column 1: no such command\nline 2, column 4097: more than 4096 bytes\n".as_slice()
    );
    Ok(())
}

/// An output without room takes a first part, and that is the fault.
#[test]
fn a_full_output_is_the_fault(rt: HostRuntime) {
    let mut room = [0; 10];
    let mut writer = &mut room[..];
    let mut reader = b"x\n".as_slice();
    let ended = check(rt.alloc(), Form::Text, &mut reader, &mut writer);
    assert!(rt; ended == Err(CheckFault::Write));
    assert!(rt; room == *b"line 1, co");
}
