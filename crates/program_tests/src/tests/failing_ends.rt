//! The program as one function where its input, its output or its errors fail at once.
use crate::tests::status::status_of;
use crate::tests::wanted::Wanted;
use std::io;
use std::io::{Read, Write};
use std::test::Fail;

/// An end that fails at once: a full disk, a closed pipe.
#[derive(Drop)]
struct Broken;

impl Read for Broken {
    fn read(&mut self, _buf: &mut [u8]) -> io::Result<usize> {
        Err(io::Error::from(io::ErrorKind::Other))
    }
}

impl Write for Broken {
    fn write(&mut self, _buf: &[u8]) -> io::Result<usize> {
        Err(io::Error::from(io::ErrorKind::StorageFull))
    }

    fn flush(&mut self) -> io::Result<()> {
        Ok(())
    }
}

/// Command lines that write something, what they read, and how they end.
static WRITING: [(&str, &[u8], u8); 14] = [
    ("ahci replay", DISK, 1),
    ("ahci trace", DISK, 1),
    ("ahci trace --json", DISK, 1),
    ("ahci draw", DISK, 1),
    ("ahci run --workers 1 --depth 1 --sectors 8", READ, 1),
    ("ahci identify --sectors 8 --depth 1", DISK, 1),
    ("ahci log --tag 0 --error 04 --lba 0 --raw", DISK, 1),
    ("ahci --help", DISK, 1),
    ("ahci draw --help", DISK, 1),
    ("ahci --version", DISK, 1),
    ("ahci run --workers 1 --depth 1 --sectors 8 --json", READ, 1),
    (
        "ahci run --workers 1 --depth 1 --sectors 8 --journal",
        READ,
        1,
    ),
    (
        "ahci run --workers 1 --depth 1 --sectors 8 --image",
        READ,
        1,
    ),
    ("ahci check --jobs", DISK, 4),
];

const DISK: &[u8] = b"disk 8 4\n";

const READ: &[u8] = b"read 0 1\n";

#[test]
fn output_that_fails_is_told(rt: HostRuntime) -> Result<(), Fail> {
    for (line, input, status) in &WRITING {
        let mut reader = *input;
        let mut told = Vec::new(rt.alloc());
        let ended = status_of(&rt, rt.alloc(), line, &mut reader, &mut Broken, &mut told)?;
        Wanted::Text("ahci: output failed\n").meets(&rt, line, told.as_slice());
        assert_eq!(rt; ended, *status, "{line}");
    }
    Ok(())
}

/// Command lines that read something, and how they end.
static READING: [(&str, u8); 7] = [
    ("ahci replay", 1),
    ("ahci trace", 1),
    ("ahci trace --json", 1),
    ("ahci check", 4),
    ("ahci draw", 1),
    ("ahci run --workers 1 --depth 1 --sectors 8", 1),
    ("ahci check --jobs", 4),
];

#[test]
fn input_that_fails_is_told_also_where_nobody_can_be_told(rt: HostRuntime) -> Result<(), Fail> {
    let alloc = rt.alloc();
    for (line, status) in &READING {
        let mut written = Vec::new(alloc);
        let mut told = Vec::new(alloc);
        let ended = status_of(&rt, alloc, line, &mut Broken, &mut written, &mut told)?;
        Wanted::Text("ahci: input failed\n").meets(&rt, line, told.as_slice());
        assert_eq!(rt; ended, *status, "{line}");
        let ended = status_of(&rt, alloc, line, &mut Broken, &mut written, &mut Broken)?;
        assert_eq!(rt; ended, *status, "{line}");
    }
    Ok(())
}
