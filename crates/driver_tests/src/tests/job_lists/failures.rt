//! A reader that fails after every number of bytes, and a writer that takes any number of bytes and no more.
use ahci_driver::Low;
use ahci_jobs::{Form, JobsFault, RunSize, run_jobs};
use std::alloc::{AllocError, Global};
use std::process::Abort;
use std::sync::Wait;
use std::test::Fail;
use std::thread::Threads;
use test_helpers::{ReadFailure, Source};

static LIST: &[u8] = b"write 0 2 11\nwrite 4 1 22\nread 1 1\nread 4 2\n";

static TOLD: &[u8] = b"wrote\nwrote\nread 11\nread 22 00\nsector 0 11\nsector 1 11\nsector 4 22\n";

#[test]
fn a_reader_may_fail_after_any_byte(rt: HostRuntime) {
    for count in 0..=LIST.len() {
        let mut reader = Source {
            bytes: &LIST[..count],
            step: 1,
            failure: ReadFailure::AtTheEnd,
        };
        let mut written = Vec::new(rt.alloc());
        let ended = run_jobs(
            &rt,
            rt.alloc(),
            RunSize::new(2, 2, 8),
            Low,
            Form::Text,
            &mut reader,
            &mut written,
        );
        assert!(rt;
            ended == Err(JobsFault::Read) && written.is_empty(),
            "after {count} bytes: {ended:?}"
        );
    }
}

/// Runs a list with room for so many bytes: as much is written of what there is to report.
fn writes<R: Threads + Wait + Sync + Abort>(
    rt: &R,
    alloc: Global,
    mut list: &[u8],
    size: RunSize,
    told: &[u8],
    room: usize,
) -> Result<(), AllocError> {
    let mut written = vec![in alloc; 0u8; room]?;
    let mut writer = written.as_mut_slice();
    let ended = run_jobs(rt, alloc, size, Low, Form::Text, &mut list, &mut writer);
    let left = writer.len();
    let taken = room.min(told.len());
    let expected = if taken < told.len() {
        Err(JobsFault::Write)
    } else {
        Ok(())
    };
    assert!(rt;
        ended == expected && left == room - taken && written.starts_with(&told[..taken]),
        "room for {room} bytes: {ended:?}"
    );
    Ok(())
}

#[test]
fn a_writer_may_take_any_number_of_bytes(rt: HostRuntime) -> Result<(), Fail> {
    for room in 0..=TOLD.len() {
        writes(&rt, rt.alloc(), LIST, RunSize::new(2, 2, 8), TOLD, room)?;
    }
    Ok(())
}

/// The text of a read of so many sectors of zeros, and of a write, whose first sector is not all zero then.
fn long_text(rt: &HostRuntime, sectors: usize) -> Result<Vec<u8>, AllocError> {
    let mut text = b"read".to_vec(rt.alloc())?;
    for _ in 0..sectors {
        text.extend_from_slice(b" 00")?;
    }
    text.extend_from_slice(b"\nwrote\nsector 0 11\n")?;
    Ok(text)
}

#[test]
fn a_writer_may_fail_before_all_results_are_made(rt: HostRuntime) -> Result<(), Fail> {
    let list = b"read 0 8192\nwrite 0 1 11\n".as_slice();
    let told = long_text(&rt, 8192)?;
    // More than 16,384 bytes are sent before the write is reported.
    for room in [0, 1, 16_384, 24_580, 24_581, 24_586, 24_598, 24_599] {
        writes(&rt, rt.alloc(), list, RunSize::new(1, 1, 8192), &told, room)?;
    }
    Ok(())
}
