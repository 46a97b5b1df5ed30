//! Worked job lists: what is written, or the fault that ends them.
use super::crews::{Crew, done};
use ahci_driver::{All, Chooser, High, Low};
use ahci_jobs::JobsFault;
use std::alloc::{AllocError, Global};
use std::process::Abort;
use std::sync::Wait;
use std::test::Fail;
use std::thread::Threads;

/// Job lists that are done, each with its crew, and what it writes.
static DONE: [(&str, Crew, &str); 9] = [
    (
        "write 0 2 11\nwrite 4 1 22\nread 1 1\nread 4 2\n",
        (2, 2, 8),
        "wrote\nwrote\nread 11\nread 22 00\nsector 0 11\nsector 1 11\nsector 4 22\n",
    ),
    ("", (2, 2, 8), ""),
    // The largest disk.
    ("", (1, 1, 131_072), ""),
    ("# no job\n\n#", (1, 1, 1), ""),
    (
        "read 8 1\nwrite 0 1 33\n",
        (1, 1, 8),
        "failed 10 8\nwrote\nsector 0 33\n",
    ),
    ("write 0 1 00\n", (1, 1, 1), "wrote\n"),
    (
        "write 0 65536 00\nwrite 65535 1 5a\nread 65535 1\n",
        (1, 1, 65_536),
        "wrote\nwrote\nread 5a\nsector 65535 5a\n",
    ),
    (
        "# the last line has no line feed\n\nwrite 999 1 Ff",
        (32, 32, 1000),
        "wrote\nsector 999 ff\n",
    ),
    (
        "read 281474976710655 2\n",
        (1, 1, 8),
        "failed 10 281474976710655\n",
    ),
];

/// Job lists that a fault ends before anything is written: the first in the order of the input, whichever it is.
static FAULTY: [(&str, Crew, JobsFault); 11] = [
    ("read 0 0\n", (2, 2, 8), JobsFault::Job(0)),
    ("read 0 1\nread 0 131073\n", (1, 1, 8), JobsFault::Line(2)),
    ("read 0 65537\nread\n", (1, 1, 8), JobsFault::Job(0)),
    ("read\nread 0 65537\n", (1, 1, 8), JobsFault::Line(1)),
    (
        "# jobs alone are numbered\nread 0 1\n\nwrite 281474976710656 1 00\n",
        (1, 1, 8),
        JobsFault::Job(1),
    ),
    ("write 0 1 1\n", (1, 1, 8), JobsFault::Line(1)),
    ("write 0 1\n", (1, 1, 8), JobsFault::Line(1)),
    ("read 0 1 00\n", (1, 1, 8), JobsFault::Line(1)),
    ("read 0  1\n", (1, 1, 8), JobsFault::Line(1)),
    ("disk 8 4\n", (1, 1, 8), JobsFault::Line(1)),
    ("#\u{80}\n", (1, 1, 8), JobsFault::Line(1)),
];

/// A list is done by a crew, writes this, and ends so.
fn is_done<H: Threads + Wait + Sync + Abort>(
    rt: &H,
    alloc: Global,
    (list, crew): (&str, Crew),
    expected: &str,
    ending: Result<(), JobsFault>,
) {
    let mut written = Vec::new(alloc);
    let mut reader = list.as_bytes();
    let ended = done(rt, alloc, crew, Low, &mut reader, &mut written);
    assert!(rt;
        ended == Some(ending) && written.as_slice() == expected.as_bytes(),
        "{list}: {ended:?}"
    );
}

#[test]
fn each_list_is_done(rt: HostRuntime) {
    for (list, crew, expected) in DONE {
        is_done(&rt, rt.alloc(), (list, crew), expected, Ok(()));
    }
    for (list, crew, fault) in FAULTY {
        is_done(&rt, rt.alloc(), (list, crew), "", Err(fault));
    }
}

/// Jobs on sectors of their own, so that their order is no matter: job i writes sector i, or reads sector i + 100.
fn disjoint(alloc: Global) -> Result<Vec<u8>, AllocError> {
    let mut list = Vec::new(alloc);
    for job in 0..60u32 {
        let line = if job % 3 == 2 {
            format!(in alloc; "read {} 1\n", job + 100)?
        } else {
            format!(in alloc; "write {job} 1 {:02x}\n", job + 1)?
        };
        list.extend_from_slice(line.as_bytes())?;
    }
    Ok(list)
}

/// What they write, worked out job by job.
fn told(alloc: Global) -> Result<Vec<u8>, AllocError> {
    let mut text = Vec::new(alloc);
    for job in 0..60u32 {
        let line: &[u8] = if job % 3 == 2 {
            b"read 00\n"
        } else {
            b"wrote\n"
        };
        text.extend_from_slice(line)?;
    }
    for job in 0..60u32 {
        if job % 3 != 2 {
            let line = format!(in alloc; "sector {job} {:02x}\n", job + 1)?;
            text.extend_from_slice(line.as_bytes())?;
        }
    }
    Ok(text)
}

static CREWS: [Crew; 6] = [
    (1, 1, 200),
    (2, 2, 200),
    (8, 3, 200),
    (8, 32, 200),
    (32, 1, 200),
    (32, 32, 200),
];

/// Has the jobs on sectors of their own done by every crew.
fn tells_the_same<H, C>(rt: &H, alloc: Global, chooser: C) -> Result<(), Fail>
where
    H: Threads + Wait + Sync + Abort,
    C: Chooser + Copy + Send + Drop,
{
    let list = disjoint(alloc)?;
    let expected = told(alloc)?;
    for crew in &CREWS {
        let mut written = Vec::new(alloc);
        let mut reader = list.as_slice();
        let ended = done(rt, alloc, *crew, chooser, &mut reader, &mut written);
        assert!(rt;
            ended == Some(Ok(())) && written.as_slice() == expected.as_slice(),
            "workers, depth and sectors {crew:?}: {ended:?}"
        );
    }
    Ok(())
}

#[test]
fn any_number_of_workers_tells_the_same(rt: HostRuntime) -> Result<(), Fail> {
    tells_the_same(&rt, rt.alloc(), High)?;
    tells_the_same(&rt, rt.alloc(), All)
}
