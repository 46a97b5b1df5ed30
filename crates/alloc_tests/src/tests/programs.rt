//! Scripts and job lists where memory is refused: what was answered before is written, and the fault is want of memory, with
//! status 3.
use crate::tests::heap::{Asked, Heap, equal, growths_of, refuse_from};
use ahci_cli::{CliFault, Pick, replay, run_jobs};
use ahci_driver::Low;
use ahci_jobs::{Form, RunSize};
use refusing_allocator::Refusing;
use std::alloc::{AllocError, Global};
use std::io;
use std::io::Read;
use std::process::Abort;
use std::sync::Wait;
use std::test::Fail;
use std::thread::Threads;

/// A line of a script with its answer, and how many growths it meets.
type Line = (&'static str, &'static str, u64);

/// Scripts to whose end all is answered.
//
// A disk: its image, the copy of it, the slots (1 for four of them) and the line that is answered. A write: its bytes,
// which become the journal's, and its window; a read: its window. Room in the journal is made at the first entry, and doubled at the
// next that has to be sure of it. The first completion: room for a line that may be longer than those before, which is enough
// for a collected read's too. A collected read: its text. A trim takes the journal's room along, so that it is made anew.
static SCRIPTS: [&[Line]; 2] = [
    &[
        ("disk 8 4\n", "disk 8 4\n", 4),
        ("write 0 3 1 aa\n", "issued 0\n", 3),
        ("write 1 3 1 bb\n", "issued 1\n", 3),
        ("accept 0\n", "accepted 2\n", 0),
        ("accept 1\n", "accepted 3\n", 0),
        ("serve 1\n", "completed 4\n", 1),
        ("serve 0\n", "completed 5\n", 0),
        ("collect 0 0\n", "wrote 5\n", 0),
        ("read 2 3 1\n", "issued 7\n", 1),
        ("accept 2\n", "accepted 8\n", 0),
        ("serve 2\n", "completed 9\n", 0),
        ("collect 2 7\n", "read 9 aa\n", 1),
        ("show 3\n", "sector 3 aa\n", 0),
        ("journal\n", "journal 11\n", 0),
    ],
    &[
        ("disk 8 1\n", "disk 8 1\n", 4),
        ("write 0 3 1 aa\n", "issued 0\n", 3),
        ("accept 0\n", "accepted 1\n", 0),
        ("fail 0 40 3\n", "failed 2\n", 0),
        ("write 1 0 1 aa\n", "refused Halted\n", 0),
        ("recover\n", "recovered 0\n", 1),
        ("collect 0 0\n", "failed 2 40 3\n", 0),
        ("read 0 3 1\n", "issued 5\n", 1),
        ("accept 0\n", "accepted 6\n", 0),
        ("serve 0\n", "completed 7\n", 1),
        ("collect 0 5\n", "read 7 00\n", 1),
        ("trim\n", "trimmed 9\n", 0),
        ("flush\n", "flushed\n", 1),
    ],
];

// 32 slots are pushed one by one: 4 growths. A raw window has one, also where it is refused; a refused write or read has none.
static UNQUEUED: [Line; 11] = [
    ("disk 1000 32\n", "disk 1000 32\n", 7),
    ("identify 75\n", "word 75 001f\n", 1),
    ("flush\n", "flushed\n", 1),
    ("flush\n", "flushed\n", 0),
    (
        "raw 31 0000000000000000000000000000000000000000000000000000000000000000 00\n",
        "refused BadHeader\n",
        1,
    ),
    ("write 0 0 256 aa\n", "issued 3\n", 2),
    ("write 0 0 256 aa\n", "refused SlotOwned\n", 0),
    ("read 0 0 256\n", "refused SlotOwned\n", 0),
    ("read 1 0 65537\n", "refused BadCount\n", 0),
    ("reg 134\n", "00000001\n", 0),
    ("disk 0\n", "", 0),
];

/// A reader that gives a line at a time.
#[derive(Drop)]
struct Lines<'a> {
    lines: &'a [Line],
}

impl Read for Lines<'_> {
    fn read(&mut self, buf: &mut [u8]) -> io::Result<usize> {
        let Some(line) = self.lines.first() else {
            return Ok(0);
        };
        let text = line.0.as_bytes();
        let count = text.len().min(buf.len());
        buf[..count].copy_from_slice(&text[..count]);
        self.lines = &self.lines[1..];
        Ok(count)
    }
}

/// How a program ended, what it asked for, and whether all that it took came back.
#[derive(Clone, Copy, Debug, PartialEq)]
struct Ended {
    how: Result<(), CliFault>,
    status: u8,
    asked: Asked,
    left: u64,
}

fn ending_of(heap: &Heap, how: Result<(), CliFault>) -> Ended {
    Ended {
        how,
        status: how.err().map_or(0, CliFault::status),
        asked: growths_of(heap),
        left: heap.out(),
    }
}

/// What is wanted of a script where this growth and all that follow are refused, and its answers to the lines before. The
/// first growth is the input's.
fn wanted(
    alloc: Global,
    lines: &[Line],
    ending: Result<(), CliFault>,
    growth: u64,
) -> Result<(Ended, Vec<u8>), AllocError> {
    let mut met = 1;
    let mut answers = Vec::new(alloc);
    let mut refused = growth < met;
    for (_, answer, growths) in lines {
        met = met.saturating_add(*growths);
        refused = refused || growth < met;
        if !refused {
            answers.extend_from_slice(answer.as_bytes())?;
        }
    }
    let (how, asked) = if refused {
        (Err(CliFault::OutOfMemory), Asked::Refused(growth))
    } else {
        (ending, Asked::Granted(met))
    };
    let status = match how {
        Ok(()) => 0,
        Err(CliFault::OutOfMemory) => 3,
        Err(_) => 1,
    };
    let wanted = Ended {
        how,
        status,
        asked,
        left: 0,
    };
    Ok((wanted, answers))
}

/// Runs a script with each growth refused in turn, until none is.
fn replays_each(
    rt: &impl Abort,
    alloc: Global,
    lines: &'static [Line],
    ending: Result<(), CliFault>,
) -> Result<(), Fail> {
    for growth in 0..100u64 {
        let heap = Refusing::new(alloc);
        refuse_from(&heap, growth as usize);
        let mut reader = Lines { lines };
        let mut written = Vec::new(alloc);
        let how = replay(&heap, &mut reader, &mut written);
        let (wanted, answers) = wanted(alloc, lines, ending, growth)?;
        let found = ending_of(&heap, how);
        equal(rt, &lines.first(), growth as usize, &found, &wanted);
        assert!(rt;
            written.as_slice() == answers.as_slice(),
            "growth {growth} of {lines:?}"
        );
        if heap.refused() == 0 {
            return Ok(());
        }
    }
    Err(Fail::new("it always wants memory"))
}

#[test]
fn a_script_refused_memory_has_answered_the_lines_before(rt: HostRuntime) -> Result<(), Fail> {
    for lines in SCRIPTS {
        replays_each(&rt, rt.alloc(), lines, Ok(()))?;
    }
    replays_each(&rt, rt.alloc(), &UNQUEUED, Err(CliFault::Line(11)))
}

// Each write has its bytes, and the first job the list, which has room for four. Nothing is reported before all is done.
static LIST: [Line; 4] = [
    ("write 0 2 11\n", "", 2),
    ("write 4 1 22\n", "", 1),
    ("read 1 1\n", "", 0),
    ("read 4 2\n", "", 0),
];

static TOLD: &[u8] = b"wrote\nwrote\nread 11\nread 22 00\nsector 0 11\nsector 1 11\nsector 4 22\n";

// The input and the list's lines: 1 and 3. The disk, the port's copy of it, its slots and the choosers: 4. The run of four jobs
// by two workers, as `runs` counts them: 6, 5, 8, 2 and 4. The text, which is made longer once: 2.
const LIST_GROWTHS: u64 = (1 + 3) + 4 + (6 + 5 + 8 + 2 + 4) + 2;

/// Does the list with a growth refused, and what is written.
fn done<R: Threads + Wait + Sync>(rt: &R, alloc: Global, growth: u64) -> (Ended, Vec<u8>) {
    let heap = Refusing::new(alloc);
    refuse_from(&heap, growth as usize);
    let mut reader = Lines {
        lines: LIST.as_slice(),
    };
    let mut written = Vec::new(alloc);
    let how = run_jobs(rt, &heap, 2, 2, 8, Pick::Low, &mut reader, &mut written);
    (ending_of(&heap, how), written)
}

#[test]
fn a_list_refused_memory_tells_nothing(rt: HostRuntime) -> Result<(), Fail> {
    for growth in 0..=LIST_GROWTHS {
        let (found, written) = done(&rt, rt.alloc(), growth);
        let is_whole = growth == LIST_GROWTHS;
        let (how, status, text) = if is_whole {
            (Ok(()), 0, TOLD)
        } else {
            (Err(CliFault::OutOfMemory), 3, b"".as_slice())
        };
        let is_refused = matches!(found.asked, Asked::Refused(_) | Asked::RefusedOften);
        let found = (found.how, found.status, found.left, is_refused);
        equal(
            &rt,
            &LIST[0],
            growth as usize,
            &found,
            &(how, status, 0, !is_whole),
        );
        assert!(rt; written.as_slice() == text, "growth {growth}");
    }
    Ok(())
}

/// Does the list, and reports its run as the bytes of the disk: how many are written, and the requests for memory and their bytes.
fn told_as_image<R: Threads + Wait + Sync>(
    rt: &R,
    alloc: Global,
    size: RunSize,
) -> Result<(usize, u64, u64), Fail> {
    let heap = Refusing::new(alloc);
    let mut reader = Lines {
        lines: LIST.as_slice(),
    };
    let mut written = Vec::new(alloc);
    ahci_jobs::run_jobs(rt, &heap, size, Low, Form::Image, &mut reader, &mut written)?;
    Ok((written.len(), heap.requests(), heap.bytes()))
}

// All of the text is asked for at once. Beside it a sector is in the disk, in the port's copy of it, in that of the run and in
// that of its settling.
#[test]
fn a_disk_is_told_in_memory_of_its_size(rt: HostRuntime) -> Result<(), Fail> {
    let (len, growths, bytes) = told_as_image(&rt, rt.alloc(), RunSize::new(2, 2, 8))?;
    assert_eq!(rt; (len, growths), (8 * 512, LIST_GROWTHS - 1));
    let (len, growths, more) = told_as_image(&rt, rt.alloc(), RunSize::new(2, 2, 16))?;
    assert_eq!(rt; (len, growths), (16 * 512, LIST_GROWTHS - 1));
    assert_eq!(rt; more.saturating_sub(bytes), 5 * 8 * 512);
    Ok(())
}
