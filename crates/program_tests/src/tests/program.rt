//! What no clause says: the worked scripts, and the texts of the faults. Hostile input and readers and writers that
//! fail have modules of their own.
use crate::tests::table::{equal, equal_bytes};
use ahci_cli::{CliFault, replay};
use std::alloc::{AllocError, Global};
use std::process::Abort;
use std::test::Fail;

mod both_ends;
mod hostile;
mod raw;

/// A line and its answer, with none where the line is skipped.
type Row = (&'static str, &'static str);

static TWO_WRITES: [Row; 14] = [
    ("disk 8 4", "disk 8 4"),
    ("write 0 3 1 aa", "issued 0"),
    ("write 1 3 1 bb", "issued 1"),
    ("accept 0", "accepted 2"),
    ("accept 1", "accepted 3"),
    ("serve 1", "completed 4"),
    ("serve 0", "completed 5"),
    ("collect 0 0", "wrote 5"),
    ("read 2 3 1", "issued 7"),
    ("accept 2", "accepted 8"),
    ("serve 2", "completed 9"),
    ("collect 2 7", "read 9 aa"),
    ("show 3", "sector 3 aa"),
    ("journal", "journal 11"),
];

static READ_BETWEEN_WRITES: [Row; 12] = [
    ("disk 8 3", "disk 8 3"),
    ("write 0 7 1 aa", "issued 0"),
    ("write 1 7 1 bb", "issued 1"),
    ("read 2 7 1", "issued 2"),
    ("accept 0", "accepted 3"),
    ("accept 1", "accepted 4"),
    ("accept 2", "accepted 5"),
    ("serve 1", "completed 6"),
    ("serve 2", "completed 7"),
    ("serve 0", "completed 8"),
    ("collect 2 2", "read 7 bb"),
    ("show 7", "sector 7 aa"),
];

static STRANGERS: [Row; 16] = [
    ("disk 8 1", "disk 8 1"),
    ("write 0 0 1 11", "issued 0"),
    ("collect 0 0", "refused NotYet"),
    ("accept 0", "accepted 1"),
    ("serve 0", "completed 2"),
    ("collect 0 0", "wrote 2"),
    ("collect 0 0", "refused Stranger"),
    ("read 0 0 1", "issued 4"),
    ("collect 0 0", "refused Stranger"),
    ("write 1 0 1 22", "refused NoSuchTag"),
    ("write 0 0 1 22", "refused SlotOwned"),
    ("serve 0", "refused NotAccepted"),
    ("accept 0", "accepted 5"),
    ("accept 0", "refused NotIssued"),
    ("serve 0", "completed 6"),
    ("collect 0 4", "read 6 11"),
];

static REFUSED_REQUESTS: [Row; 8] = [
    ("disk 0 4", "refused BadSize"),
    ("disk 8 33", "refused BadDepth"),
    ("disk 8 4", "disk 8 4"),
    ("read 0 0 0", "refused BadCount"),
    ("read 0 0 65537", "refused BadCount"),
    ("read 0 281474976710656 1", "refused BadLba"),
    ("show 8", "refused NoSuchSector"),
    ("journal", "journal 0"),
];

/// A command far past the last sector fails when it is accepted, with IDNF at its first sector.
static FAR_BEHIND_THE_END: [Row; 5] = [
    ("disk 1000 32", "disk 1000 32"),
    ("read 5 78187493530 8", "issued 0"),
    ("accept 5", "failed 1"),
    ("recover", "recovered 5"),
    ("collect 5 0", "failed 1 10 78187493530"),
];

/// A failure is in the log page: tag, error and LBA.
static LOGGED: [Row; 8] = [
    ("disk 8 4", "disk 8 4"),
    ("read 3 7 1", "issued 0"),
    ("accept 3", "accepted 1"),
    ("fail 3 40 7", "failed 2"),
    ("serve 3", "refused Halted"),
    ("recover", "recovered 3"),
    ("collect 3 0", "failed 2 40 7"),
    ("reg 120", "00000040"),
];

/// The longest command that there is.
static LONGEST: [Row; 6] = [
    ("disk 65536 1", "disk 65536 1"),
    ("write 0 0 65536 5a", "issued 0"),
    ("accept 0", "accepted 1"),
    ("serve 0", "completed 2"),
    ("show 65535", "sector 65535 5a"),
    ("collect 0 0", "wrote 2"),
];

/// A disk's numbers are refused by their full value, and only an accepted disk counts.
static DISKS: [Row; 8] = [
    ("disk 131073 1", "refused BadSize"),
    ("disk 18446744073709551615 0", "refused BadSize"),
    ("disk 8 0", "refused BadDepth"),
    ("disk 8 4294967300", "refused BadDepth"),
    ("# a comment", ""),
    ("", ""),
    ("disk 0131072 00000000000000000032", "disk 131072 32"),
    ("show 131071", "sector 131071 00"),
];

/// Lines at the edges of what is understood.
static EDGES: [Row; 15] = [
    ("disk 8 32", "disk 8 32"),
    ("#", ""),
    ("#\u{1}\t\r  \u{7f}", ""),
    ("show 00000000000000000007", "sector 7 00"),
    ("show 18446744073709551615", "refused NoSuchSector"),
    ("accept 31", "refused NotIssued"),
    ("read 31 0 131072", "refused BadCount"),
    ("write 31 0 131072 00", "refused BadCount"),
    ("write 31 281474976710656 0 00", "refused BadCount"),
    ("write 31 281474976710656 1 00", "refused BadLba"),
    ("write 31 281474976710655 65536 00", "issued 0"),
    ("write 0 0 2 aB", "issued 1"),
    ("accept 0", "accepted 2"),
    ("serve 0", "completed 3"),
    ("show 1", "sector 1 ab"),
];

/// The lines of a script, or its answers, each with a line feed.
fn joined(alloc: Global, rows: &[Row], answers: bool) -> Result<Vec<u8>, AllocError> {
    let mut text = Vec::new(alloc);
    for (line, answer) in rows {
        let part = if answers { answer } else { line };
        text.extend_from_slice(part.as_bytes())?;
        if !answers || !answer.is_empty() {
            text.push(b'\n')?;
        }
    }
    Ok(text)
}

/// What a script writes, and how it ends.
fn replayed(alloc: Global, script: &[u8]) -> Replayed {
    let mut written = Vec::new(alloc);
    let mut reader = script;
    let outcome = replay(alloc, &mut reader, &mut written);
    (written, outcome)
}

/// What was written, and how it ended.
type Replayed = (Vec<u8>, Result<(), CliFault>);

/// Compares how a script ends and what it writes.
fn ends(
    rt: &impl Abort,
    row: usize,
    (written, outcome): Replayed,
    ending: Result<(), CliFault>,
    answers: &[u8],
) {
    equal(rt, row, &outcome, &ending);
    equal_bytes(rt, row, written.as_slice(), answers);
}

/// Compares the answers to the lines of a table.
fn answers_all(rt: &impl Abort, alloc: Global, row: usize, rows: &[Row]) -> Result<(), AllocError> {
    let script = joined(alloc, rows, false)?;
    let answers = joined(alloc, rows, true)?;
    ends(
        rt,
        row,
        replayed(alloc, script.as_slice()),
        Ok(()),
        answers.as_slice(),
    );
    Ok(())
}

#[test]
fn each_line_has_its_answer(rt: HostRuntime) -> Result<(), Fail> {
    for (number, rows) in [
        TWO_WRITES.as_slice(),
        READ_BETWEEN_WRITES.as_slice(),
        STRANGERS.as_slice(),
        REFUSED_REQUESTS.as_slice(),
        FAR_BEHIND_THE_END.as_slice(),
        LOGGED.as_slice(),
        LONGEST.as_slice(),
        DISKS.as_slice(),
        EDGES.as_slice(),
    ]
    .iter()
    .enumerate()
    {
        answers_all(&rt, rt.alloc(), number, rows)?;
    }
    Ok(())
}

static FAULTS: [(CliFault, &str, u8); 9] = [
    (CliFault::Line(3), "ahci: line 3: not understood", 1),
    (CliFault::Job(0), "ahci: job 0: bad count or address", 1),
    (CliFault::Read, "ahci: input failed", 1),
    (CliFault::Write, "ahci: output failed", 1),
    (CliFault::CheckRead, "ahci: input failed", 4),
    (CliFault::CheckWrite, "ahci: output failed", 4),
    (CliFault::Unsettled, "ahci: run not settled", 1),
    (CliFault::Lost(7), "ahci: run not settled", 1),
    (CliFault::OutOfMemory, "ahci: out of memory", 3),
];

#[test]
fn each_fault_has_its_text_and_its_status(rt: HostRuntime) -> Result<(), Fail> {
    for (row, (fault, text, status)) in FAULTS.iter().enumerate() {
        let said = format!(in rt.alloc(); "{fault}")?;
        equal_bytes(&rt, row, said.as_bytes(), text.as_bytes());
        equal(&rt, row, &fault.status(), status);
    }
    Ok(())
}
