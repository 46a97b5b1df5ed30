//! Readers and writers that give and take little at once, or fail, and the limits of lines and input.
use super::{CliFault, Replayed, TWO_WRITES, ends, joined, replay};
use crate::tests::table::equal;
use std::alloc::{AllocError, Global};
use std::cell::Cell;
use std::io;
use std::io::{Read, Write};
use std::process::Abort;
use std::test::Fail;
use test_helpers::{ReadFailure, Source};

/// How a writer fails.
#[derive(Clone, Copy)]
enum Failure {
    Never,
    Write,
    TakesNone,
    Flush,
}

/// A writer that takes at most `step` bytes at once, and fails after `calls` good writes.
#[derive(Drop)]
struct Sink {
    written: Vec<u8>,
    step: usize,
    calls: u64,
    failure: Failure,
}

impl Write for Sink {
    fn write(&mut self, buf: &[u8]) -> io::Result<usize> {
        match self.failure {
            Failure::Write if self.calls == 0 => {
                return Err(io::Error::from(io::ErrorKind::Interrupted));
            }
            Failure::TakesNone if self.calls == 0 => return Ok(0),
            _ => {}
        }
        self.calls = self.calls.saturating_sub(1);
        let count = self.step.min(buf.len());
        self.written.extend_from_slice(&buf[..count])?;
        Ok(count)
    }

    fn flush(&mut self) -> io::Result<()> {
        match self.failure {
            Failure::Flush if self.calls == 0 => Err(io::Error::from(io::ErrorKind::Other)),
            _ => Ok(()),
        }
    }
}

/// What a script comes to that is given in steps, and after which a read fails where it must.
fn from_source(alloc: Global, bytes: &[u8], step: usize, fails: bool) -> Replayed {
    let failure = if fails {
        ReadFailure::AtTheEnd
    } else {
        ReadFailure::Never
    };
    let mut reader = Source {
        bytes,
        step,
        failure,
    };
    let mut written = Vec::new(alloc);
    let outcome = replay(alloc, &mut reader, &mut written);
    (written, outcome)
}

/// A third line of so many bytes, and what follows it.
static LINES: [(usize, &[u8], Result<(), CliFault>); 5] = [
    (4096, b"", Ok(())),
    (4096, b"\n", Ok(())),
    (4097, b"", Err(CliFault::Line(3))),
    (4097, b"\n", Err(CliFault::Line(3))),
    (4096, b"\njournal", Err(CliFault::Line(4))),
];

/// A script whose third line is a comment of so many bytes.
fn with_comment(alloc: Global, length: usize, end: &[u8]) -> Result<Vec<u8>, AllocError> {
    let mut script = Vec::from_slice(alloc, b"disk 0 0\n\n")?;
    script.extend_from_slice(vec![in alloc; b'#'; length]?.as_slice())?;
    script.extend_from_slice(end)?;
    Ok(script)
}

#[test]
fn a_line_has_at_most_4096_bytes(rt: HostRuntime) -> Result<(), Fail> {
    for (row, (length, end, ending)) in LINES.iter().enumerate() {
        let script = with_comment(rt.alloc(), *length, end)?;
        let fails = *ending == Err(CliFault::Line(3));
        for step in [1, 4096, 1_000_000] {
            let found = from_source(rt.alloc(), script.as_slice(), step, fails);
            ends(&rt, row, found, *ending, b"refused BadSize\n");
        }
    }
    Ok(())
}

// What came of a line says nothing before the rest of it has come.
#[test]
fn a_line_may_come_byte_by_byte(rt: HostRuntime) {
    let script =
        b"disk 1000 32\n# a comment of more than twenty bytes\nwrite 00000000000000000005 00000000000000000003 1 aa\njournal\n";
    for step in [1, 2, 21, 1000] {
        let found = from_source(rt.alloc(), script, step, false);
        ends(
            &rt,
            step,
            found,
            Ok(()),
            b"disk 1000 32\nissued 0\njournal 1\n",
        );
    }
}

#[test]
fn each_comment_is_a_line_of_its_own(rt: HostRuntime) {
    for step in [1, 3, 1000] {
        let found = from_source(rt.alloc(), b"#\n#\nwrong\n", step, false);
        ends(&rt, step, found, Err(CliFault::Line(3)), b"");
        let found = from_source(rt.alloc(), b"#\n\n#\n#\nwrong", step, false);
        ends(&rt, step, found, Err(CliFault::Line(5)), b"");
    }
}

/// A line as it is typed, and how many bytes of answers are written before more is asked for.
type Typed = (&'static [u8], usize);

static DIALOGUE: [Typed; 5] = [
    (b"disk 8 4\n", 9),
    (b"# no answer\n", 9),
    (b"write 0 3 1 aa\naccept 0\n", 29),
    (b"jour", 29),
    (b"nal\n", 39),
];

/// Whoever types the next line once the answers before it can be read, and gives up where one is missing.
#[derive(Drop)]
struct Typist<'a> {
    lines: &'a [Typed],
    typed: usize,
    wanted: usize,
    written: &'a Cell<usize>,
}

impl Read for Typist<'_> {
    fn read(&mut self, buf: &mut [u8]) -> io::Result<usize> {
        if self.written.get() != self.wanted {
            return Err(io::Error::from(io::ErrorKind::Other));
        }
        let Some((line, wanted)) = self.lines.get(self.typed) else {
            return Ok(0);
        };
        let count = line.len().min(buf.len());
        buf[..count].copy_from_slice(&line[..count]);
        self.wanted = *wanted;
        self.typed = self.typed.saturating_add(1);
        Ok(count)
    }
}

/// A writer whose number of bytes the typist sees.
#[derive(Drop)]
struct Screen<'a> {
    text: Vec<u8>,
    written: &'a Cell<usize>,
}

impl Write for Screen<'_> {
    fn write(&mut self, buf: &[u8]) -> io::Result<usize> {
        self.text.extend_from_slice(buf)?;
        self.written.set(self.text.len());
        Ok(buf.len())
    }

    fn flush(&mut self) -> io::Result<()> {
        Ok(())
    }
}

#[test]
fn answers_are_written_before_more_is_asked_for(rt: HostRuntime) {
    let written = Cell::new(0);
    let mut typist = Typist {
        lines: DIALOGUE.as_slice(),
        typed: 0,
        wanted: 0,
        written: &written,
    };
    let mut screen = Screen {
        text: Vec::new(rt.alloc()),
        written: &written,
    };
    let outcome = replay(rt.alloc(), &mut typist, &mut screen);
    let answers = b"disk 8 4\nissued 0\naccepted 1\njournal 2\n";
    ends(&rt, 0, (screen.text, outcome), Ok(()), answers);
}

/// Gives the first bytes of a script, after which a read fails. The lines that came whole are answered.
fn breaks_off(rt: &impl Abort, alloc: Global, given: &[u8], step: usize) -> Result<(), AllocError> {
    let mut whole = 0usize;
    for byte in given {
        if *byte == b'\n' {
            whole = whole.saturating_add(1);
        }
    }
    let answers = joined(alloc, &TWO_WRITES[..whole.min(14)], true)?;
    let found = from_source(alloc, given, step, true);
    ends(
        rt,
        given.len(),
        found,
        Err(CliFault::Read),
        answers.as_slice(),
    );
    Ok(())
}

#[test]
fn a_failed_read_loses_no_answer_to_a_whole_line(rt: HostRuntime) -> Result<(), Fail> {
    let script = joined(rt.alloc(), TWO_WRITES.as_slice(), false)?;
    for step in [1, 5, 1000] {
        for end in 0..script.len() {
            breaks_off(&rt, rt.alloc(), &script.as_slice()[..end], step)?;
        }
    }
    Ok(())
}

/// The writer that takes so many bytes at once and fails after so many good writes, once a script was replayed to it, and what
/// the script comes to.
fn to_sink(
    alloc: Global,
    script: &[u8],
    step: usize,
    calls: u64,
    failure: Failure,
) -> (Sink, Result<(), CliFault>) {
    let mut reader = Source {
        bytes: script,
        step: 40,
        failure: ReadFailure::Never,
    };
    let mut writer = Sink {
        written: Vec::new(alloc),
        step,
        calls,
        failure,
    };
    let outcome = replay(alloc, &mut reader, &mut writer);
    (writer, outcome)
}

/// A writer that never fails takes all answers, and the script's fault ends it. Any other fails, but for one that had
/// taken all at once before.
fn may_end(failure: Failure, step: usize, outcome: Result<(), CliFault>, is_whole: bool) -> bool {
    let never = matches!(failure, Failure::Never);
    match outcome {
        Err(CliFault::Write) => !never,
        Err(CliFault::Line(15)) => is_whole && (never || step >= 1000),
        _ => false,
    }
}

/// Compares what was written with the answers, for each number of good writes.
fn fails_after_each(
    rt: &impl Abort,
    alloc: Global,
    script: &[u8],
    answers: &[u8],
    failure: Failure,
    step: usize,
) {
    for calls in 0..20 {
        let (writer, outcome) = to_sink(alloc, script, step, calls, failure);
        let written = writer.written.as_slice();
        let is_part = answers.starts_with(written);
        let ends = may_end(failure, step, outcome, written == answers);
        equal(rt, step, &(calls, is_part, ends), &(calls, true, true));
    }
}

#[test]
fn a_failed_write_leaves_a_first_part_of_the_answers(rt: HostRuntime) -> Result<(), Fail> {
    let mut script = joined(rt.alloc(), TWO_WRITES.as_slice(), false)?;
    script.extend_from_slice(b"not a line")?;
    let answers = joined(rt.alloc(), TWO_WRITES.as_slice(), true)?;
    for failure in [
        Failure::Write,
        Failure::TakesNone,
        Failure::Flush,
        Failure::Never,
    ] {
        for step in [1, 3, 1000] {
            let (script, answers) = (script.as_slice(), answers.as_slice());
            fails_after_each(&rt, rt.alloc(), script, answers, failure, step);
        }
    }
    Ok(())
}

/// How many writes a script's answers take, at most `step` bytes at once.
fn writes_of(alloc: Global, script: &[u8], step: usize) -> u64 {
    let (writer, _outcome) = to_sink(alloc, script, step, u64::MAX, Failure::Never);
    u64::MAX.wrapping_sub(writer.calls)
}

// Each write takes a byte at least, so each failure leaves more than the one before, and where a write takes one byte, one more.
#[test]
fn a_writer_may_fail_at_each_write(rt: HostRuntime) -> Result<(), Fail> {
    let script = joined(rt.alloc(), TWO_WRITES.as_slice(), false)?;
    let answers = joined(rt.alloc(), TWO_WRITES.as_slice(), true)?;
    for failure in [Failure::Write, Failure::TakesNone] {
        for step in [1, 3, 1000] {
            let writes = writes_of(rt.alloc(), script.as_slice(), step);
            assert!(rt; writes > 1 && (step > 1 || writes == answers.len() as u64));
            let mut more = 0;
            for calls in 0..=writes {
                let found = to_sink(rt.alloc(), script.as_slice(), step, calls, failure);
                let (writer, outcome) = found;
                let written = writer.written.as_slice();
                let is_whole = calls == writes;
                let wanted = if is_whole {
                    Ok(())
                } else {
                    Err(CliFault::Write)
                };
                let is_part = answers.as_slice().starts_with(written);
                let len = written.len();
                let is_right = (outcome, is_part, len >= more, len == answers.len());
                equal(
                    &rt,
                    calls as usize,
                    &is_right,
                    &(wanted, true, true, is_whole),
                );
                more = len.saturating_add(1);
            }
        }
    }
    Ok(())
}

/// A comment of 64 bytes with its line feed.
static COMMENT: &[u8; 64] = b"###############################################################\n";

/// A reader of comments.
#[derive(Drop)]
struct Comments {
    left: u64,
}

impl Read for Comments {
    fn read(&mut self, buf: &mut [u8]) -> io::Result<usize> {
        let count = self.left.min(64).min(buf.len() as u64) as usize;
        let comment = COMMENT.as_slice();
        buf[..count].copy_from_slice(&comment[64 - count..]);
        self.left -= count as u64;
        Ok(count)
    }
}

#[test]
fn the_input_has_at_most_64_mebibytes(rt: HostRuntime) {
    for (row, (left, ending)) in [(67_108_864, Ok(())), (67_108_865, Err(CliFault::Read))]
        .iter()
        .enumerate()
    {
        let comments = Comments { left: *left - 9 };
        let mut reader = b"disk 0 0\n".as_slice().chain(comments);
        let mut written = Vec::new(rt.alloc());
        let outcome = replay(rt.alloc(), &mut reader, &mut written);
        ends(&rt, row, (written, outcome), *ending, b"refused BadSize\n");
    }
}
