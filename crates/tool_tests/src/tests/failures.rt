//! A trace, as text and as JSON, a picture, and checks of a script where memory, the input or the output fails; and how much
//! memory they ask for.
use ahci_check::{Form, check, check_jobs};
use ahci_cli::CliFault;
use ahci_draw::draw;
use ahci_trace::{trace, trace_json};
use json::{Scratch, is_valid};
use refusing_allocator::{Refusals, Refusing};
use std::alloc::{Allocator, Global};
use std::io::{Read, Write};
use std::process::Abort;
use std::test::Fail;
use test_helpers::{Full, ReadFailure, Source};

#[derive(Clone, Copy, Debug, PartialEq, Eq)]
enum Tool {
    Trace,
    Json,
    Draw,
    Check,
    CheckJson,
    CheckJobs,
}

static TOOLS: [Tool; 6] = [
    Tool::Trace,
    Tool::Json,
    Tool::Draw,
    Tool::Check,
    Tool::CheckJson,
    Tool::CheckJobs,
];

/// The port refuses its last command, which a check reports.
static SCRIPT: &[u8] =
    b"disk 8 4\nwrite 0 3 1 aa\naccept 0\nserve 0\ncollect 0 0\nread 1 3 70000\n";

/// The port refuses the last two commands: the first of them is a window, whose bytes a check reads into memory.
static CHECKED: &[u8] =
    b"disk 8 4\nread 0 3 1\nraw 1 0000000000000000000000000000000000000000000000000000000000000000 00\nshow 8\n";

impl Tool {
    fn script(self) -> &'static [u8] {
        match self {
            Tool::Trace | Tool::Json | Tool::Draw => SCRIPT,
            Tool::Check | Tool::CheckJson | Tool::CheckJobs => CHECKED,
        }
    }

    /// What it reports of a read that fails, and of a write.
    fn faults(self) -> (CliFault, CliFault) {
        match self {
            Tool::Trace | Tool::Json | Tool::Draw => (CliFault::Read, CliFault::Write),
            Tool::Check | Tool::CheckJson | Tool::CheckJobs => {
                (CliFault::CheckRead, CliFault::CheckWrite)
            }
        }
    }

    fn run<R: Read, W: Write, A: Allocator + Copy>(
        self,
        alloc: A,
        reader: &mut R,
        writer: &mut W,
    ) -> Result<(), CliFault> {
        match self {
            Tool::Trace => Ok(trace(alloc, reader, writer)?),
            Tool::Json => Ok(trace_json(alloc, reader, writer)?),
            Tool::Draw => Ok(draw(alloc, 0, u64::MAX, reader, writer)?),
            Tool::Check => found(check(alloc, Form::Text, reader, writer)?),
            Tool::CheckJson => found(check(alloc, Form::Json, reader, writer)?),
            Tool::CheckJobs => found(check_jobs(alloc, Form::Text, reader, writer)?),
        }
    }
}

/// A check that finds something.
fn found(is_faulty: bool) -> Result<(), CliFault> {
    if is_faulty {
        Ok(())
    } else {
        Err(CliFault::Unsettled)
    }
}

#[test]
fn each_line_of_a_trace_as_json_is_one_value(rt: HostRuntime) -> Result<(), Fail> {
    let mut written = Vec::new(rt.alloc());
    let mut reader = SCRIPT;
    assert!(rt; trace_json(rt.alloc(), &mut reader, &mut written).is_ok());
    let text = std::str::from_utf8(written.as_slice())?;
    let mut lines: usize = 0;
    for line in text.lines() {
        assert!(rt; is_valid(line, &mut Scratch::new(rt.alloc()))?, "{line}");
        lines = lines.saturating_add(1);
    }
    assert_eq!(rt; lines, 6);
    Ok(())
}

/// Those of the first bytes of a script that are whole lines.
fn whole_lines(script: &[u8], count: usize) -> &[u8] {
    let mut end = 0;
    for index in 0..count.min(script.len()) {
        if script[index] == b'\n' {
            end = index.saturating_add(1);
        }
    }
    &script[..end.min(script.len())]
}

/// Gives a tool its script by 16 bytes at once until a read fails: what is written is what the lines come to that came whole.
fn fails_reading(
    rt: &impl Abort,
    alloc: Global,
    tool: Tool,
    reads: u32,
    failure: ReadFailure,
) -> Result<(), Fail> {
    let mut written = Vec::new(alloc);
    let mut reader = Source {
        bytes: tool.script(),
        step: 16,
        failure,
    };
    let how = tool.run(alloc, &mut reader, &mut written);
    // One read for 16 bytes, and one at the end.
    let all = tool.script().len() / 16 + 2;
    let wanted = if (reads as usize) < all {
        Err(tool.faults().0)
    } else {
        Ok(())
    };
    assert!(rt; how == wanted, "{tool:?}, {failure:?}: {how:?}");
    let mut lines = whole_lines(tool.script(), (reads as usize).saturating_mul(16));
    let mut answers = Vec::new(alloc);
    let _how = tool.run(alloc, &mut lines, &mut answers);
    if tool == Tool::Json && wanted.is_err() {
        answers.extend_from_slice(b"{\"fault\":\"input failed\"}\n")?;
    }
    assert!(rt;
        written.as_slice() == answers.as_slice(),
        "{tool:?}, {failure:?}"
    );
    Ok(())
}

#[test]
fn each_read_may_fail_for_good_or_once(rt: HostRuntime) -> Result<(), Fail> {
    for tool in TOOLS {
        for reads in 0..12u32 {
            for failure in [ReadFailure::After(reads), ReadFailure::Once(reads)] {
                fails_reading(&rt, rt.alloc(), tool, reads, failure)?;
            }
        }
    }
    Ok(())
}

#[test]
fn each_byte_may_find_no_room(rt: HostRuntime) {
    for tool in TOOLS {
        let mut whole = Vec::new(rt.alloc());
        let mut reader = tool.script();
        assert!(rt; tool.run(rt.alloc(), &mut reader, &mut whole) == Ok(()));
        for room in [0, 1, whole.len() / 2, whole.len().saturating_sub(1)] {
            let mut reader = tool.script();
            let how = tool.run(rt.alloc(), &mut reader, &mut Full { room });
            assert!(rt;
                how == Err(tool.faults().1),
                "{tool:?}, room {room}: {how:?}"
            );
        }
        let mut reader = tool.script();
        let mut writer = Full { room: whole.len() };
        let how = tool.run(rt.alloc(), &mut reader, &mut writer);
        assert!(rt; how == Ok(()) && writer.room == 0);
    }
}

/// Refuses each growth in turn, and all that follow, until none is refused. What is written then is a first part of the whole.
fn each_growth_of<A: Allocator + Copy>(rt: &impl Abort, alloc: A, tool: Tool) -> Result<(), Fail> {
    let mut whole = Vec::new(alloc);
    let mut reader = tool.script();
    assert!(rt; tool.run(alloc, &mut reader, &mut whole) == Ok(()));
    for growth in 0..1000u64 {
        let heap = Refusing::new(alloc);
        heap.refuse(Refusals::From(growth));
        let mut reader = tool.script();
        let mut written = Vec::new(alloc);
        let how = tool.run(&heap, &mut reader, &mut written);
        assert!(rt; heap.out() == 0, "{tool:?}, growth {growth}");
        if heap.refused() == 0 {
            assert!(rt; growth > 0 && how == Ok(()) && written.as_slice() == whole.as_slice());
            return Ok(());
        }
        let is_part = whole.as_slice().starts_with(written.as_slice());
        assert!(rt;
            how == Err(CliFault::OutOfMemory) && is_part,
            "{tool:?}, growth {growth}: {how:?}"
        );
    }
    Err(Fail::new("it always wants memory"))
}

#[test]
fn each_growth_may_be_refused(rt: HostRuntime) -> Result<(), Fail> {
    for tool in TOOLS {
        each_growth_of(&rt, rt.alloc(), tool)?;
    }
    Ok(())
}

/// The room of an input: for a line, and for what comes at once.
const INPUT: u64 = 4096 + 16384;

#[test]
fn an_input_without_a_line_wants_its_room_alone(rt: HostRuntime) {
    for tool in TOOLS {
        // A picture of nothing is a text too.
        if tool != Tool::Draw {
            let heap = Refusing::new(rt.alloc());
            let mut reader = b"".as_slice();
            let _how = tool.run(&heap, &mut reader, &mut Full { room: 0 });
            assert_eq!(rt; (heap.requests(), heap.bytes()), (1, INPUT), "{tool:?}");
        }
    }
}

impl Tool {
    /// How many bytes it may ask for beside its input's room. A text that it puts together has less than 4 KiB, and that of a
    /// check less than 256 bytes; there are up to three of them, and one that grows asks for less than four times its length in
    /// all. A disk of 8 sectors is in memory twice; its slots, its journal and its windows have less than 8 KiB together.
    fn most_beside(self) -> u64 {
        match self {
            Tool::Trace | Tool::Json | Tool::Draw => 12 * 4096 + 2 * 8 * 512 + 8192,
            Tool::Check | Tool::CheckJson | Tool::CheckJobs => 12 * 256,
        }
    }
}

#[test]
fn a_tool_asks_for_memory_by_the_size_of_its_disk_and_its_text(rt: HostRuntime) {
    for tool in TOOLS {
        let heap = Refusing::new(rt.alloc());
        let mut reader = tool.script();
        let mut written = Vec::new(rt.alloc());
        assert!(rt; tool.run(&heap, &mut reader, &mut written) == Ok(()));
        let beside = heap.bytes().saturating_sub(INPUT);
        assert!(rt; beside <= tool.most_beside(), "{tool:?}: {beside}");
    }
}
