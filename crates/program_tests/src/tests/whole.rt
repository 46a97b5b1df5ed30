//! The program as one function: for each kind of command line what it writes, what it says on standard error, and its status.
use crate::tests::status::status_of;
use crate::tests::wanted::Wanted::{Part, Text};
use ahci_cli::{StreamLog, WordsFault, program_without_words};
use ahci_script::{Line, ScriptCommand, read_line};
use cases::{CASES, Case, HELPS, NOTHING};
use std::alloc::Global;
use std::process::Abort;
use std::sync::Wait;
use std::test::Fail;
use std::thread::Threads;

mod cases;

/// Compares what the program writes for a command line and an input, what it reports, and its status.
fn meets<H>(rt: &H, alloc: Global, case: &Case) -> Result<(), Fail>
where
    H: Threads + Wait + Sync + Abort,
{
    let (line, input, output, errors, status) = case;
    let mut reader = *input;
    let mut written = Vec::new(alloc);
    let mut told = Vec::new(alloc);
    let ended = status_of(rt, alloc, line, &mut reader, &mut written, &mut told)?;
    output.meets(rt, line, written.as_slice());
    errors.meets(rt, line, told.as_slice());
    assert_eq!(rt; ended, *status, "{line}");
    Ok(())
}

#[test]
fn each_command_line_has_its_output_its_errors_and_its_status(rt: HostRuntime) -> Result<(), Fail> {
    for case in &CASES {
        meets(&rt, rt.alloc(), case)?;
    }
    for (line, input, part) in HELPS {
        meets(&rt, rt.alloc(), &(line, input, Part(part), NOTHING, 0))?;
    }
    Ok(())
}

/// What the program writes for a command line and an input.
fn output_of<H>(rt: &H, alloc: Global, line: &str, input: &[u8]) -> Result<Vec<u8>, Fail>
where
    H: Threads + Wait + Sync + Abort,
{
    let mut reader = input;
    let mut written = Vec::new(alloc);
    let mut told = Vec::new(alloc);
    let ended = status_of(rt, alloc, line, &mut reader, &mut written, &mut told)?;
    assert_eq!(rt; ended, 0);
    Ok(written)
}

/// Two workers, each on a sector of its own, and a job that fails.
const SHARED: &[u8] = b"write 0 1 11\nwrite 1 1 22\nread 3 1\nread 1 1\nread 0 1\nwrite 1 1 33\n";

#[test]
fn replay_answers_the_journal_of_a_run_with_its_sectors(rt: HostRuntime) -> Result<(), Fail> {
    let line = "ahci run --workers 2 --depth 2 --sectors 3 --pick all --journal";
    let mut script = output_of(&rt, rt.alloc(), line, SHARED)?;
    script.extend_from_slice(b"show 0\nshow 1\nshow 2\n")?;
    let answers = output_of(&rt, rt.alloc(), "ahci replay", script.as_slice())?;
    let end = b"sector 0 11\nsector 1 33\nsector 2 00\n".as_slice();
    assert!(rt; answers.as_slice().ends_with(end));
    let refused = answers
        .as_slice()
        .windows(7)
        .any(|part| part == b"refused".as_slice());
    assert!(rt; !refused);
    Ok(())
}

/// How many commands the device accepts in a script; none where a tag waits then that is to come before.
fn accepted(script: &[u8], highest: bool) -> Option<u32> {
    let (mut waiting, mut count) = (0u32, 0u32);
    for line in script.split(|byte| *byte == b'\n') {
        match read_line(line) {
            Ok(Line::Run(ScriptCommand::Read { tag, .. })) => waiting |= 1 << (tag % 32),
            Ok(Line::Run(ScriptCommand::Accept { tag })) => {
                let bit = 1 << (tag % 32);
                waiting &= !bit;
                let before = if highest { !(bit - 1) } else { bit - 1 };
                if waiting & before != 0 {
                    return None;
                }
                count = count.saturating_add(1);
            }
            _ => {}
        }
    }
    Some(count)
}

// Eight workers mostly have more than one command waiting.
#[test]
fn the_device_accepts_the_tag_that_the_words_pick(rt: HostRuntime) -> Result<(), Fail> {
    let line = "ahci run --workers 8 --depth 8 --sectors 8 --journal --pick";
    let mut jobs = Vec::new(rt.alloc());
    for _ in 0..400u32 {
        jobs.extend_from_slice(b"read 0 1\n")?;
    }
    for (pick, highest) in [("low", false), ("high", true)] {
        let line = format!(in rt.alloc(); "{line} {pick}")?;
        let script = output_of(&rt, rt.alloc(), line.as_str(), jobs.as_slice())?;
        let count = accepted(script.as_slice(), highest);
        assert_eq!(rt; count, Some(400), "{pick}");
    }
    Ok(())
}

#[test]
fn words_that_can_t_be_read_are_told(rt: HostRuntime) {
    for (name, fault, errors, status) in [
        (
            "not text",
            WordsFault::NotText,
            Text(
                "error: an argument is not text in UTF-8\n\nUsage: ahci <COMMAND>\n\nFor more information, try '--help'.\n",
            ),
            2,
        ),
        (
            "out of memory",
            WordsFault::OutOfMemory,
            Text("ahci: out of memory\n"),
            3,
        ),
    ] {
        let mut written = Vec::new(rt.alloc());
        let mut told = Vec::new(rt.alloc());
        let ended = program_without_words(
            rt.alloc(),
            fault,
            &mut written,
            &mut told,
            &mut StreamLog::new(),
        );
        NOTHING.meets(&rt, name, written.as_slice());
        errors.meets(&rt, name, told.as_slice());
        assert_eq!(rt; ended, status, "{name}");
    }
}
