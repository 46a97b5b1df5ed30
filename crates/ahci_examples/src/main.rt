//! Runs each script and each job list of the examples, traces and checks each script, and compares what is written with the
//! text beside it. So it does with a picture, with two of the disk's pages, and with each page of help.
#![tactic(auto)]

ghost use Rattle.std.specs.Prelude.{◌≤◌};

use ahci_check::{Form, check};
use ahci_cli::{CliFault, Pick, StreamLog, program, replay, run_jobs};
use ahci_draw::draw;
use ahci_trace::{trace, trace_json};
use ata_pages::{write_identify, write_log};
use std::fs;
use std::rt::Files;
use std::sync::Wait;
use std::thread::Threads;

/// The scripts by name: `NAME.ahci` is the script, `NAME.out` its answers and, where they are there, `NAME.err` the fault
/// that ends it, and `NAME.check` the complaints of a check.
static SCRIPTS: [&str; 14] = [
    "any_window",
    "broken_write",
    "completed_together",
    "crowd",
    "error_in_a_queue",
    "last_sector",
    "next_number",
    "read_between_writes",
    "refused_requests",
    "registers",
    "strangers",
    "trimmed_journal",
    "two_writes",
    "unqueued_commands",
];

/// What makes a file of a whole script.
#[derive(Clone, Copy)]
enum Tool {
    /// A trace, in `NAME.trace`.
    Trace,
    /// The same as JSON, in `NAME.json`.
    Json,
    /// A picture, in `NAME.svg`.
    Draw,
}

impl Tool {
    fn ending(self) -> &'static str {
        match self {
            Tool::Trace => "trace",
            Tool::Json => "json",
            Tool::Draw => "svg",
        }
    }
}

/// The scripts that have such a file.
static MADE: [(&str, Tool); 4] = [
    ("error_in_a_queue", Tool::Trace),
    ("registers", Tool::Trace),
    ("error_in_a_queue", Tool::Json),
    ("error_in_a_queue", Tool::Draw),
];

/// Command lines that print help: what is written is in `NAME.out`. The program is called `ahci` whatever its own file is.
static HELPS: [(&str, &str); 9] = [
    ("help", "ahci --help"),
    ("help", "/usr/bin/port --help"),
    ("help_replay", "ahci replay --help"),
    ("help_trace", "ahci trace --help"),
    ("help_check", "ahci check --help"),
    ("help_draw", "ahci draw --help"),
    ("help_run", "port run --help"),
    ("help_identify", "ahci identify --help"),
    ("help_log", "ahci log --help"),
];

/// Command lines that are wrong: what is reported is in `NAME.out`.
static WRONG: [(&str, &str); 2] = [
    ("wrong_words", "ahci runs"),
    (
        "two_forms",
        "port run --workers 1 --depth 1 --sectors 1 --json --image",
    ),
];

/// A job list by its name: `NAME.jobs` is the list and `NAME.out` what it writes. Workers and depth are 1 to 32, sectors 1
/// to 131,072.
#[derive(Drop)]
struct JobList {
    name: &'static str,
    workers: u32,
    depth: u32,
    sectors: u32,
    ghost crew: { (1 ≤ workers) × (workers ≤ 32) },
    ghost slots: { (1 ≤ depth) × (depth ≤ 32) },
    ghost disk: { (1 ≤ sectors) × (sectors ≤ 131072) },
}

fn job_lists() -> [JobList; 3] {
    [
        JobList {
            name: "small_jobs",
            workers: 2,
            depth: 2,
            sectors: 8,
        },
        JobList {
            name: "failing_job",
            workers: 1,
            depth: 1,
            sectors: 8,
        },
        JobList {
            name: "crowd_of_workers",
            workers: 32,
            depth: 32,
            sectors: 64,
        },
    ]
}

fn main(rt: HostRuntime) -> anyhow::Result<()> {
    for name in SCRIPTS {
        tell(&rt, name, is_script_as_expected(&rt, name)?)?;
    }
    for (name, tool) in MADE {
        let ending = tool.ending();
        let file = format!(in rt.alloc(); "{name}.{ending}")?;
        tell(&rt, file.as_str(), is_made_as_expected(&rt, name, tool)?)?;
    }
    let lists = job_lists();
    for list in &lists[..] {
        tell(&rt, list.name, is_list_as_expected(&rt, &rt, list)?)?;
    }
    tell(&rt, "identify_page", is_identify_page_as_expected(&rt)?)?;
    tell(&rt, "error_log", is_error_log_as_expected(&rt)?)?;
    for (name, line) in HELPS {
        tell(&rt, line, is_line_as_expected(&rt, &rt, name, line, 0)?)?;
    }
    for (name, line) in WRONG {
        tell(&rt, line, is_line_as_expected(&rt, &rt, name, line, 2)?)?;
    }
    Ok(())
}

fn tell(rt: &HostRuntime, name: &str, as_expected: bool) -> anyhow::Result<()> {
    let verdict = if as_expected {
        "as expected"
    } else {
        "differs"
    };
    println!(rt; "{name}: {verdict}")?;
    Ok(())
}

/// Whether the script writes its answers and ends as it should, and a check has the complaints that it should.
fn is_script_as_expected(rt: &HostRuntime, name: &str) -> anyhow::Result<bool> {
    let alloc = rt.alloc();
    let script = fs::read(rt, format!(in alloc; "{name}.ahci")?)?;
    let mut reader = script.as_slice();
    let mut written = Vec::new(alloc);
    let outcome = replay(alloc, &mut reader, &mut written);
    Ok(
        is_told(rt, name, outcome, written.as_slice())?
            && is_traced(rt, name, script.as_slice())?
            && is_judged(rt, name, script.as_slice())?,
    )
}

/// Whether a trace of the script has the same answers, in the lines that aren't indented, and the same ending.
fn is_traced(rt: &HostRuntime, name: &str, script: &[u8]) -> anyhow::Result<bool> {
    let alloc = rt.alloc();
    let mut reader = script;
    let mut written = Vec::new(alloc);
    let outcome = trace(alloc, &mut reader, &mut written).map_err(CliFault::from);
    let mut answers = Vec::new(alloc);
    for line in written.as_slice().split(|byte| *byte == b'\n') {
        if !line.is_empty() && !line.starts_with(b"  ") {
            answers.extend_from_slice(line)?;
            answers.push(b'\n')?;
        }
    }
    is_told(rt, name, outcome, answers.as_slice())
}

/// Whether what the tool makes of the script is in its file.
fn is_made_as_expected(rt: &HostRuntime, name: &str, tool: Tool) -> anyhow::Result<bool> {
    let alloc = rt.alloc();
    let ending = tool.ending();
    let script = fs::read(rt, format!(in alloc; "{name}.ahci")?)?;
    let expected = fs::read(rt, format!(in alloc; "{name}.{ending}")?)?;
    let mut reader = script.as_slice();
    let mut written = Vec::new(alloc);
    let outcome = match tool {
        Tool::Trace => trace(alloc, &mut reader, &mut written),
        Tool::Json => trace_json(alloc, &mut reader, &mut written),
        Tool::Draw => draw(alloc, 0, u64::MAX, &mut reader, &mut written),
    };
    Ok(outcome.is_ok() && written.as_slice() == expected.as_slice())
}

/// Whether a check of the script writes the text of `NAME.check`, or nothing where that isn't there.
fn is_judged(rt: &HostRuntime, name: &str, script: &[u8]) -> anyhow::Result<bool> {
    let alloc = rt.alloc();
    let expected = fs::read_to_string(rt, format!(in alloc; "{name}.check")?);
    let expected = expected.unwrap_or(String::new(alloc));
    let mut reader = script;
    let mut written = Vec::new(alloc);
    let Ok(any) = check(alloc, Form::Text, &mut reader, &mut written) else {
        return Ok(false);
    };
    Ok(written.as_slice() == expected.as_bytes() && any != expected.is_empty())
}

/// Whether the job list writes its results, and ends as it should.
fn is_list_as_expected<T: Threads + Wait + Sync>(
    rt: &HostRuntime,
    threads: &T,
    list: &JobList,
) -> anyhow::Result<bool> {
    let alloc = rt.alloc();
    let name = list.name;
    let jobs = fs::read(rt, format!(in alloc; "{name}.jobs")?)?;
    let mut reader = jobs.as_slice();
    let mut written = Vec::new(alloc);
    let outcome = run_jobs(
        threads,
        alloc,
        list.workers,
        list.depth,
        list.sectors,
        Pick::Low,
        &mut reader,
        &mut written,
    );
    is_told(rt, name, outcome, written.as_slice())
}

/// Whether the identify page of 1,000 sectors and 32 tags is the text of `identify_page.out`.
fn is_identify_page_as_expected(rt: &HostRuntime) -> anyhow::Result<bool> {
    let mut written = Vec::new(rt.alloc());
    let outcome = write_identify(rt.alloc(), 1000, 32, false, &mut written);
    let outcome = outcome.map_err(CliFault::from);
    is_told(rt, "identify_page", outcome, written.as_slice())
}

/// Whether the log's page of tag 3, which failed with error 40h at sector 7, is the text of `error_log.out`.
fn is_error_log_as_expected(rt: &HostRuntime) -> anyhow::Result<bool> {
    let mut written = Vec::new(rt.alloc());
    let outcome = write_log(rt.alloc(), 3, 0x40, 7, false, &mut written);
    let outcome = outcome.map_err(CliFault::from);
    is_told(rt, "error_log", outcome, written.as_slice())
}

/// Whether a command line ends with this status, and writes the text of `NAME.out`.
fn is_line_as_expected<T: Threads + Wait + Sync>(
    rt: &HostRuntime,
    threads: &T,
    name: &str,
    line: &str,
    status: u8,
) -> anyhow::Result<bool> {
    let alloc = rt.alloc();
    let expected = fs::read(rt, format!(in alloc; "{name}.out")?)?;
    let mut words = Vec::new(alloc);
    for word in line.split_whitespace() {
        words.push(String::from_str(alloc, word)?)?;
    }
    let mut reader = b"".as_slice();
    let mut written = Vec::new(alloc);
    let mut told = Vec::new(alloc);
    let ended = program(
        threads,
        alloc,
        words.as_slice(),
        &mut reader,
        &mut written,
        &mut told,
        &mut StreamLog::new(),
    );
    written.extend_from_slice(told.as_slice())?;
    Ok(ended == status && written.as_slice() == expected.as_slice())
}

/// Whether this is the text of `NAME.out`, and the outcome that of `NAME.err`, or none where that isn't there.
fn is_told(
    rt: &HostRuntime,
    name: &str,
    outcome: Result<(), CliFault>,
    written: &[u8],
) -> anyhow::Result<bool> {
    let alloc = rt.alloc();
    let answers = fs::read(rt, format!(in alloc; "{name}.out")?)?;
    let fault = fs::read_to_string(rt, format!(in alloc; "{name}.err")?);
    let ending = match outcome {
        Ok(()) => String::new(alloc),
        Err(fault) => format!(in alloc; "{fault}\n")?,
    };
    let fault = fault.unwrap_or(String::new(alloc));
    Ok(written == answers.as_slice() && ending.as_str() == fault.as_str())
}
