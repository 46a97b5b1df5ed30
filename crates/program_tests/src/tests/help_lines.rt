//! What help says.
use crate::tests::command_line::told;
use clap::error::ErrorKind;
use std::alloc::Global;
use std::process::Abort;
use std::test::Fail;

/// What the help of `trace` says of its flag, and its examples.
const TRACE_HELP: &[&str] = &[
    "\n      --json",
    "Write one JSON object a line, for tools, in place of the text\n",
    "| ahci trace\n",
    "| ahci trace --json\n",
];

/// What the help of `run` says of each option, of jobs, of what is written and of the statuses.
const RUN_HELP: &[&str] = &[
    "\n      --workers <NUMBER>",
    "each a thread: 1 to 32\n",
    "\n      --depth <NUMBER>",
    "each for one command: 1 to 32\n",
    "\n      --sectors <NUMBER>",
    "the disk has: 1 to 131072\n",
    "\n      --pick <PICK>",
    "[default: low]",
    "[possible values: low, high, all]\n",
    "\n  write LBA N BB ",
    "\n  read LBA N ",
    "\n  wrote ",
    "\n  read BB .. ",
    "\n  failed EE LBA ",
    "\n  sector LBA BB ",
    "\n  0  ",
    "\n  1  ",
    "\n  2  ",
    "\n  3  ",
    "| ahci run --workers 2 --depth 2 --sectors 8\n",
];

/// What the help of `identify` says of its options, its text and its statuses.
const IDENTIFY_HELP: &[&str] = &[
    "the disk has: 1 to 131072\n",
    "each with a tag: 1 to 32\n",
    "\n      --raw",
    "\n  word WWW  VVVV  NAME ",
    "\n  0  the page is written\n  1  output failed\n",
    "\n  3  ",
    "| od -An -v -tx2 --endian=little\n",
];

/// What the help of `log` says of them.
const LOG_HELP: &[&str] = &[
    "that failed: 0 to 31\n",
    "\n      --error <EE>",
    "two hexadecimal digits, as 40 (UNC)",
    "sector: 0 to 281474976710655\n",
    "\n  byte NNN  VV  NAME ",
    "\n  2  the command line was wrong\n",
    "\n  3  ",
    "| od -Ax -tx1\n",
];

/// Lines that get help, and its parts.
static HELP: [(&str, &[&str]); 13] = [
    ("ahci --help", &["replay    Read a script"]),
    ("ahci -h", &["Usage: ahci <COMMAND>"]),
    ("ahci replay --help", &["collect T K      take the answer"]),
    ("ahci replay -h", &["| ahci replay"]),
    ("ahci trace -h", &["Usage: ahci trace [OPTIONS]"]),
    (
        "ahci run --workers 2 -h",
        &["Usage: ahci run [OPTIONS] --workers <NUMBER> --depth <NUMBER> --sectors <NUMBER>"],
    ),
    (
        "ahci log --tag 3 --error 40 --lba 7 -h",
        &["Usage: ahci log [OPTIONS] --tag <NUMBER> --error <EE> --lba <NUMBER>"],
    ),
    ("ahci trace --help", TRACE_HELP),
    ("ahci trace -h", TRACE_HELP),
    ("ahci run --help", RUN_HELP),
    ("ahci run -h", RUN_HELP),
    ("ahci identify --help", IDENTIFY_HELP),
    ("ahci log --help", LOG_HELP),
];

/// A line gets help that has each of these parts, and ends with one line feed.
fn helps(rt: &impl Abort, alloc: Global, line: &str, parts: &[&'static str]) -> Result<(), Fail> {
    let (kind, text) = told(alloc, line)?;
    let text = text.as_str();
    assert_eq!(rt; kind, ErrorKind::DisplayHelp, "{line}");
    assert!(rt; text.ends_with('\n') && !text.ends_with("\n\n"), "{line}");
    for part in parts {
        assert!(rt; text.contains(*part), "{line}: {part}");
    }
    Ok(())
}

#[test]
fn help_has_its_options_its_text_its_examples_and_its_statuses(
    rt: HostRuntime,
) -> Result<(), Fail> {
    for (line, parts) in HELP {
        helps(&rt, rt.alloc(), line, parts)?;
    }
    Ok(())
}

/// The commands of a script, as help shows them.
static COMMANDS: [&str; 18] = [
    "disk S D",
    "disk S D F",
    "write T LBA N BB",
    "read T LBA N",
    "raw T H B",
    "accept T",
    "serve T T ..",
    "fail T EE LBA",
    "collect T K",
    "recover",
    "reissue T",
    "identify W",
    "flush",
    "reg OFF",
    "ack MASK",
    "show LBA",
    "journal",
    "trim",
];

#[test]
fn help_has_a_line_for_each_command_of_a_script(rt: HostRuntime) -> Result<(), Fail> {
    let (_kind, text) = told(rt.alloc(), "ahci replay --help")?;
    for command in COMMANDS {
        let shown = format!(in rt.alloc(); "\n  {command} ")?;
        assert!(rt; text.as_str().contains(shown.as_str()), "{command}");
    }
    Ok(())
}
