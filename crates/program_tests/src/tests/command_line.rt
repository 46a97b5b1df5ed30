//! What is said of a wrong command line.
use ahci_args::{asked, not_text};
use clap::error::ErrorKind;
use std::alloc::Global;
use std::process::Abort;
use std::test::Fail;

/// The words of a command line.
pub fn words(alloc: Global, line: &str) -> Result<Vec<String>, Fail> {
    let mut all = Vec::new(alloc);
    for word in line.split_whitespace() {
        all.push(String::from_str(alloc, word)?)?;
    }
    Ok(all)
}

/// What a line that asks for nothing gets: its kind and its text.
pub fn told(alloc: Global, line: &str) -> Result<(ErrorKind, String), Fail> {
    let words = words(alloc, line)?;
    let error = asked(alloc, words.as_slice()).err().ok_or("asked")?;
    Ok((error.kind(), format!(in alloc; "{error}")?))
}

/// An error's kind, and lines that get it, each with a part of the text.
pub type Kind = (ErrorKind, &'static [(&'static str, &'static str)]);

pub const MISSING: ErrorKind = ErrorKind::MissingRequiredArgument;

pub const TWICE: ErrorKind = ErrorKind::ArgumentConflict;

pub const RANGE: ErrorKind = ErrorKind::ValueValidation;

/// Each line gets an error of its kind, whose text has the part and ends with one line feed. Before its words come the
/// first ones.
pub fn are_told(rt: &impl Abort, alloc: Global, first: &str, kinds: &[Kind]) -> Result<(), Fail> {
    for (wanted, rows) in kinds {
        for (rest, part) in *rows {
            let line = format!(in alloc; "{first} {rest}")?;
            let (kind, text) = told(alloc, line.as_str())?;
            let text = text.as_str();
            let ends = text.ends_with('\n') && !text.ends_with("\n\n");
            let found = (kind, text.contains(*part), ends);
            assert_eq!(rt; found, (*wanted, true, true), "{line}");
        }
    }
    Ok(())
}

static WRONG: [Kind; 6] = [
    (
        ErrorKind::DisplayVersion,
        &[("ahci --version", "ahci 1.1.0\n")],
    ),
    (
        ErrorKind::MissingSubcommand,
        &[("ahci", "requires a subcommand")],
    ),
    (
        ErrorKind::InvalidSubcommand,
        &[("ahci runs", "unrecognized subcommand 'runs'")],
    ),
    (
        ErrorKind::UnknownArgument,
        &[
            ("ahci --replay", "unexpected argument '--replay'"),
            ("ahci replay replay", "Usage: ahci replay < SCRIPT"),
            ("ahci replay --version", "Usage: ahci replay < SCRIPT"),
            ("ahci trace --json 1", "unexpected argument '1'"),
            ("ahci trace --raw", "unexpected argument '--raw'"),
            ("ahci replay --json", "unexpected argument '--json'"),
        ],
    ),
    (TWICE, &[("ahci trace --json --json", "--json")]),
    (
        ErrorKind::TooManyValues,
        &[("ahci trace --json=1", "--json")],
    ),
];

#[test]
fn wrong_words_are_told_in_clap_s_words(rt: HostRuntime) -> Result<(), Fail> {
    are_told(&rt, rt.alloc(), "", WRONG.as_slice())?;
    let error = not_text(rt.alloc()).map_err(|_| "no error")?;
    assert_eq!(rt; error.kind(), ErrorKind::InvalidValue);
    Ok(())
}
