//! What is said of a wrong command line of `run`.
use crate::tests::command_line::{Kind, MISSING, RANGE, TWICE, are_told};
use clap::error::ErrorKind;
use std::test::Fail;

/// Lines of `run` that are wrong in one place, after `ahci run`.
static WRONG_RUNS: [Kind; 5] = [
    (
        MISSING,
        &[
            ("", "--workers <NUMBER>"),
            ("--depth 3 --sectors 4", "--workers <NUMBER>"),
            ("--workers 2 --sectors 4", "--depth <NUMBER>"),
            ("--workers 2 --depth 3", "--sectors <NUMBER>"),
        ],
    ),
    (
        TWICE,
        &[
            ("--workers 2 --workers 2 --depth 3 --sectors 4", "--workers"),
            ("--workers 2 --depth 3 --depth 3 --sectors 4", "--depth"),
            ("--workers 2 --depth 3 --sectors 4 --sectors=5", "--sectors"),
            (
                "--workers 2 --depth 3 --sectors 4 --pick low --pick low",
                "--pick",
            ),
        ],
    ),
    (
        RANGE,
        &[
            ("--workers 0 --depth 3 --sectors 4", "0 is not in 1..=32"),
            ("--workers 33 --depth 3 --sectors 4", "33 is not in 1..=32"),
            ("--workers 2 --depth 0 --sectors 4", "0 is not in 1..=32"),
            ("--workers 2 --depth 33 --sectors 4", "33 is not in 1..=32"),
            (
                "--workers 2 --depth 3 --sectors 0",
                "0 is not in 1..=131072",
            ),
            (
                "--workers 2 --depth 3 --sectors 131073",
                "131073 is not in 1..=131072",
            ),
            ("--workers=-1 --depth 3 --sectors 4", "-1 is not in 1..=32"),
            (
                "--workers 2x --depth 3 --sectors 4",
                "invalid digit found in string",
            ),
            (
                "--workers 2 --depth 99999999999999999999 --sectors 4",
                "number too large",
            ),
        ],
    ),
    (
        ErrorKind::InvalidValue,
        &[
            (
                "--workers 2 --depth 3 --sectors 4 --pick each",
                "[possible values: low, high, all]",
            ),
            (
                "--workers 2 --depth 3 --sectors 4 --pick LOW",
                "[possible values: low, high, all]",
            ),
            (
                "--workers 2 --depth 3 --sectors",
                "a value is required for '--sectors <NUMBER>'",
            ),
        ],
    ),
    (
        ErrorKind::UnknownArgument,
        &[
            (
                "--workers 2 --depth 3 --sectors 4 jobs.txt",
                "unexpected argument 'jobs.txt'",
            ),
            (
                "--worker 2 --depth 3 --sectors 4",
                "unexpected argument '--worker'",
            ),
            ("--workers 2 --version", "unexpected argument '--version'"),
        ],
    ),
];

#[test]
fn a_wrong_run_is_told_what_is_wrong(rt: HostRuntime) -> Result<(), Fail> {
    are_told(&rt, rt.alloc(), "ahci run", WRONG_RUNS.as_slice())
}
