//! What is said of wrong command lines of `identify` and `log`.
use crate::tests::command_line::{Kind, MISSING, RANGE, TWICE, are_told};
use clap::error::ErrorKind;
use std::test::Fail;

/// What is said of an error byte that is none.
const BYTE: &str = "invalid value for '--error <EE>': it is two hexadecimal digits";

/// Lines that are wrong in one place, after `ahci`.
static WRONG: [Kind; 5] = [
    (
        MISSING,
        &[
            ("identify", "--sectors <NUMBER>"),
            ("identify --sectors 8", "--depth <NUMBER>"),
            ("log --error 40 --lba 7", "--tag <NUMBER>"),
            ("log --tag 3 --lba 7", "--error <EE>"),
            ("log --tag 3 --error 40", "--lba <NUMBER>"),
        ],
    ),
    (
        RANGE,
        &[
            ("identify --sectors 0 --depth 4", "0 is not in 1..=131072"),
            (
                "identify --sectors 131073 --depth 4",
                "131073 is not in 1..=131072",
            ),
            ("identify --sectors 8 --depth 0", "0 is not in 1..=32"),
            ("identify --sectors 8 --depth 33", "33 is not in 1..=32"),
            ("log --tag 32 --error 40 --lba 7", "32 is not in 0..=31"),
            (
                "log --tag=-0 --error 40 --lba 7",
                "invalid digit found in string",
            ),
            (
                "log --tag 3 --error 40 --lba 281474976710656",
                "281474976710656 is not in 0..=281474976710655",
            ),
            (
                "log --tag 3 --error 40 --lba 99999999999999999999",
                "number too large",
            ),
            ("log --tag 3 --error 40 --lba 7x", "invalid digit"),
            ("log --tag 3 --error 4 --lba 7", BYTE),
            ("log --tag 3 --error 040 --lba 7", BYTE),
            ("log --tag 3 --error +4 --lba 7", BYTE),
            ("log --tag 3 --error 4g --lba 7", BYTE),
            (
                "log --tag 3 --error=0x40 --lba 7",
                "Usage: ahci log [OPTIONS] --tag <NUMBER> --error <EE> --lba <NUMBER>",
            ),
            ("log --tag 3 --error= --lba 7", BYTE),
        ],
    ),
    (
        TWICE,
        &[
            ("identify --sectors 8 --depth 4 --depth 4", "--depth"),
            ("identify --sectors 8 --depth 4 --raw --raw", "--raw"),
            ("log --tag 3 --error 40 --error 40 --lba 7", "--error"),
        ],
    ),
    (
        ErrorKind::TooManyValues,
        &[("identify --sectors 8 --depth 4 --raw=1", "--raw")],
    ),
    (
        ErrorKind::UnknownArgument,
        &[
            (
                "identify --sectors 8 --depth 4 page.bin",
                "unexpected argument 'page.bin'",
            ),
            (
                "identify --sectors 8 --depth 4 --tag 1",
                "unexpected argument '--tag'",
            ),
        ],
    ),
];

#[test]
fn a_wrong_page_is_told_what_is_wrong(rt: HostRuntime) -> Result<(), Fail> {
    are_told(&rt, rt.alloc(), "ahci", WRONG.as_slice())
}
