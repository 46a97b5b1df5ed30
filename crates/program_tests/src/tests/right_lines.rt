//! What good lines ask for.
use crate::tests::command_line::words;
use ahci_args::{Asked, Pick, RunForm, asked};
use std::alloc::Global;
use std::process::Abort;
use std::test::Fail;

/// A run on few slots.
const LOW: Asked = Asked::Run {
    workers: 2,
    depth: 3,
    sectors: 4,
    pick: Pick::Low,
    form: RunForm::Text,
};

const HIGH: Asked = Asked::Run {
    workers: 2,
    depth: 3,
    sectors: 4,
    pick: Pick::High,
    form: RunForm::Text,
};

const ALL: Asked = Asked::Run {
    workers: 2,
    depth: 3,
    sectors: 4,
    pick: Pick::All,
    form: RunForm::Text,
};

const SMALLEST: Asked = Asked::Run {
    workers: 1,
    depth: 1,
    sectors: 1,
    pick: Pick::Low,
    form: RunForm::Text,
};

const LARGEST: Asked = Asked::Run {
    workers: 32,
    depth: 32,
    sectors: 131_072,
    pick: Pick::Low,
    form: RunForm::Text,
};

const TEXT: Asked = Asked::Trace { json: false };

const JSON: Asked = Asked::Trace { json: true };

const IMAGE: Asked = Asked::Run {
    workers: 2,
    depth: 3,
    sectors: 4,
    pick: Pick::Low,
    form: RunForm::Image,
};

const CHECK: Asked = Asked::Check {
    jobs: false,
    json: false,
};

const CHECK_ALL: Asked = Asked::Check {
    jobs: true,
    json: true,
};

const DRAW: Asked = Asked::Draw {
    from: 0,
    to: u64::MAX,
};

const DRAW_PART: Asked = Asked::Draw { from: 7, to: 12 };

/// Lines that ask for a script, for a picture or for a run.
static RIGHT: [(&str, Asked); 18] = [
    ("ahci replay", Asked::Replay),
    ("ahci replay --", Asked::Replay),
    ("ahci trace", TEXT),
    ("ahci trace --json", JSON),
    ("ahci trace --json --", JSON),
    ("ahci check", CHECK),
    ("ahci check --json --jobs", CHECK_ALL),
    ("ahci draw", DRAW),
    ("ahci draw --", DRAW),
    ("ahci draw --to 12 --from=7", DRAW_PART),
    ("ahci run --workers 2 --depth 3 --sectors 4", LOW),
    (
        "ahci run --pick high --sectors=4 --depth=3 --workers=2",
        HIGH,
    ),
    ("ahci run --depth 3 --workers 2 --pick=low --sectors 4", LOW),
    ("ahci run --depth 3 --workers 2 --sectors 4 --pick all", ALL),
    ("ahci run --image --workers 2 --depth 3 --sectors 4", IMAGE),
    ("ahci run --workers +2 --depth 0003 --sectors 4 --", LOW),
    ("ahci run --workers 1 --depth 1 --sectors 1", SMALLEST),
    ("ahci run --workers 32 --depth 32 --sectors 131072", LARGEST),
];

/// A line asks for this.
fn asks(rt: &impl Abort, alloc: Global, line: &str, wanted: Asked) -> Result<(), Fail> {
    let words = words(alloc, line)?;
    let found = asked(alloc, words.as_slice()).ok();
    assert_eq!(rt; found, Some(wanted), "{line}");
    Ok(())
}

#[test]
fn a_line_asks_for_a_script_or_for_a_run_with_its_options(rt: HostRuntime) -> Result<(), Fail> {
    for (line, wanted) in RIGHT {
        asks(&rt, rt.alloc(), line, wanted)?;
    }
    Ok(())
}

/// Lines that ask for the identify page: sectors, depth, and whether its bytes are asked for.
static IDENTIFYING: [(&str, u32, u32, bool); 4] = [
    ("ahci identify --sectors 1000 --depth 32", 1000, 32, false),
    (
        "ahci identify --depth=+32 --sectors=01000 --",
        1000,
        32,
        false,
    ),
    ("ahci identify --raw --sectors 1 --depth 1", 1, 1, true),
    (
        "ahci identify --sectors 131072 --raw --depth 32",
        131_072,
        32,
        true,
    ),
];

/// Lines that ask for the log's page: tag, error, LBA, and whether its bytes are asked for.
static LOGGING: [(&str, u8, u8, u64, bool); 5] = [
    ("ahci log --tag 3 --error 40 --lba 7", 3, 0x40, 7, false),
    ("ahci log --lba=07 --error=40 --tag=+3", 3, 0x40, 7, false),
    ("ahci log --tag 0 --error 00 --lba 0 --raw", 0, 0, 0, true),
    (
        "ahci log --tag 31 --error fa --lba 281474976710655",
        31,
        0xFA,
        LAST,
        false,
    ),
    (
        "ahci log --tag 31 --error Fa --lba 281474976710655",
        31,
        0xFA,
        LAST,
        false,
    ),
];

const LAST: u64 = 281_474_976_710_655;

#[test]
fn a_line_asks_for_a_page_with_its_options(rt: HostRuntime) -> Result<(), Fail> {
    for (line, sectors, depth, raw) in IDENTIFYING {
        let wanted = Asked::Identify {
            sectors,
            depth,
            raw,
        };
        asks(&rt, rt.alloc(), line, wanted)?;
    }
    for (line, tag, error, lba, raw) in LOGGING {
        let wanted = Asked::Log {
            tag,
            error,
            lba,
            raw,
        };
        asks(&rt, rt.alloc(), line, wanted)?;
    }
    Ok(())
}
