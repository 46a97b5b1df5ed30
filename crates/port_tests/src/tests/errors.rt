//! Errors in a queue, and what comes after them.
use super::story::Row;
use super::story::Row::{
    Accepts, Collect, Failure, Flush, Issue, Recover, Register, Reissue, Sector, Serves, Step,
};
use ahci_port::Stepped::Failed;
use ahci_port::{CollectFault, IssueFault, PlainFault, RecoverFault, ReissueFault, StepFault};
use ncq_journal::Outcome;
use test_helpers::TableStep::{Accept, Serve};
use test_helpers::{FAIL_0, FAIL_1, FAIL_1_AT_7, FAIL_1_AT_8};

pub const ERROR_IN_A_QUEUE: &[Row] = &[
    Issue(0, 0, None, Ok(0)),
    Issue(1, 7, None, Ok(1)),
    Issue(2, 9, Some(0x5A), Ok(2)),
    Accepts(&[0, 1, 2], 3),
    Step(FAIL_1_AT_8, Err(StepFault::OutsideCommand)),
    Step(FAIL_1_AT_7, Ok(Failed(6))),
    Register(0x120, Ok(0x4041)),
    Register(0x134, Ok(7)),
    Register(0x138, Ok(0)),
    Register(0x110, Ok(0x4000_0008)),
    Step(Serve(&[0]), Err(StepFault::Halted)),
    Recover(Ok(1)),
    Register(0x120, Ok(0x40)),
    Register(0x134, Ok(0)),
    Register(0x110, Ok(2)),
    Recover(Err(RecoverFault::NotHalted)),
    Failure(1, 1, (6, 0x40, 7), 0),
    Reissue(1, Err(ReissueFault::NotHeld)),
    Reissue(0, Ok(())),
    Reissue(2, Ok(())),
    Accepts(&[0], 11),
    Serves(&[0], 12, 1),
    Accepts(&[2], 13),
    Serves(&[2], 14, 1),
    Collect(0, 0, Ok((12, Outcome::Read, 0))),
    Sector(9, 0x5A),
];

pub const LAST_SECTOR: &[Row] = &[
    Issue(0, 7, None, Ok(0)),
    Accepts(&[0], 1),
    Serves(&[0], 2, 1),
    Issue(1, 8, Some(0xFF), Ok(3)),
    Step(Accept(1), Ok(Failed(4))),
    Register(0x120, Ok(0x1041)),
    Register(0x134, Ok(2)),
    Register(0x138, Ok(2)),
    Register(0x110, Ok(0x4000_0009)),
    Recover(Ok(1)),
    Failure(1, 3, (4, 0x10, 8), 0xFF),
];

pub const HELD: &[Row] = &[
    Issue(0, 0, Some(0x11), Ok(0)),
    Issue(1, 0, Some(0x22), Ok(1)),
    Accepts(&[1], 2),
    Step(FAIL_0, Err(StepFault::NotAccepted)),
    Step(FAIL_1, Ok(Failed(3))),
    Register(0x134, Ok(3)),
    Register(0x138, Ok(1)),
    Flush(Err(PlainFault::Halted)),
    Collect(0, 0, Err(CollectFault::NotYet)),
    Recover(Ok(1)),
    Issue(1, 0, Some(0x33), Err(IssueFault::SlotOwned)),
    Flush(Ok(())),
    Reissue(0, Ok(())),
    Accepts(&[0], 7),
    Serves(&[0], 8, 1),
    Sector(0, 0x11),
];
