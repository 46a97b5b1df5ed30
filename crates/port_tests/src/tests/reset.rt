//! A port that is reset: requests in each phase are dropped, and the port goes on as a new one over its image.
use super::story::Row::{
    Accepts, Collect, Entries, Flush, Identify, Issue, Received, Recover, Register, Reissue, Reset,
    Sector, Serves, Step,
};
use super::story::{Row, goes_on, image_of};
use ahci_port::Stepped::Failed;
use ahci_port::{
    CollectFault, MOST_FIRST, Port, RecoverFault, ReissueFault, ResetFault, StepFault,
};
use ncq_journal::Outcome;
use std::test::Fail;
use test_helpers::FAIL_1;
use test_helpers::TableStep::{Accept, Serve};

/// Tag 0 is done, tag 1 accepted and tag 2 issued.
pub const DROPPED: &[Row] = &[
    Issue(0, 1, Some(0xAA), Ok(0)),
    Issue(1, 2, Some(0xBB), Ok(1)),
    Issue(2, 3, Some(0xCC), Ok(2)),
    Accepts(&[0, 1], 3),
    Serves(&[0], 5, 1),
    Reset(Ok(6)),
    Entries(0),
    Sector(1, 0xAA),
    Sector(2, 0),
    Sector(3, 0),
    Register(0x134, Ok(0)),
    Register(0x138, Ok(0)),
    Register(0x110, Ok(0)),
    Received(0x40, [0; 8]),
    Received(0x58, [0; 8]),
    Collect(0, 0, Err(CollectFault::Stranger)),
    Step(Accept(2), Err(StepFault::NotIssued)),
    Step(Serve(&[1]), Err(StepFault::NotAccepted)),
    Issue(1, 2, Some(0xDD), Ok(6)),
    Collect(1, 1, Err(CollectFault::Stranger)),
    Accepts(&[1], 7),
    Serves(&[1], 8, 1),
    Collect(1, 6, Ok((8, Outcome::Wrote, 0xDD))),
    Sector(2, 0xDD),
    Entries(4),
];

/// Tag 1 is broken, and tag 0 waits.
pub const HALTED: &[Row] = &[
    Identify(75, Ok([1, 0])),
    Issue(0, 0, Some(0x11), Ok(1)),
    Issue(1, 0, Some(0x22), Ok(2)),
    Accepts(&[1], 3),
    Step(FAIL_1, Ok(Failed(4))),
    Register(0x120, Ok(0x4041)),
    Reset(Ok(5)),
    Register(0x120, Ok(0x40)),
    Register(0x110, Ok(0)),
    Recover(Err(RecoverFault::NotHalted)),
    Flush(Ok(())),
    Issue(1, 0, Some(0x33), Ok(6)),
    Accepts(&[1], 7),
    Serves(&[1], 8, 1),
    Collect(1, 6, Ok((8, Outcome::Wrote, 0x33))),
    Sector(0, 0x33),
];

/// Tag 1 has failed and is done, and tag 0 is held.
pub const HELD: &[Row] = &[
    Issue(0, 0, Some(0x11), Ok(0)),
    Issue(1, 0, Some(0x22), Ok(1)),
    Accepts(&[0, 1], 2),
    Step(FAIL_1, Ok(Failed(4))),
    Recover(Ok(1)),
    Reset(Ok(6)),
    Reissue(0, Err(ReissueFault::NotHeld)),
    Collect(1, 1, Err(CollectFault::Stranger)),
    Issue(0, 0, None, Ok(6)),
    Accepts(&[0], 7),
    Serves(&[0], 8, 1),
    Collect(0, 6, Ok((8, Outcome::Read, 0))),
    Reset(Ok(4)),
    Reset(Ok(0)),
    Issue(0, 0, None, Ok(10)),
];

/// Numbers begin with the highest of a first entry.
const SPENT: &[Row] = &[
    Reset(Ok(0)),
    Issue(0, 0, Some(0x11), Ok(MOST_FIRST)),
    Reset(Err(ResetFault::Spent)),
    Register(0x138, Ok(1)),
    Accepts(&[0], MOST_FIRST + 1),
    Entries(2),
];

#[test]
fn a_port_whose_numbers_are_spent_is_not_reset(rt: HostRuntime) -> Result<(), Fail> {
    let mut port = Port::resume(rt.alloc(), image_of(rt.alloc(), 8)?, 2, MOST_FIRST)?;
    goes_on(&rt, rt.alloc(), &mut port, "numbers are spent", SPENT)
}
