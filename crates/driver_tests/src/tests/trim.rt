//! Runs on a port that was trimmed.

use crate::tests::common::{PSS, PXIS, SDBS, Way, crowd};
use crate::tests::jobs::{Jobs, commands};
use ahci_driver::{Driver, Open, RunEnd, SettleFault, TagBoard, run, settle};
use ahci_port::Port;
use ncq_journal::Journal;
use std::alloc::Global;
use std::process::Abort;
use std::sync::Wait;
use std::test::Fail;
use std::thread::Threads;

/// Four workers do these jobs.
fn goes<R: Threads + Wait + Sync>(
    rt: &R,
    alloc: Global,
    port: Port,
    jobs: Jobs,
) -> Result<RunEnd, Fail> {
    let jobs = commands(alloc, jobs)?;
    let choosers = crowd(alloc, Way::Highest, 4)?;
    Ok(run(rt, alloc, port, &jobs, 4, choosers, &Open)?)
}

/// Trims a port behind a driver.
fn trimmed<R: Threads + Wait + Sync + Abort>(
    rt: &R,
    alloc: Global,
    port: Port,
) -> Result<(Port, Journal), Fail> {
    port.shape();
    let (board, seat) = TagBoard::new(alloc, port.depth())?;
    let driver = Driver::new(port, board);
    let journal = driver.trim(rt)?;
    let (port, board) = driver.into_parts();
    assert!(rt; board.close(seat) == 3);
    Ok((port, journal))
}

#[test]
fn a_run_goes_on_where_a_trimmed_one_has_ended(rt: HostRuntime) -> Result<(), Fail> {
    let alloc = rt.alloc();
    let port = Port::new(alloc, vec![in alloc; 0x5a; 3 * 512]?, 2)?;
    let RunEnd { port, replies } = goes(&rt, alloc, port, Jobs::Few)?;
    let entries = port.journal().len();
    let (port, journal) = trimmed(&rt, alloc, port)?;
    assert!(rt; entries > 0 && journal.len() == entries && port.journal().is_empty());
    assert!(rt; port.register(PXIS) == Ok(SDBS));
    let end = goes(&rt, alloc, port, Jobs::Few)?;
    for receipt in &end.replies {
        assert!(rt;
            receipt.reply.number >= journal.end(),
            "{:?}",
            receipt.reply
        );
    }
    let jobs = commands(alloc, Jobs::Few)?;
    let wrong = Err(SettleFault::Wrong(0));
    assert!(rt; settle(alloc, &end.port, &jobs, &replies, 4) == wrong);
    assert!(rt; settle(alloc, &end.port, &jobs, &end.replies, 4).is_ok());
    Ok(())
}

#[test]
fn a_run_leaves_an_interrupt_that_was_pending_before_it(rt: HostRuntime) -> Result<(), Fail> {
    let alloc = rt.alloc();
    let mut port = Port::new(alloc, vec![in alloc; 0x5a; 3 * 512]?, 2)?;
    port.identify()?;
    let (port, _journal) = trimmed(&rt, alloc, port)?;
    let end = goes(&rt, alloc, port, Jobs::None)?;
    assert!(rt; end.port.register(PXIS) == Ok(PSS));
    Ok(())
}
