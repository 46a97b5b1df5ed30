//! Whole runs, and what `settle` says of receipts that were changed afterwards.
ghost use Rattle.std.specs.Prelude.{◌≡◌, ◌≤◌};

use crate::tests::common::{PSS, PXIS, SDBS, Way, byte_of, crowd};
use crate::tests::jobs::{Jobs, commands};
use ahci_driver::{Open, Receipt, RunEnd, SettleFault, run, settle};
use ahci_port::{Port, Reply};
use ncq_journal::{Bytes, Op, Outcome};
use std::alloc::{AllocError, Global};
use std::process::Abort;
use std::sync::Wait;
use std::test::Fail;
use std::thread::Threads;
use test_helpers::TableStep::{Accept, Serve};
use test_helpers::{RISING, TableStep};

/// How a run is set up.
#[derive(Clone, Copy, Debug)]
struct Setting {
    workers: u32,
    depth: u32,
    sectors: usize,
    byte: u8,
    jobs: Jobs,
    way: Way,
}

/// A run that has ended, with what it was asked.
#[derive(Drop)]
struct Ran {
    end: RunEnd,
    jobs: Vec<Op>,
    workers: u32,
    ghost some: { 1 ≤ workers },
}

fn ran_of<R: Threads + Wait + Sync>(rt: &R, alloc: Global, setting: Setting) -> Result<Ran, Fail>
    requires some { 1 ≤ setting.workers }
    requires most { setting.workers ≤ 32 }
{
    let workers = setting.workers;
    let image = vec![in alloc; setting.byte; setting.sectors.saturating_mul(512)]?;
    let port = Port::new(alloc, image, setting.depth)?;
    let jobs = commands(alloc, setting.jobs)?;
    let choosers = crowd(alloc, setting.way, workers)?;
    let end = run(rt, alloc, port, &jobs, workers, choosers, &Open)?;
    Ok(Ran { end, jobs, workers })
}

/// What is looked at once a run has ended, or done to its receipts.
#[derive(Clone, Copy, Debug)]
enum Look {
    Settle,
    /// With no jobs and no receipts.
    SettleNothing,
    Receipts,
    Reply(usize),
    /// The byte that a receipt's one sector is filled with.
    Byte(usize),
    Entries,
    /// The word of PxIS.
    Interrupts,
    /// One byte of a receipt's bytes becomes another.
    Change(usize),
    Swap(usize, usize),
    /// The second becomes a copy of the first.
    Copy(usize, usize),
    Pop,
}

#[derive(Clone, Copy, Debug, PartialEq, Eq)]
enum Said {
    Settled,
    Not(SettleFault),
    Receipts(usize),
    Reply(Option<Reply>),
    Byte(Option<u8>),
    Entries(u64),
    Interrupts(Option<u32>),
    Done,
}

impl Ran {
    fn look(&mut self, alloc: Global, look: Look) -> Result<Said, AllocError> {
        Ok(match look {
            Look::Settle => self.settles(alloc, &self.jobs, &self.end.replies),
            Look::SettleNothing => self.settles(alloc, &[], &[]),
            Look::Receipts => Said::Receipts(self.end.replies.len()),
            Look::Reply(index) => Said::Reply(self.end.replies.get(index).map(|it| it.reply)),
            Look::Byte(index) => Said::Byte(self.end.replies.get(index).and_then(byte_of)),
            Look::Entries => Said::Entries(self.end.port.journal().len()),
            Look::Interrupts => Said::Interrupts(self.end.port.register(PXIS).ok()),
            _ => self.edit(alloc, look)?,
        })
    }

    /// What settling says.
    fn settles(&self, alloc: Global, jobs: &[Op], receipts: &[Receipt]) -> Said {
        told(settle(alloc, &self.end.port, jobs, receipts, self.workers))
    }

    fn edit(&mut self, alloc: Global, look: Look) -> Result<Said, AllocError> {
        let receipts = &mut self.end.replies;
        match look {
            Look::Change(index) => change(alloc, receipts, index),
            Look::Swap(first, second) => {
                if first < receipts.len() && second < receipts.len() {
                    receipts.swap(first, second);
                }
            }
            Look::Copy(from, to) => {
                if from < receipts.len() && to < receipts.len() {
                    receipts[to] = copy(alloc, &receipts[from])?;
                }
            }
            _ => {
                receipts.pop();
            }
        }
        Ok(Said::Done)
    }
}

fn told(settled: Result<(), SettleFault>) -> Said {
    match settled {
        Ok(()) => Said::Settled,
        Err(fault) => Said::Not(fault),
    }
}

fn change(alloc: Global, receipts: &mut [Receipt], index: usize) {
    if let Some(receipt) = receipts.get_mut(index) {
        let empty = Bytes::from_vec(Vec::new(alloc));
        let mut bytes = std::mem::replace(&mut receipt.bytes, empty).into_vec();
        if let Some(last) = bytes.last_mut() {
            *last ^= 1;
        }
        receipt.bytes = Bytes::from_vec(bytes);
    }
}

fn copy(alloc: Global, receipt: &Receipt) -> Result<Receipt, AllocError> {
    let bytes = Vec::from_slice(alloc, receipt.bytes.as_slice())?;
    Ok(Receipt {
        reply: receipt.reply,
        bytes: Bytes::from_vec(bytes),
    })
}

fn equal(rt: &impl Abort, setting: Setting, look: Look, found: Said, wanted: Said) {
    assert!(rt;
        found == wanted,
        "{setting:?}: {look:?} is {found:?}, not {wanted:?}"
    );
}

/// Does a run, and then looks, in this order.
fn plays<R: Threads + Wait + Sync + Abort>(
    rt: &R,
    alloc: Global,
    setting: Setting,
    looks: &[(Look, Said)],
) -> Result<(), Fail>
    requires some { 1 ≤ setting.workers }
    requires most { setting.workers ≤ 32 }
{
    let mut ran = ran_of(rt, alloc, setting)?;
    for (look, wanted) in looks {
        equal(rt, setting, *look, ran.look(alloc, *look)?, *wanted);
    }
    Ok(())
}

/// Four workers, two tags, three sectors of 5Ah.
fn few(jobs: Jobs, way: Way) -> Setting
    ensures { result.workers ≡ 4 }
{
    Setting {
        workers: 4,
        depth: 2,
        sectors: 3,
        byte: 0x5a,
        jobs,
        way,
    }
}

/// A run on sectors of zeros.
fn on_zeros(workers: u32, depth: u32, sectors: usize, jobs: Jobs, way: Way) -> Setting
    ensures { result.workers ≡ workers }
{
    Setting {
        workers,
        depth,
        sectors,
        byte: 0,
        jobs,
        way,
    }
}

static IS_SETTLED: [(Look, Said); 1] = [(Look::Settle, Said::Settled)];

static CHANGED: [(Look, Said); 9] = [
    (Look::Interrupts, Said::Interrupts(Some(SDBS))),
    (Look::Byte(5), Said::Byte(Some(0x5a))),
    (Look::Byte(11), Said::Byte(Some(0x5a))),
    (Look::Settle, Said::Settled),
    (Look::SettleNothing, Said::Not(SettleFault::Extra(0))),
    (Look::Change(5), Said::Done),
    (Look::Settle, Said::Not(SettleFault::Wrong(5))),
    (Look::Pop, Said::Done),
    (Look::Settle, Said::Not(SettleFault::Count)),
];

#[test]
fn more_workers_than_tags_settle_their_run(rt: HostRuntime) -> Result<(), Fail> {
    for way in [Way::Highest, Way::All] {
        plays(&rt, rt.alloc(), few(Jobs::Few, way), CHANGED.as_slice())?;
    }
    Ok(())
}

#[test]
fn workers_settle_whatever_their_choosers_answer(rt: HostRuntime) -> Result<(), Fail> {
    static STEPS: [TableStep; 6] = [
        Serve(&[31]),
        Serve(&[]),
        Serve(&[0, 0]),
        Serve(RISING),
        Accept(255),
        TableStep::Fail(0, 0, u64::MAX),
    ];
    for step in STEPS {
        plays(
            &rt,
            rt.alloc(),
            few(Jobs::Few, Way::Always(step)),
            IS_SETTLED.as_slice(),
        )?;
    }
    Ok(())
}

static NOTHING_TO_DO: [(Look, Said); 3] = [
    (Look::Receipts, Said::Receipts(0)),
    (Look::Entries, Said::Entries(0)),
    (Look::Settle, Said::Settled),
];

#[test]
fn a_run_of_no_jobs_leaves_the_port_alone(rt: HostRuntime) -> Result<(), Fail> {
    let setting = few(Jobs::None, Way::Lowest);
    plays(&rt, rt.alloc(), setting, NOTHING_TO_DO.as_slice())
}

static FAILED: [(Look, Said); 7] = [
    (Look::Interrupts, Said::Interrupts(Some(PSS | SDBS))),
    (Look::Receipts, Said::Receipts(2)),
    (
        Look::Reply(0),
        Said::Reply(Some(Reply {
            number: 0,
            entry: 2,
            outcome: Outcome::Failed {
                error: 0x40,
                lba: 0,
            },
        })),
    ),
    (
        Look::Reply(1),
        Said::Reply(Some(Reply {
            number: 5,
            entry: 7,
            outcome: Outcome::Read,
        })),
    ),
    (Look::Byte(1), Said::Byte(Some(0))),
    (Look::Entries, Said::Entries(9)),
    (Look::Settle, Said::Settled),
];

#[test]
fn a_failed_write_changes_nothing_and_the_next_job_goes_on(rt: HostRuntime) -> Result<(), Fail> {
    let setting = on_zeros(1, 1, 8, Jobs::Pair, Way::FailsSecond(0));
    plays(&rt, rt.alloc(), setting, FAILED.as_slice())
}

/// In a crowd entries are numbered as threads go, so of a reply the outcome alone is known.
fn fails_alone(rt: &impl Abort, ran: &Ran) {
    let wanted = Outcome::Failed {
        error: 0x10,
        lba: 64,
    };
    for (index, receipt) in ran.end.replies.iter().enumerate() {
        let outcome = receipt.reply.outcome;
        let is_right = outcome == if index == 17 { wanted } else { Outcome::Wrote };
        assert!(rt; is_right, "job {index} is {outcome:?}");
    }
}

#[test]
fn a_write_past_the_end_fails_alone_in_a_crowd(rt: HostRuntime) -> Result<(), Fail> {
    let alloc = rt.alloc();
    for depth in [32, 3, 1] {
        let setting = on_zeros(32, depth, 64, Jobs::Crowd, Way::Highest);
        let mut ran = ran_of(&rt, alloc, setting)?;
        fails_alone(&rt, &ran);
        equal(
            &rt,
            setting,
            Look::Settle,
            ran.look(alloc, Look::Settle)?,
            Said::Settled,
        );
    }
    Ok(())
}

#[test]
fn two_hundred_runs_by_chance_are_settled(rt: HostRuntime) -> Result<(), Fail> {
    for round in 0..200u32 {
        let setting = Setting {
            workers: 1 + round * 7 % 32,
            depth: [1, 3, 32][round as usize % 3],
            sectors: 8,
            byte: 0x5a,
            jobs: Jobs::Few,
            way: Way::Random(u64::from(round)),
        };
        plays(&rt, rt.alloc(), setting, IS_SETTLED.as_slice())?;
    }
    Ok(())
}

static MIXED_UP: [(Look, Said); 7] = [
    (Look::Receipts, Said::Receipts(4_000)),
    (Look::Swap(5, 9), Said::Done),
    (Look::Settle, Said::Not(SettleFault::Wrong(5))),
    (Look::Swap(5, 9), Said::Done),
    (Look::Settle, Said::Settled),
    (Look::Copy(5, 9), Said::Done),
    (Look::Settle, Said::Not(SettleFault::Wrong(9))),
];

#[test]
fn of_four_thousand_jobs_no_receipt_stands_for_another(rt: HostRuntime) -> Result<(), Fail> {
    let setting = on_zeros(8, 8, 64, Jobs::Many, Way::Lowest);
    plays(&rt, rt.alloc(), setting, MIXED_UP.as_slice())
}
