//! When a run calls its gate: one that makes a job wait for another worker's, and one that notes what the device has done.
ghost use Rattle.std.specs.Prelude.{◌≤◌};

use crate::tests::common::{Way, crowd, waits_for};
use crate::tests::jobs::{Jobs, commands};
use ahci_driver::{Chooser, Gate, Low, run};
use ahci_port::{DeviceStep, Port};
use std::alloc::Global;
use std::process::Abort;
use std::sync::Wait;
use std::sync::atomic::Ordering::SeqCst;
use std::sync::atomic::{AtomicBool, AtomicU32};
use std::test::Fail;
use std::thread::Threads;
use test_helpers::{Job, ops_of};

/// Job `first` begins once job `other` is answered, or after so many turns.
#[derive(Drop)]
struct Waits {
    first: usize,
    other: usize,
    answered: AtomicBool,
    met: AtomicBool,
}

impl Gate for Waits {
    fn before(&self, job: usize) {
        if job == self.first && waits_for(&self.answered) {
            self.met.store(true, SeqCst);
        }
    }

    fn after(&self, job: usize) {
        if job == self.other {
            self.answered.store(true, SeqCst);
        }
    }
}

fn meets<R: Threads + Wait + Sync + Abort>(
    rt: &R,
    alloc: Global,
    depth: u32,
    first: usize,
    other: usize,
) -> Result<(), Fail> {
    let gate = Waits {
        first,
        other,
        answered: AtomicBool::new(false),
        met: AtomicBool::new(false),
    };
    let port = Port::new(alloc, vec![in alloc; 0; 4096]?, depth)?;
    let jobs = ops_of(alloc, &[Job::Read(0), Job::Read(1)])?;
    let ended = run(
        rt,
        alloc,
        port,
        &jobs,
        2,
        crowd(alloc, Way::Lowest, 2)?,
        &gate,
    );
    assert!(rt; ended.is_ok());
    assert!(rt; gate.met.load(SeqCst), "job {first} waits for job {other}");
    Ok(())
}

// At depth 1 a job that waits must not have the tag.
#[test]
fn a_job_can_wait_for_that_of_another_worker(rt: HostRuntime) -> Result<(), Fail> {
    let alloc = rt.alloc();
    for depth in [2, 1u32] {
        meets(&rt, alloc, depth, 0, 1)?;
        meets(&rt, alloc, depth, 1, 0)?;
    }
    Ok(())
}

/// A number for each of five jobs.
type Five = [AtomicU32; 5];

fn five() -> Five {
    [
        AtomicU32::new(0),
        AtomicU32::new(0),
        AtomicU32::new(0),
        AtomicU32::new(0),
        AtomicU32::new(0),
    ]
}

/// Serves as `Low`, and counts the device's steps.
#[derive(Clone, Copy, Drop)]
struct Counted<'a> {
    steps: &'a AtomicU32,
}

impl<'a> Chooser for Counted<'a> {
    fn next(&mut self, issued: u32, accepted: u32) -> DeviceStep {
        let _before = self.steps.fetch_add(1, SeqCst);
        Low.next(issued, accepted)
    }
}

/// Of each job, before it is submitted and after it is answered: a thousand for each time, and the device's steps by then.
#[derive(Drop)]
struct Passed<'a> {
    steps: &'a AtomicU32,
    before: Five,
    after: Five,
}

impl<'a> Passed<'a> {
    fn note(&self, passed: &Five, job: usize) {
        if let Some(number) = passed.get(job) {
            let steps = self.steps.load(SeqCst) % 1_000;
            let _before = number.fetch_add(1_000 + steps, SeqCst);
        }
    }
}

impl<'a> Gate for Passed<'a> {
    fn before(&self, job: usize) {
        self.note(&self.before, job);
    }

    fn after(&self, job: usize) {
        self.note(&self.after, job);
    }
}

/// What has passed before and after five jobs of so many workers.
fn passes<R: Threads + Wait + Sync + Abort>(
    rt: &R,
    alloc: Global,
    workers: u32,
) -> Result<[(u32, u32); 5], Fail>
    requires some { 1 ≤ workers }
    requires most { workers ≤ 32 }
{
    let steps = AtomicU32::new(0);
    let gate = Passed {
        steps: &steps,
        before: five(),
        after: five(),
    };
    let choosers = vec![in alloc; Counted { steps: &steps }; workers as usize]?;
    let port = Port::new(alloc, vec![in alloc; 0; 4096]?, 2)?;
    let jobs = commands(alloc, Jobs::Five)?;
    assert!(rt; run(rt, alloc, port, &jobs, workers, choosers, &gate).is_ok());
    let mut passed = [(0, 0); 5];
    for (pair, (before, after)) in passed
        .iter_mut()
        .zip(gate.before.iter().zip(gate.after.iter()))
    {
        *pair = (before.load(SeqCst), after.load(SeqCst));
    }
    Ok(passed)
}

#[test]
fn a_worker_passes_the_gate_before_it_submits_and_with_the_answer(
    rt: HostRuntime,
) -> Result<(), Fail> {
    let wanted = [
        (1_000, 1_002),
        (1_002, 1_004),
        (1_004, 1_006),
        (1_006, 1_008),
        (1_008, 1_010),
    ];
    let found = passes(&rt, rt.alloc(), 1)?;
    assert!(rt; found == wanted, "{found:?}");
    Ok(())
}

#[test]
fn each_job_of_two_workers_passes_the_gate_once_by_its_index(rt: HostRuntime) -> Result<(), Fail> {
    for (before, after) in passes(&rt, rt.alloc(), 2)? {
        assert!(rt;
            before / 1_000 == 1 && after / 1_000 == 1,
            "{before}, {after}"
        );
    }
    Ok(())
}
