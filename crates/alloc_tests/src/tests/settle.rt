//! A run is settled where memory is refused.
ghost use Rattle.std.specs.Prelude.{◌≤◌};

use crate::tests::commands::port_of;
use crate::tests::heap::{Asked, Heap, Tried, equal, grant_all, growths_of, refuse_from};
use crate::tests::jobs::{Jobs, Way, crowd};
use ahci_driver::{Open, RunEnd, SettleFault, run, settle};
use ncq_journal::{Claim, Op};
use refusing_allocator::Refusing;
use std::alloc::Global;
use std::mem::size_of;
use std::process::Abort;
use std::sync::Wait;
use std::test::Fail;
use std::thread::Threads;
use test_helpers::ops_of;

/// A run that has ended, with what it was asked.
#[derive(Drop)]
struct Ran<'a> {
    end: RunEnd<&'a Heap>,
    jobs: Vec<Op<&'a Heap>, &'a Heap>,
    workers: u32,
    ghost some: { 1 ≤ workers },
}

fn run_of<'a, R: Threads + Wait + Sync>(
    rt: &R,
    heap: &'a Heap,
    jobs: Jobs,
    workers: u32,
) -> Result<Ran<'a>, Fail> {
    if workers < 1 || workers > 32 {
        return Err(Fail::new("no workers"));
    }
    let jobs = ops_of(heap, jobs.list())?;
    let port = port_of(heap, 2)?;
    let choosers = crowd(heap, Way::Highest, workers)?;
    let end = run(rt, heap, port, &jobs, workers, choosers, &Open)?;
    Ok(Ran { end, jobs, workers })
}

impl<'a> Ran<'a> {
    /// Settles the run in memory of a heap.
    fn settles(&self, heap: &Heap) -> Result<(), SettleFault> {
        let (port, replies) = (&self.end.port, &self.end.replies);
        settle(heap, port, &self.jobs, replies, self.workers)
    }

    /// Settles while growths are refused, and then with memory.
    fn tries(&self, heap: &Heap, growth: usize) -> Tried<Result<(), SettleFault>> {
        refuse_from(heap, growth);
        let said = self.settles(heap);
        let mut tried = Tried::of(said, growths_of(heap), heap.bytes());
        grant_all(heap);
        if said.is_err() {
            tried.again = Some(self.settles(heap));
        }
        tried
    }
}

/// What is wanted of a settled run that meets so many growths for so many bytes, where one is refused.
fn wanted(growths: usize, bytes: u64, growth: usize) -> Tried<Result<(), SettleFault>> {
    if growth == growths {
        return Tried::of(Ok(()), Asked::Granted(growth as u64), bytes);
    }
    Tried {
        said: Err(SettleFault::OutOfMemory),
        asked: Asked::Refused(growth as u64),
        bytes: None,
        again: Some(Ok(())),
    }
}

/// How many bytes the image of four sectors and the requests of two tags have.
const FIXED: u64 = 4 * 512 + 2 * size_of::<Option<u64>>() as u64;

/// How many bytes the settling of an entry takes: what is claimed of it, and whether that holds.
pub const CLAIMED: u64 = size_of::<Option<Claim<'static>>>() as u64 + 1;

/// Jobs, workers, how many growths the settling meets, and how many bytes it asks for.
type Row = (Jobs, u32, usize, u64);

// The image, the requests, and, where there are entries, the claims, and which of them hold. Each job has four entries.
static ROWS: [Row; 3] = [
    (Jobs::None, 3, 2, FIXED),
    (Jobs::Pair, 1, 4, FIXED + 8 * CLAIMED),
    (Jobs::Few, 4, 4, FIXED + 48 * CLAIMED),
];

/// Settles a run with each growth refused in turn.
fn settles_each(rt: &impl Abort, alloc: Global, ran: &Ran<'_>, growths: usize, bytes: u64) {
    for growth in 0..=growths {
        let heap = Refusing::new(alloc);
        let found = ran.tries(&heap, growth);
        let wanted = wanted(growths, bytes, growth);
        equal(rt, &ran.workers, growth, &found, &wanted);
        assert!(rt; heap.out() == 0);
    }
}

#[test]
fn a_run_is_settled_or_memory_is_wanted(rt: HostRuntime) -> Result<(), Fail> {
    for (jobs, workers, growths, bytes) in ROWS {
        let heap = Refusing::new(rt.alloc());
        let ran = run_of(&rt, &heap, jobs, workers)?;
        settles_each(&rt, rt.alloc(), &ran, growths, bytes);
    }
    Ok(())
}
