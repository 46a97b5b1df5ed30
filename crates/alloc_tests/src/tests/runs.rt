//! Runs of workers in which a growth is refused: each ends as want of memory, with all its threads, and gives back what it
//! took; and how many bytes a run asks for.
use crate::tests::commands::port_of;
use crate::tests::driver::WINDOW;
use crate::tests::heap::{Heap, equal, grant_all};
use crate::tests::jobs::{Jobs, Way, crowd};
use crate::tests::settle::CLAIMED;
use ahci_driver::{Gate, Open, Receipt, RunFault, run};
use refusing_allocator::{Refusals, Refusing};
use std::alloc::Global;
use std::mem::size_of;
use std::process::Abort;
use std::sync::Wait;
use std::sync::atomic::AtomicU32;
use std::sync::atomic::Ordering::SeqCst;
use std::test::Fail;
use std::thread;
use std::thread::Threads;
use test_helpers::ops_of;

/// A run on four sectors.
#[derive(Clone, Copy, Debug)]
struct Setting {
    workers: u32,
    depth: u32,
    jobs: Jobs,
    way: Way,
    /// How many growths it meets.
    growths: u64,
    /// How many entries its journal has.
    entries: u64,
}

// With memory every run meets, in whatever order its threads go:
//
// - 6: the copy of the starting image, the board's two rows, the workers, and at the end the workers' receipts, each worker's
//   and in the order of the jobs;
// - 3 for each worker less 1: its receipts, its end, and, but for one, a list of workers that is split off;
// - 2 for each job: a read's window and its buffer, a write's window and its copy in the journal;
// - 2 for the journal, whose room is made at its first entry and doubled at the next issue or recovery;
// - 4 for `settle`: the claims, the image, the requests, and which claims hold.
static SETTINGS: [Setting; 5] = [
    Setting {
        workers: 1,
        depth: 1,
        jobs: Jobs::Pair,
        way: Way::Lowest,
        growths: 6 + 2 + 4 + 2 + 4,
        entries: 8,
    },
    Setting {
        workers: 1,
        depth: 1,
        jobs: Jobs::Pair,
        way: Way::FailsSecond(0),
        growths: 6 + 2 + 4 + 2 + 4,
        entries: 9,
    },
    Setting {
        workers: 2,
        depth: 2,
        jobs: Jobs::Few,
        way: Way::Lowest,
        growths: 6 + 5 + 24 + 2 + 4,
        entries: 48,
    },
    Setting {
        workers: 4,
        depth: 1,
        jobs: Jobs::Few,
        way: Way::Lowest,
        growths: 6 + 11 + 24 + 2 + 4,
        entries: 48,
    },
    Setting {
        workers: 4,
        depth: 2,
        jobs: Jobs::Few,
        way: Way::Highest,
        growths: 6 + 11 + 24 + 2 + 4,
        entries: 48,
    },
];

/// How a run ended: with so many receipts and entries, or by this fault. How many requests were made, where none was refused,
/// and how many blocks are out now that were not before.
#[derive(Clone, Copy, Debug, PartialEq)]
struct Ended {
    how: Result<(usize, u64), RunFault>,
    requests: Option<u64>,
    left: u64,
}

/// How a run ended, and how many bytes it asked for.
type Ran = (Ended, u64);

/// Runs once. The port is the run's own, and its jobs are lent.
fn runs<R: Threads + Wait + Sync, G: Gate>(
    rt: &R,
    heap: &Heap,
    setting: Setting,
    refusals: Refusals,
    gate: &G,
) -> Result<Ran, Fail> {
    let workers = setting.workers;
    if workers < 1 || workers > 32 {
        return Err(Fail::new("no workers"));
    }
    let ops = ops_of(heap, setting.jobs.list())?;
    let before = heap.out();
    let port = port_of(heap, setting.depth)?;
    let choosers = crowd(heap, setting.way, workers)?;
    heap.refuse(refusals);
    let how = match run(rt, heap, port, &ops, workers, choosers, gate) {
        Ok(end) => Ok((end.replies.len(), end.port.journal().len())),
        Err(fault) => Err(fault),
    };
    let requests = match heap.refused() {
        0 => Some(heap.requests()),
        _ => None,
    };
    let bytes = heap.bytes();
    grant_all(heap);
    let left = heap.out().saturating_sub(before);
    let ended = Ended {
        how,
        requests,
        left,
    };
    Ok((ended, bytes))
}

/// What is wanted where requests from this number on are refused.
fn wanted(setting: Setting, growth: u64) -> Ended {
    if growth < setting.growths {
        return Ended {
            how: Err(RunFault::OutOfMemory),
            requests: None,
            left: 0,
        };
    }
    Ended {
        how: Ok((setting.jobs.list().len(), setting.entries)),
        requests: Some(setting.growths),
        left: 0,
    }
}

/// Refuses each growth of a run in turn, with all that follow it and alone.
fn refuses_each<R: Threads + Wait + Sync + Abort>(
    rt: &R,
    alloc: Global,
    setting: Setting,
) -> Result<(), Fail> {
    for growth in 0..=setting.growths {
        let wanted = wanted(setting, growth);
        for refusals in [Refusals::From(growth), Refusals::Only(growth)] {
            let heap = Refusing::new(alloc);
            let (found, _bytes) = runs(rt, &heap, setting, refusals, &Open)?;
            equal(rt, &(setting, refusals), growth as usize, &found, &wanted);
            assert!(rt; heap.out() == 0);
        }
    }
    Ok(())
}

#[test]
fn a_run_refused_memory_ends_with_all_its_threads(rt: HostRuntime) -> Result<(), Fail> {
    for setting in SETTINGS {
        refuses_each(&rt, rt.alloc(), setting)?;
    }
    Ok(())
}

/// How many bytes a receipt has.
const RECEIPT: u64 = size_of::<Receipt<&'static Heap>>() as u64;

/// How many bytes ten more jobs take, but for their workers' receipts: ten windows, each with a buffer or a copy of a sector, forty
/// entries that are settled, and ten receipts in the order of the jobs.
const MORE: u64 = 10 * (WINDOW + 512) + 40 * CLAIMED + 10 * RECEIPT;

// Workers, tags, and how many bytes more are asked for by twelve jobs than by two. Each worker makes room for the receipts of an
// equal share of the jobs, rounded up.
static SHARES: [(u32, u32, u64); 3] = [
    (1, 1, MORE + (12 - 2) * RECEIPT),
    (2, 2, MORE + 2 * (6 - 1) * RECEIPT),
    (4, 1, MORE + 4 * (3 - 1) * RECEIPT),
];

/// How many bytes a run asks for.
fn bytes_of<R: Threads + Wait + Sync>(
    rt: &R,
    alloc: Global,
    (workers, depth): (u32, u32),
    jobs: Jobs,
) -> Result<u64, Fail> {
    let setting = Setting {
        workers,
        depth,
        jobs,
        way: Way::Lowest,
        growths: 0,
        entries: 0,
    };
    let (_ended, bytes) = runs(rt, &Refusing::new(alloc), setting, Refusals::None, &Open)?;
    Ok(bytes)
}

#[test]
fn a_run_asks_for_the_bytes_of_its_jobs(rt: HostRuntime) -> Result<(), Fail> {
    for (workers, depth, more) in SHARES {
        let few = bytes_of(&rt, rt.alloc(), (workers, depth), Jobs::Pair)?;
        let many = bytes_of(&rt, rt.alloc(), (workers, depth), Jobs::Few)?;
        assert_eq!(rt; many.saturating_sub(few), more, "{workers} workers");
    }
    Ok(())
}

/// Job 0 begins once so many workers have come with theirs, and the requests for memory are counted from there; one of them
/// is refused, and the other workers' jobs begin then.
#[derive(Drop)]
struct Holds<'a> {
    heap: &'a Heap,
    others: u32,
    growth: u64,
    come: AtomicU32,
}

impl<'a> Holds<'a> {
    /// It does not wait for ever: where threads can't be made, nobody comes.
    fn waits(&self, is_first: bool) {
        for _ in 0..1_000_000u32 {
            let is_over = if is_first {
                self.come.load(SeqCst) == self.others
            } else {
                self.heap.refused() > 0
            };
            if is_over {
                return;
            }
            thread::yield_now();
        }
    }
}

impl<'a> Gate for Holds<'a> {
    fn before(&self, job: usize) {
        if job > 0 {
            let _before = self.come.fetch_add(1, SeqCst);
        }
        self.waits(job == 0);
        if job == 0 {
            self.heap.refuse(Refusals::Only(self.growth));
        }
    }

    fn after(&self, _job: usize) {}
}

// A write's window, its copy in the journal, the journal's room, and the room of its recovery: at the last one its worker has
// the only tag, and keeps it. Growths and entries are not looked at.
#[test]
fn all_workers_end_where_one_stops_with_the_only_tag(rt: HostRuntime) -> Result<(), Fail> {
    let setting = Setting {
        workers: 4,
        depth: 1,
        jobs: Jobs::Few,
        way: Way::FailsSecond(0),
        growths: 0,
        entries: 0,
    };
    let wanted = Ended {
        how: Err(RunFault::OutOfMemory),
        requests: None,
        left: 0,
    };
    for growth in 0..4u64 {
        let heap = Refusing::new(rt.alloc());
        let gate = Holds {
            heap: &heap,
            others: 3,
            growth,
            come: AtomicU32::new(0),
        };
        let (found, _bytes) = runs(&rt, &heap, setting, Refusals::None, &gate)?;
        equal(&rt, &setting, growth as usize, &found, &wanted);
        assert!(rt; heap.out() == 0);
    }
    Ok(())
}
