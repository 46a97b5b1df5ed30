//! How a run comes to have many requests in the port at once.

ghost use Rattle.std.specs.Prelude.{◌≡◌};
ghost use Rattle.ahci_driver.specs.Crowding.{is_enough};

use std::sync::atomic::AtomicUsize;
use std::sync::atomic::Ordering::SeqCst;
use std::thread;

/// How often a worker lets the others go first before it carries on: some may wait for what no worker does.
const MOST_YIELDS: u32 = 2;

/// How many workers of a run have jobs left, and how many requests are outstanding. Only the schedule depends on it.
#[derive(Drop)]
pub(crate) struct Crowd {
    depth: usize,
    working: AtomicUsize,
    outstanding: AtomicUsize,
}

impl Crowd {
    /// All workers have jobs left, over a port with so many slots.
    pub(crate) fn new(workers: usize, depth: usize) -> Crowd {
        Crowd {
            depth,
            working: AtomicUsize::new(workers),
            outstanding: AtomicUsize::new(0),
        }
    }

    /// A worker's request is issued. The worker then lets others go first until most of the requests that there can be at once are
    /// outstanding, but no longer than `MOST_YIELDS` turns.
    pub(crate) fn enter(&self) {
        self.outstanding.fetch_add(1, SeqCst);
        for _ in 0..MOST_YIELDS {
            if is_enough(
                self.outstanding.load(SeqCst),
                self.working.load(SeqCst),
                self.depth,
            ) {
                return;
            }
            thread::yield_now();
        }
    }

    /// A worker's request is answered.
    pub(crate) fn leave(&self) {
        self.outstanding.fetch_sub(1, SeqCst);
    }

    /// A worker has no more jobs.
    pub(crate) fn retire(&self) {
        self.working.fetch_sub(1, SeqCst);
    }
}

/// Whether three in four of the requests that there can be at once are outstanding.
fn is_enough(outstanding: usize, working: usize, depth: usize) -> bool
    ensures { result ≡ is_enough outstanding working depth }
{
    let most = working.min(depth);
    outstanding >= most - most / 4
}
