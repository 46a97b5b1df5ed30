//! How an allocator that refuses counts what it is asked for.

use std::sync::atomic::{AtomicU64, Ordering};

/// What was asked for since a counter was set, and which requests are refused. It may be read and set while other threads
/// ask.
#[derive(Drop)]
pub(crate) struct Counter {
    requests: AtomicU64,
    bytes: AtomicU64,
    refused: AtomicU64,
    first: AtomicU64,
    last: AtomicU64,
    out: AtomicU64,
}

impl Counter {
    /// Nothing was asked for, and nothing is refused.
    pub(crate) fn new() -> Self {
        Counter {
            requests: AtomicU64::new(0),
            bytes: AtomicU64::new(0),
            refused: AtomicU64::new(0),
            first: AtomicU64::new(u64::MAX),
            last: AtomicU64::new(0),
            out: AtomicU64::new(0),
        }
    }

    /// Begins to count requests anew. Those from number `first` to number `last` are refused, counted from 0.
    pub(crate) fn set(&self, first: u64, last: u64) {
        self.requests.store(0, Ordering::SeqCst);
        self.bytes.store(0, Ordering::SeqCst);
        self.refused.store(0, Ordering::SeqCst);
        self.first.store(first, Ordering::SeqCst);
        self.last.store(last, Ordering::SeqCst);
    }

    pub(crate) fn requests(&self) -> u64 {
        self.requests.load(Ordering::SeqCst)
    }

    pub(crate) fn bytes(&self) -> u64 {
        self.bytes.load(Ordering::SeqCst)
    }

    pub(crate) fn refused(&self) -> u64 {
        self.refused.load(Ordering::SeqCst)
    }

    /// How many blocks were passed on and have not come back.
    pub(crate) fn out(&self) -> u64 {
        self.out.load(Ordering::SeqCst)
    }
}

/// Counts a request for so many bytes, and answers whether it is refused.
pub(crate) fn refuses(counter: &Counter, size: usize) -> bool {
    let number = counter.requests.fetch_add(1, Ordering::SeqCst);
    let _bytes = counter.bytes.fetch_add(size as u64, Ordering::SeqCst);
    let refused = counter.first.load(Ordering::SeqCst) <= number
        && number <= counter.last.load(Ordering::SeqCst);
    let part = if refused {
        &counter.refused
    } else {
        &counter.out
    };
    let _before = part.fetch_add(1, Ordering::SeqCst);
    refused
}

/// Counts a block that comes back.
pub(crate) fn returns(counter: &Counter) {
    let _before = counter.out.fetch_sub(1, Ordering::SeqCst);
}
