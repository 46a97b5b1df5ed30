//! An allocator over another one, which refuses some requests.

use crate::counter::{Counter, refuses, returns};
use std::alloc::{AllocError, Allocator};

/// Which requests for memory are refused. They are counted from 0.
#[derive(Clone, Copy, Debug, PartialEq)]
pub enum Refusals {
    /// None.
    None,
    /// This one alone.
    Only(u64),
    /// This one and all that follow.
    From(u64),
}

/// An allocator over another one. A `&` to it is an allocator too, which several collections and threads can have: all of
/// them are counted together.
#[derive(Drop)]
pub struct Refusing<B: Allocator> {
    inner: B,
    counter: Counter,
}

impl<B: Allocator> Refusing<B> {
    /// It refuses nothing until it is asked to.
    pub fn new(inner: B) -> Self {
        Refusing {
            inner,
            counter: Counter::new(),
        }
    }

    /// Begins to count requests anew, and refuses these requests from now on.
    pub fn refuse(&self, refusals: Refusals) {
        match refusals {
            Refusals::None => self.counter.set(u64::MAX, 0),
            Refusals::Only(number) => self.counter.set(number, number),
            Refusals::From(number) => self.counter.set(number, u64::MAX),
        }
    }

    /// How many requests came since it began to count, refused ones too.
    pub fn requests(&self) -> u64 {
        self.counter.requests()
    }

    /// How many bytes they asked for.
    pub fn bytes(&self) -> u64 {
        self.counter.bytes()
    }

    /// How many of them were refused.
    pub fn refused(&self) -> u64 {
        self.counter.refused()
    }

    /// How many blocks are out: granted at any time, and not given back.
    pub fn out(&self) -> u64 {
        self.counter.out()
    }
}

unsafe impl<B: Allocator> Allocator for Refusing<B> {
    ghost dealloc_token = { λ heap ty ptr. B.dealloc_token heap.inner ty ptr };

    fn allocate(&self, size: usize, align: usize) -> Result<*mut u8, AllocError> {
        if refuses(&self.counter, size) {
            return Err(AllocError);
        }
        self.inner.allocate(size, align)
    }

    unsafe fn deallocate(&self, ptr: *mut u8, size: usize, align: usize) {
        returns(&self.counter);
        self.inner.deallocate(ptr, size, align);
    }
}
