//! What an answer of the device writes into the driver's memory.

use crate::put::SmallPut;
use crate::scatter::Scatter;
use std::alloc::{Allocator, Global};
use std::marker::Model;

/// What an answer of the device writes into the driver's memory, in this order: a FIS, the command's data, PRDBC, and a FIS. Contracts
/// see the writes that are still to be made.
#[derive(Drop)]
pub struct DmaWrites<A: Allocator = Global> {
    before: Option<SmallPut>,
    content: Scatter<A>,
    count: Option<SmallPut>,
    after: Option<SmallPut>,
}

impl<A: Allocator> Model for DmaWrites<A> {
    ghost use Rattle.hba_memory.specs.DmaWrites.{DmaWritesView, listed};

    ghost Value = { DmaWritesView };

    ghost view = { λ p. record { before = listed p.before; content = p.content; count = listed p.count; after = listed p.after } };
}

impl<A: Allocator> DmaWrites<A> {
    ghost use Rattle.std.specs.Prelude.{◌≡◌, ◌↔◌, [], IsTrue};
    ghost use Rattle.hba_memory.specs.DmaWrites.{advanced, listed, remaining, without_fises};
    ghost use Rattle.hba_memory.specs.Runs.{first_put};

    /// A FIS, data, PRDBC and a FIS; each may be left out.
    pub fn new(
        before: Option<SmallPut>,
        content: Scatter<A>,
        count: Option<SmallPut>,
        after: Option<SmallPut>,
    ) -> Self
        ensures before { result.before ≡ listed before }
        ensures content { result.content ≡ content }
        ensures count { result.count ≡ listed count }
        ensures after { result.after ≡ listed after }
    {
        DmaWrites {
            before,
            content,
            count,
            after,
        }
    }

    /// Whether all is written.
    pub fn is_done(&self) -> bool
        ensures { IsTrue result ↔ (remaining self.now ≡ []) }
    {
        self.before.is_none()
            && self.content.is_done()
            && self.count.is_none()
            && self.after.is_none()
    }

    /// Where the next bytes go; 0 once all is written.
    pub fn address(&self) -> u64
        ensures { result ≡ (first_put (remaining self.now)).address }
    {
        if let Some(fis) = &self.before {
            return fis.address();
        }
        if !self.content.is_done() {
            return self.content.address();
        }
        if let Some(count) = &self.count {
            return count.address();
        }
        match &self.after {
            Some(fis) => fis.address(),
            None => 0,
        }
    }

    /// The next bytes; none once all is written.
    pub fn bytes(&self) -> &[u8]
        ensures { result.now ≡ (first_put (remaining self.now)).bytes }
    {
        if let Some(fis) = &self.before {
            return fis.bytes();
        }
        if !self.content.is_done() {
            return self.content.bytes();
        }
        if let Some(count) = &self.count {
            return count.bytes();
        }
        match &self.after {
            Some(fis) => fis.bytes(),
            None => &[],
        }
    }

    /// The next bytes are written.
    pub fn advance(&mut self)
        ensures { self.new ≡ advanced self.old }
    {
        if self.before.is_some() {
            self.before = None;
        } else if !self.content.is_done() {
            self.content.advance();
        } else if self.count.is_some() {
            self.count = None;
        } else {
            self.after = None;
        }
    }

    /// The FISes are not written any more: FRE was cleared.
    pub fn drop_fises(&mut self)
        ensures { self.new ≡ without_fises self.old }
    {
        self.before = None;
        self.after = None;
    }
}
