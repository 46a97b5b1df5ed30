//! The jobs of the runs that are tried, and their choosers.
ghost use Rattle.std.specs.Prelude.{◌≡◌, vec_len, IfOk};

use crate::tests::heap::Heap;
use ahci_driver::{Chooser, High, Low};
use ahci_port::DeviceStep;
use std::alloc::AllocError;
use test_helpers::{FAIL_0, Job, TWELVE};

/// The jobs of a run.
#[derive(Clone, Copy, Debug)]
pub enum Jobs {
    None,
    /// A write of one sector, and a read of it.
    Pair,
    /// Twelve jobs on three sectors.
    Few,
}

impl Jobs {
    pub fn list(self) -> &'static [Job] {
        match self {
            Jobs::None => &[],
            Jobs::Pair => PAIR.as_slice(),
            Jobs::Few => TWELVE,
        }
    }
}

static PAIR: [Job; 2] = [Job::Write(0, 0x11), Job::Read(0)];

/// How a chooser goes about it.
#[derive(Clone, Copy, Debug, Drop)]
pub enum Way {
    Lowest,
    Highest,
    /// As the lowest, but that its second call fails tag 0 at sector 0; with the calls so far.
    FailsSecond(u8),
}

impl Chooser for Way {
    fn next(&mut self, issued: u32, accepted: u32) -> DeviceStep {
        match self {
            Way::Lowest => Low.next(issued, accepted),
            Way::Highest => High.next(issued, accepted),
            Way::FailsSecond(calls) => {
                *calls = calls.saturating_add(1);
                if *calls == 2 {
                    return FAIL_0.of_device();
                }
                Low.next(issued, accepted)
            }
        }
    }
}

/// A chooser for each worker, all of one way.
pub fn crowd<'a>(heap: &'a Heap, one: Way, workers: u32) -> Result<Vec<Way, &'a Heap>, AllocError>
    ensures { IfOk result (λ v. vec_len v ≡ workers) }
{
    vec![in heap; one; workers as usize]
}
