//! The calls that take no memory, over a heap that has none left: they answer as ever, and don't ask it.
mod boards;
mod disks;
mod drivers;
mod moves;
mod stories;

use crate::tests::heap::{Asked, Heap, equal, growths_of};
use std::fmt::Debug;
use std::process::Abort;

/// Compares what a call answered while all is refused, which it has not asked for anything.
fn unasked<C: Debug, T: PartialEq + Debug>(
    rt: &impl Abort,
    heap: &Heap,
    call: &C,
    found: &T,
    wanted: &T,
) {
    equal(rt, call, 0, found, wanted);
    equal(rt, call, 0, &growths_of(heap), &Asked::Granted(0));
}
