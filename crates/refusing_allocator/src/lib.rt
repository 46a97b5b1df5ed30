//! An allocator for tests. It passes each request on, counts requests and bytes, and refuses those that it has to refuse.
#![tactic(auto)]

mod counter;
mod refusing;

pub use refusing::{Refusals, Refusing};
