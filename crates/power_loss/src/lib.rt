//! What a disk with a volatile write cache may hold after a loss of power, by the journal of its port.
#![tactic(auto)]

pub mod laws;
mod left;

pub use left::may_be_left;
