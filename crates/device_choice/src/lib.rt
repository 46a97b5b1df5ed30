//! Which tag the device goes on with: an order names one of a set, and the tags of one Set Device Bits FIS.
#![tactic(auto)]

pub mod laws;
mod order;
mod turn;

pub use order::{Order, tag_of};
pub use turn::turn_of;
