//! The free tags of a port, shared by any number of threads over one word, without a lock. The board's word holds
//! the free tags; each thread has a seat, whose tags no other seat has. Every call is at most a few single atomic
//! steps, and between any two steps of any threads each tag is free or in exactly one seat.
#![tactic(auto)]

mod board;
mod board_fault;
mod finding;
mod full;
pub mod laws;
mod rule;
mod seat;
mod steps;
mod view;

pub use board::TagBoard;
pub use board_fault::BoardFault;
pub use finding::Finding;
pub use full::Full;
pub use rule::FreeOrHeld;
pub use seat::TagSeat;
pub use view::View;
