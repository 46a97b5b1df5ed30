//! The rules of AHCI 1.3.1 for the software that drives a controller: which of them a write to a register, a command or an entry of its PRDT
//! breaks. Nothing here changes anything: a judge of drivers asks, and the controller answers each access as before.
#![tactic(auto)]

mod commands;
mod lists;
mod numbered;
mod rule;
mod verdict;
mod writes;

pub use commands::command_breaks;
pub use lists::{entry_breaks, length_breaks};
pub use rule::Rule;
pub use verdict::Verdict;
pub use writes::write_breaks;
