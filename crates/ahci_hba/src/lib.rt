//! An AHCI controller with one port, as a real driver finds it: registers, commands in the driver's memory, and the model's port with its
//! disk and journal behind them (AHCI 1.3.1, chapters 3, 4, 5, 6.2 and 10.1).
//!
//! The core has no callbacks. It says which run of the driver's memory it reads or writes next, and is given the bytes or learns that they
//! were written; so whoever has that memory copies, and no proof is owed to it.
#![tactic(auto)]

mod command;
mod dma_state;
mod ending;
mod fault;
mod hba;
mod last_fis;
pub mod laws;
mod outlook;
mod step;
mod transfer;
mod want;

pub use command::Command;
pub use ending::Ending;
pub use fault::{HbaFault, PlugFault};
pub use hba::Hba;
pub use hba_command::Power;
pub use hba_regs::{AccessSize, Capabilities, DeviceKind, InterfaceError, Slot};
pub use last_fis::LastFis;
pub use step::Step;
pub use want::Want;
