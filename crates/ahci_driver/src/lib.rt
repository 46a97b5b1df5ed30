//! A driver of one AHCI port for many threads: the port behind a lock, the free tags without one, workers that do
//! jobs, and the check of a whole run against the port's journal.
#![tactic(auto)]

mod chooser;
mod collect;
mod crowd;
mod driver;
mod fault;
mod finish;
mod gate;
mod gather;
mod left;
mod pump;
mod pumped;
mod ready;
mod receipt;
mod run_fault;
mod settlement;
mod submit;
mod ticket;
mod unfinished;
mod whole_run;
mod worker;

pub use chooser::{All, Chooser, High, Low};
pub use collect::collect_locked;
pub use driver::Driver;
pub use fault::{PumpFault, SettleFault, SubmitFault};
pub use gate::{Gate, Open};
pub use pump::pump_locked;
pub use pumped::Pumped;
pub use receipt::Receipt;
pub use run_fault::RunFault;
pub use settlement::settle;
pub use submit::submit_locked;
pub use tag_board::{BoardFault, Finding, Full, TagBoard, TagSeat};
pub use ticket::Ticket;
pub use whole_run::{RunEnd, run};
