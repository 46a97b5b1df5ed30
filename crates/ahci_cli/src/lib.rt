//! The program `ahci` as one function, with its faults; a whole script and a whole job list under these faults.
#![tactic(auto)]

mod end;
mod entry;
mod fault;
mod fault_text;
mod jobs;
mod laws;
mod pages;
mod picked;
mod scripts;
mod stream_log;
mod words_fault;

pub use ahci_args::{Asked, Pick, RunForm, asked, not_text};
pub use entry::{program, program_with, program_without_words};
pub use fault::CliFault;
pub use jobs::run_jobs;
pub use laws::a_check_of_jobs_stops_where_a_run_stops;
pub use scripts::replay;
pub use stream_log::StreamLog;
pub use words_fault::WordsFault;
