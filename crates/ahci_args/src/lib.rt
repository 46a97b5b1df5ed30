//! The command line of `ahci`.
#![tactic(auto)]

mod command;
mod error_byte;
mod forms;
mod help;
mod parse;
mod pick;
mod request;
mod run_form;

pub use command::{LAST_ENTRY, LAST_LBA, LAST_TAG, MAX_DEPTH, MAX_SECTORS, MAX_WORKERS};
pub use parse::{asked, not_text};
pub use pick::Pick;
pub use request::Asked;
pub use run_form::RunForm;
