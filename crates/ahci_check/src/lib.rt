//! Scripts and job lists judged line by line, with nothing run.
#![tactic(auto)]

mod as_json;
mod check_fault;
mod complaint;
mod complaints;
mod excess;
mod form;
mod jobs;
mod judge;
pub mod laws;
mod limit;
mod place;
mod report;
mod rule;
mod tags;
mod whole_check;
mod windows;

pub use ahci_script::Fault;
pub use check_fault::CheckFault;
pub use complaint::Complaint;
pub use complaints::complaint_of;
pub use form::Form;
pub use jobs::job_complaint_of;
pub use judge::Judge;
pub use limit::Limit;
pub use place::Place;
pub use rule::Rule;
pub use whole_check::{check, check_jobs, check_with};
