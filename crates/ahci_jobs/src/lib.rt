//! Job lists: read from any reader, done by workers on threads, and reported to any writer.
#![tactic(auto)]

mod form;
mod issued;
mod job_list;
mod jobs_fault;
pub mod laws;
mod objects;
mod parse;
mod run;
mod run_size;
mod script;
mod text;

pub use form::Form;
pub use jobs_fault::JobsFault;
pub use run::{run_jobs, run_jobs_with};
pub use run_size::RunSize;
