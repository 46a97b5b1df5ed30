//! What several crates of tests share: steps of the device in a table, jobs of one sector, a window of any bytes,
//! and readers and a writer that fail.
#![tactic(auto)]

mod fail_steps;
mod fill;
mod full;
mod job;
mod read_failure;
mod source;
mod table_step;
mod window_parts;

pub use fail_steps::{FAIL_0, FAIL_1, FAIL_1_AT_7, FAIL_1_AT_8};
pub use fill::byte_of;
pub use full::Full;
pub use job::{Job, TWELVE, ops_of};
pub use read_failure::ReadFailure;
pub use source::Source;
pub use table_step::{RISING, TableStep};
pub use window_parts::any_window;
