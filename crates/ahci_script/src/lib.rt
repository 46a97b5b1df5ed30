//! The language of scripts: lines and numbers, read and written.
#![tactic(auto)]

mod answer;
mod breach;
mod command_name;
mod fault;
mod grammar;
mod hex_bytes;
mod job;
pub mod laws;
mod line;
mod number;
mod output;
mod print;
mod raw_window;
mod result_line;
mod result_text;
mod short_number;
mod tags;
mod text;
mod told;
mod words;

pub use answer::ScriptAnswer;
pub use breach::Breach;
pub use fault::Fault;
pub use grammar::read_line;
pub use hex_bytes::HexBytes;
pub use job::{Job, JobLine, read_job};
pub use line::{Line, ScriptCommand};
pub use number::decimal;
pub use output::Output;
pub use port_refusal::Refusal;
pub use print::push_command;
pub use raw_window::RawWindow;
pub use result_line::ResultLine;
pub use result_text::push_result;
pub use told::answer_bytes;
pub use words::after_first;
