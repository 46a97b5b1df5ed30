//! The pages in which a disk describes itself, as text: that of IDENTIFY DEVICE, and page 0 of log 10h.
#![tactic(auto)]

mod byte_lines;
mod characters;
mod identify_text;
pub mod laws;
mod log_text;
mod names;
mod page_fault;
mod word_lines;
mod write;

pub use identify_text::IdentifyText;
pub use log_text::LogText;
pub use page_fault::PageFault;
pub use write::{write_identify, write_identify_with, write_log, write_log_with};
