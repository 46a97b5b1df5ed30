//! The ends of a program: bytes from a reader, and the lines in them, bytes to a writer, and how the reads and writes went.
#![tactic(auto)]

mod hex_digits;
mod input;
mod input_failed;
mod lines;
mod output_failed;
mod reads;
mod stopped;
mod takes_lines;
mod text_buffer;
mod writes;

pub use hex_digits::{eight_digits, four_digits, spaced_byte, two_digits};
pub use input::{Found, INPUT_LIMIT, Input, LINE_LIMIT};
pub use input_failed::InputFailed;
pub use lines::take_lines;
pub use output_failed::OutputFailed;
pub use reads::Reads;
pub use stopped::Stopped;
pub use takes_lines::TakesLines;
pub use text_buffer::TextBuffer;
pub use writes::Writes;
