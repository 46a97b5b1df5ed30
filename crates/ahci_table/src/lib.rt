//! The memory of one tag's command: its command header, command table and data in one buffer, a window. A window is
//! built from a command and a list of pieces, or taken from any bytes; it is checked, and data is moved in and out of it.
#![tactic(auto)]

mod build;
mod check;
mod command;
mod defaults;
mod entry;
mod fault;
mod header;
pub mod laws;
mod lay;
mod list;
mod piece;
mod piece_layout;
mod refusal;
mod runs;
mod scatter;
mod window;

pub use command::Command;
pub use defaults::default_pieces;
pub use fault::{BuildFault, TableFault};
pub use ncq_journal::OutOfMemory;
pub use piece::Piece;
pub use piece_layout::PieceLayout;
pub use refusal::default_fault;
pub use window::{MAX_BYTES, Window};
