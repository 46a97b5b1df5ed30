//! What each command of a script did to the port, printed after its answer: the journal's new entries, the bytes that were sent
//! and received, the registers that changed, and the states of the owned slots. The same as one JSON object for each command.
#![tactic(auto)]

mod appended;
mod as_json;
mod change;
mod close;
mod command_trace;
mod kinds;
pub mod laws;
mod mark;
mod names;
mod note;
mod owned;
mod received;
mod register_write;
mod sent;
mod served;
mod shown;
mod tracer;
mod transfer;

pub use appended::Appended;
pub use change::Change;
pub use command_trace::CommandTrace;
pub use mark::Mark;
pub use owned::OwnedSlot;
pub use received::Received;
pub use register_write::RegisterWrite;
pub use sent::SentCommand;
pub use tracer::{Tracer, trace, trace_json, trace_json_with, trace_with};
