//! Scripts on a port: what each command does, its answer, and a whole script over any reader and writer.
#![tactic(auto)]

mod answer;
mod answer_writer;
mod issue;
mod lines;
mod refused;
mod run;
mod script;
mod script_fault;
mod session;
mod unanswered;
mod whole_script;
mod window;

pub use answer_writer::{AnswerWriter, AnswersAlone};
pub use script_fault::ScriptFault;
pub use session::Session;
pub use unanswered::Unanswered;
pub use whole_script::{replay, replay_with};
pub use window::read_window;
