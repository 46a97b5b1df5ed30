//! One AHCI port: registers, received FIS area, command list, slots with their windows, the queueing disk and the journal,
//! in step.
#![tactic(auto)]

mod ended;
mod fault;
mod memory;
mod pending;
mod port;
mod receive;
mod refusals;
mod reply;
mod sent;
mod slot;
mod software;
mod step;
mod tag_sets;
mod unqueued;
mod written;

pub use ahci_regs::RegFault;
pub use ahci_table::{BuildFault, Piece, PieceLayout, Window, default_pieces};
pub use fault::{
    CollectFault, IssueFault, PlainFault, RecoverFault, ReissueFault, ResetFault, ResumeFault,
    StepFault, SubmitFault, TrimFault, WriteFault, ZeroFault,
};
pub use ncq_core::DiskFault;
pub use ncq_journal::{Bytes, Event, EventKind, Journal, Op, Outcome, Phase, Plain};
pub use pending::Pending;
pub use port::{MOST_FIRST, Port};
pub use port_refusal::Refusal;
pub use reply::Reply;
pub use sent::Sent;
pub use step::{DeviceStep, Stepped};
pub use tag_sets::TagSets;
pub use written::Written;
