//! The queueing disk, which takes commands by their FISes and moves their data between its image and a host. Beside it
//! is everything of `ncq_journal`, under the same names: a user of the disk needs no other crate for the journal.
#![tactic(auto)]

mod disk;
mod disk_fault;
mod host;
pub mod laws;
mod serve_fault;
mod taken;

pub use disk::{
    Disk, MAX_DEPTH, MAX_SECTORS, SECTOR, identify_page, log_page, over_fault, size_fault,
};
pub use disk_fault::DiskFault;
pub use host::Host;
pub use ncq_journal::{
    Answer, Bytes, Claim, Event, Journal, LBA_LIMIT, MAX_COUNT, Op, OutOfMemory, Outcome, Phase,
    Plain, Request, after_zero, answer_of, ci_of, claims_hold, device_tags_of, entry_in,
    is_allowed, is_busy, is_covered, is_halted, is_lawful, is_proper, is_within, lie_on, owed_by,
    phase_after, phase_of, read_sectors, request_of, sact_of, sector_in, sector_of, write_sectors,
    zero_sectors,
};
pub use serve_fault::ServeFault;
pub use taken::Taken;
