//! The journal of one AHCI port and what it means: commands, events, the phase of a tag, and the image that
//! a journal leaves. The plain functions compute each definition by scanning, slowly; faster code is compared
//! with them.
#![tactic(auto)]

mod answer;
mod bytes;
mod claim;
mod event;
mod event_kind;
mod halted;
mod journal;
mod lawful;
pub mod laws;
mod op;
mod outcome;
mod owed;
mod phase;
mod plain;
mod request;
mod sector;
mod tag_state;
mod tags;
mod unlawful;

pub use answer::{Answer, answer_of, claims_hold};
pub use bytes::Bytes;
pub use claim::Claim;
pub use event::Event;
pub use event_kind::{EventKind, NamesEvent};
pub use halted::{is_busy, is_halted};
pub use journal::{Journal, entry_in};
pub use lawful::{LBA_LIMIT, MAX_COUNT, is_allowed, is_lawful, is_proper, lie_on};
pub use op::Op;
pub use outcome::Outcome;
pub use owed::owed_by;
pub use phase::{Phase, phase_after, phase_of};
pub use plain::Plain;
pub use request::{Request, request_of};
pub use sector::{
    after_zero, is_covered, is_within, read_sectors, sector_in, sector_of, write_sectors,
    zero_sectors,
};
pub use std::alloc::AllocError as OutOfMemory;
pub use tags::{ci_of, device_tags_of, sact_of};
pub use unlawful::first_unlawful;
