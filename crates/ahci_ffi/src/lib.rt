//! What C can do with a port: a place for one, and each call over it, answered by one status.
#![tactic(auto)]

mod bare;
mod check;
mod choose;
mod collection;
mod create;
mod entries;
mod fises;
mod flat;
mod held;
mod laws;
mod names;
mod pages;
mod place;
mod port_state;
mod query;
mod recovery;
mod registers;
mod status;
mod steps;
mod submission;
mod windows;

pub use bare::Bare;
pub use check::journal_check;
pub use choose::{choose_tag, choose_tags};
pub use collection::collect;
pub use create::{make, make_over, make_zeros, over_refusal, size_refusal};
pub use entries::{entry, entry_bytes};
pub use fises::{fis_decode, fis_encode};
pub use flat::{
    FlatCommand, FlatEntry, FlatFis, FlatReply, FlatSets, FlatSlot, FlatState, FlatStep,
    FlatWritten,
};
pub use held::Held;
pub use laws::{entries_are_judged_as_their_journal, entries_name_their_events};
pub use names::status_text;
pub use pages::{identify_page, log_page};
pub use place::Place;
pub use port_state::state;
pub use query::{copy, depth, received, register, sectors, slot, tag_sets, touched};
pub use recovery::{acknowledge, flush, identify, recover, reissue, trim};
pub use registers::{read_register, write_register};
pub use status::Status;
pub use steps::{accept, fail, serve};
pub use submission::{issue, submit};
pub use windows::window_check;
