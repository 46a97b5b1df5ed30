//! What a driver puts into memory for a controller: the command header, the entries of the PRDT, and what the command FIS asks of
//! the disk (AHCI 1.3.1, section 4.2; ACS-3). Beside it, the pages that the controller's disk answers with.
//!
//! No call allocates but those of `HostLogs`, and each returns on all bytes.
#![tactic(auto)]

mod action;
mod addressing;
mod change;
mod device;
mod disk_page;
mod disk_pages;
mod entry;
mod fis;
mod header;
mod host_logs;
mod host_page;
mod host_pages;
mod identify_log;
mod identity;
mod log;
mod log_pages;
mod long_logs;
mod multiple_mode;
mod not_queued;
mod page;
mod pages;
mod phy_events;
mod power;
mod protocol;
mod reply;
mod span;
mod store;
mod task;
mod tasks;
mod trim_range;
mod uncorrectable;
mod wide_name;
mod words;

pub use action::{Action, action_of, is_write, moved_by};
pub use addressing::{Addressing, addressed, addressing_of, reached};
pub use change::Change;
pub use device::{
    Device, after_ending, after_error_log, after_page, after_signature, after_srst, after_store,
    allows, allows_log, allows_page, device_after_reply, named, power_cycled, reset_device,
    with_cache, with_trim_zeros,
};
pub use disk_page::DiskPage;
pub use disk_pages::ready_page;
pub use entry::PrdEntry;
pub use fis::command_fis;
pub use header::CommandHeader;
pub use host_logs::{HostLogs, a_page_is_what_was_written_last};
pub use host_page::HostPage;
pub use host_pages::HostPages;
pub use identity::Identity;
pub use log::{Log, LongLog};
pub use log_pages::LogPages;
pub use long_logs::long_log_page;
pub use multiple_mode::{MultipleMode, block_sectors, lacks_blocks};
pub use not_queued::unfailed_page;
pub use page::Page;
pub use pages::{controller_page, not_queued_page};
pub use phy_events::PhyEvents;
pub use power::{Power, after_reply, after_reset, is_awake, needs_medium, power_count};
pub use protocol::Protocol;
pub use reply::Reply;
pub use span::Span;
pub use store::{Store, blocks_of, leaves_disk};
pub use task::Task;
pub use tasks::task_of;
pub use trim_range::{TrimRange, first_range, pass_first, ranges_come_in_order};
pub use uncorrectable::Uncorrectable;
