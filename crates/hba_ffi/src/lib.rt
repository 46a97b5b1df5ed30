//! What C can do with a controller: a place for one, and each call over it, answered by one status. `ahci_c` exports the calls.
#![tactic(auto)]

mod capable;
mod create;
mod events;
mod flat;
mod held;
mod memory;
mod place;
mod plugs;
mod query;
mod registers;
mod rules;
mod settings;
mod steps;
mod trims;

pub use create::{make, make_over, make_with};
pub use events::{
    fail_interface, find_link, lose_link, plug, receive_bits, receive_register, receive_unknown,
    sign_as, unplug,
};
pub use flat::{FlatCapabilities, FlatHba, FlatIdentity};
pub use held::HeldHba;
pub use memory::{bytes, spoiled, supply, unmapped, written};
pub use place::HbaPlace;
pub use plugs::plug_other;
pub use query::{copy, entry, entry_bytes, look, may_be_left, port, touched};
pub use registers::{power_on, read, write};
pub use rules::{command_breaks, entry_breaks, length_breaks, write_breaks};
pub use settings::{identity, trim_zeros, write_cache, write_cache_enabled};
pub use steps::{end, fail, refuse, sign, step, trim_range};
pub use trims::trim;
