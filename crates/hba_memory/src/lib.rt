//! A command's data in the driver's memory: which runs of bytes a controller reads and writes there, and in which order (AHCI
//! 1.3.1, section 4.2.3 "Command Table" and chapter 5 "Data Structures, Transport Layer and Link Layer").
//!
//! Memory is not touched here. `Scatter`, `Gather` and `TableReader` say which run comes next, and get its bytes or hear that
//! they were written; so whoever has the memory copies.
#![tactic(auto)]

mod blocks;
mod dma_writes;
mod fetch;
mod gather;
pub mod laws;
mod lengths;
mod processed;
mod put;
mod reading;
mod reserved_buffer;
mod scatter;
mod table;

pub use blocks::Blocks;
pub use dma_writes::DmaWrites;
pub use fetch::{Fetch, is_short, is_write, moved_by};
pub use gather::Gather;
pub use lengths::total;
pub use processed::has_processed;
pub use put::SmallPut;
pub use reading::Reading;
pub use reserved_buffer::ReservedBuffer;
pub use scatter::Scatter;
pub use table::{MAX_ENTRIES, TableReader};
