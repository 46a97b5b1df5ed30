//! The bytes of Serial ATA's frame information structures (FIS), read and written, and the queued
//! command in a Register FIS - Host to Device.
//!
//! The types keep their ranges. An LBA is below 2^48, a tag below 32, a `Queued` has 1 to 65,536
//! sectors, a `SetBits` a status without bits 7 and 3, and a `Payload` 4 to 8,192 bytes, a multiple of 4.
//! A literal is accepted where the values are known to be in range. For values of unknown origin the
//! tests are `is_lba`, `is_tag`, `is_sector_count`, `is_set_bits_status` and `Payload::new`.
//!
//! No call takes memory, and each returns on every byte string.
#![tactic(auto)]

mod command;
mod d2h;
mod decoder;
mod dma_setup;
mod encoder;
mod fault;
mod fis;
mod h2d;
mod payload;
mod pio_setup;
mod places;
mod queued_command;
mod ranges;
mod set_bits;

pub use command::Queued;
pub use d2h::D2h;
pub use decoder::{d2h_at, decode, one_answer, pio_setup_at, set_bits_at};
pub use dma_setup::DmaSetup;
pub use encoder::{
    d2h_bytes, data_head, dma_activate_bytes, dma_setup_bytes, h2d_bytes, pio_setup_bytes,
    set_bits_bytes,
};
pub use fault::FisFault;
pub use fis::Fis;
pub use h2d::H2d;
pub use payload::Payload;
pub use pio_setup::PioSetup;
pub use places::is_set;
pub use queued_command::{h2d_of, queued};
pub use ranges::{is_lba, is_sector_count, is_set_bits_status, is_tag};
pub use set_bits::SetBits;
