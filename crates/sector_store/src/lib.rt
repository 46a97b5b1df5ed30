//! What holds the sectors of a disk: as they are now, and as they were when they were last kept. `SectorStore` is what a
//! disk needs of it; `Whole` holds every byte twice, and `Pages` the pages alone that were written.
#![tactic(auto)]

mod base;
mod branch;
mod change;
mod layer;
mod leaf;
mod page;
mod pages;
mod run;
mod sector_store;
mod sectors;
mod single;
mod slot;
mod table;
mod whole;
mod zero_sectors;

pub use base::{Base, Buffer, Zeros};
pub use pages::Pages;
pub use sector_store::SectorStore;
pub use sectors::Sectors;
pub use single::Single;
pub use whole::Whole;
