//! The register file of an AHCI controller with one port, as a driver finds it: what a read of any size answers, and what a
//! write, a received FIS or an error changes (AHCI 1.3.1, chapter 3).
#![tactic(auto)]

mod access_size;
mod capabilities;
mod consequence;
mod device_kind;
mod fatal;
mod hba_regs;
mod interface_error;
pub mod laws;
mod link;
mod port;
mod register;
mod signature;
mod slot;
mod soft_reset;
mod words;

pub use access_size::AccessSize;
pub use capabilities::Capabilities;
pub use consequence::Consequence;
pub use device_kind::DeviceKind;
pub use fatal::Fatal;
pub use hba_regs::HbaRegs;
pub use interface_error::InterfaceError;
pub use link::Link;
pub use register::Register;
pub use signature::Signature;
pub use slot::Slot;
pub use soft_reset::SoftReset;
