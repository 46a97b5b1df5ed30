//! The register file of one AHCI port: what a read answers, and what a write or a received FIS changes
//! (AHCI 1.3.1, chapter 3).
#![tactic(auto)]

mod fault;
mod flags;
pub mod laws;
mod port_regs;
mod register;

pub use fault::RegFault;
pub use port_regs::PortRegs;
pub use register::Register;
