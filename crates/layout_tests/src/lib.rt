//! Tests of what no contract says, of the layouts of bits, registers, FISes and windows, over the public calls of `word_bits`,
//! `ahci_regs`, `hba_regs`, `sata_fis` and `ahci_table`. They are in a crate of their own, so that no other crate is proved twice.
#![tactic(auto)]

#[cfg(test)]
mod bits;
#[cfg(test)]
mod controller;
#[cfg(test)]
mod fises;
#[cfg(test)]
mod registers;
#[cfg(test)]
mod table;
#[cfg(test)]
mod windows;
