//! Tests of what no contract of `ahci_port` says. They are in a crate of their own, so that no other crate is proved twice.
#![tactic(auto)]

#[cfg(test)]
mod tests;
