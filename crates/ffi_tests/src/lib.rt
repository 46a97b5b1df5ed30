//! Tests of what no contract says, over the public calls of `ahci_ffi`. They are in a crate of their own, so that no other
//! crate is proved twice.
#![tactic(auto)]

#[cfg(test)]
mod tests;
