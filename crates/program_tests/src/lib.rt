//! Tests of what no contract says, over the public calls of `ahci_args`, `ahci_cli` and what it replays and runs. They are in a
//! crate of their own, so that no other crate is proved twice.
#![tactic(auto)]

#[cfg(test)]
mod tests;
