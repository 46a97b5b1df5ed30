//! Tests of what no contract of `sector_store` says: how much memory a disk takes, and when.
#![tactic(auto)]

#[cfg(test)]
mod tests;
