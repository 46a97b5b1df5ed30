//! Tests of what no contract of `ahci_driver` and `ahci_jobs` says: that calls succeed with ample memory, the worked stories and
//! job lists, which step a pump takes, that calls wait for the lock, and workers that really run.
#![tactic(auto)]

#[cfg(test)]
mod tests;
