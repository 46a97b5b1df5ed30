//! Tests of what no contract says, of the disk and its journal, over the public calls of `ncq_journal` and `ncq_core`. They are
//! in a crate of their own, so that no other crate is proved twice.
#![tactic(auto)]

#[cfg(test)]
mod disk;
#[cfg(test)]
mod journal;
#[cfg(test)]
mod table;
