//! Tests of what no contract of `tag_board` says: that calls succeed with ample memory, the worked story, and threads
//! that really run. They are in a crate of their own, so that the board is not proved twice.
#![tactic(auto)]

#[cfg(test)]
mod alone;
#[cfg(test)]
mod threads;
