//! The comparison that all tables share.
use std::fmt::Debug;
use std::process::Abort;

/// Compares what was found at a row of a table with what the row wants.
pub fn equal<T: PartialEq + Debug>(rt: &impl Abort, row: usize, found: &T, wanted: &T) {
    assert_eq!(rt; *found, *wanted, "at row {row}");
}
