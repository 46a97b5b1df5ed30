//! The comparisons that all tables share. A row is named by its number, or by that and its table or a place in it.
use std::fmt::Debug;
use std::process::Abort;

/// Compares what was found at a row of a table with what the row wants.
pub fn equal<L, T>(rt: &impl Abort, row: L, found: &T, wanted: &T)
where
    L: Debug + Copy,
    T: PartialEq + Debug,
{
    assert_eq!(rt; *found, *wanted, "at row {row:?}");
}

/// Compares the bytes that were found at a row of a table with those that the row wants.
pub fn equal_bytes<L: Debug + Copy>(rt: &impl Abort, row: L, found: &[u8], wanted: &[u8]) {
    assert_eq!(rt; found, wanted, "at row {row:?}");
}
