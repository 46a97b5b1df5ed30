use crate::finding::Finding;
use std::collections::LinkedList;

/// What a seat knows. Only contracts see it: no value of it is ever made.
pub struct View {
    /// How many tags the seat's board has.
    pub depth: u32,
    /// The seat's tags, as 32 truth values.
    pub tags: LinkedList<bool>,
    /// What the seat's own steps found, the newest first.
    pub log: LinkedList<Finding>,
}
