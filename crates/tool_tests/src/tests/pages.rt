//! The two pages of a disk: their texts, and how they are written.
mod texts;
mod write;
