//! Job lists as text in and text out: worked ones, and readers and writers that fail.
mod crews;
mod failures;
mod worked;
