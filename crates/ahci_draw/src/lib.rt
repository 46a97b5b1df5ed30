//! A picture of what a script's port did: its journal in rows of a hundred entries, with a lane for each tag that is used, as SVG
//! (Scalable Vector Graphics 1.1).
//!
//! An answer writer makes a *listing* while the script runs, in which each entry has a line: a letter for each thing that is drawn of it. The
//! picture is made of these lines once the script has ended, when it is known which tags have a lane and how long each run is.
#![tactic(auto)]

mod drawer;
mod entries;
mod grid;
mod heading;
mod lanes;
pub mod laws;
mod line;
mod listing;
mod mark;
mod marks;
mod overview;
mod picture;
mod places;
mod row;
mod signs;
mod strip;
mod tag_state;
mod tags;
mod text;
mod whole_drawing;
mod words;

pub use whole_drawing::{draw, draw_with};
