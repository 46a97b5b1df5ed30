//! What no clause says of a check, a trace, a picture and a page: the texts of complaints at worked lines and of whole scripts,
//! those of pages, and what is written where memory, the input or the output fails.
#![tactic(auto)]

#[cfg(test)]
mod tests;
