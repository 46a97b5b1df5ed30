//! Each growth of each call that may want memory, refused in turn, over an allocator that counts; and the calls that take no
//! memory, over one that has none left.
#![tactic(auto)]

#[cfg(test)]
mod tests;
