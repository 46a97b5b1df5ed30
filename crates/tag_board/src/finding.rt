/// What one step of a seat found or did. Only contracts see it: no value of it is ever made.
#[derive(Clone, Copy, Debug, PartialEq, Eq)]
pub enum Finding {
    /// The word was loaded; its bits are the tags that were free.
    Seen(u32),
    /// A tag was tried; true where it was free, and so is the seat's.
    Tried(u8, bool),
    /// A tag was given back.
    Gave(u8),
}
