/// When a reader fails.
#[derive(Clone, Copy, Debug)]
pub enum ReadFailure {
    Never,
    /// Where it has no more bytes.
    AtTheEnd,
    /// Once so many reads were made.
    After(u32),
    /// Once so many reads were made, and that one time alone.
    Once(u32),
}
