/// What the controller does next with the driver's memory.
#[derive(Clone, Copy, Debug, PartialEq, Eq)]
pub enum Want {
    /// Nothing.
    Nothing,
    /// It reads a run of bytes.
    Read,
    /// It writes some bytes.
    Write,
}
