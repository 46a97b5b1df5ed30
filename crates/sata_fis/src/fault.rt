/// Why bytes are no FIS.
#[derive(Clone, Copy, Debug, PartialEq, Eq)]
pub enum FisFault {
    /// There are no bytes.
    Empty,
    /// Byte 0, which is none of the seven types.
    UnknownType(u8),
    /// The number of bytes, which the type doesn't have.
    WrongLength(usize),
}
