use ncq_journal::Plain;

/// What the disk answers to the bytes of a command.
#[derive(Clone, Copy, Debug, PartialEq, Eq)]
pub enum Taken {
    /// A queued command is outstanding from now on: its Register FIS - Device to Host.
    Accepted([u8; 20]),
    /// The command is refused: a Register FIS - Device to Host with ERR.
    Refused([u8; 20]),
    /// A command that is not queued, for the caller to carry out.
    Plain(Plain),
}
