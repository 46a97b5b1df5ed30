use ahci_port::Stepped;

/// What a pump did.
#[derive(Clone, Copy, Debug, PartialEq, Eq)]
pub enum Pumped {
    /// Nothing: no command waits for the device or is outstanding in it, and none is held.
    Idle,
    /// The device took a step with a command.
    Stepped(Stepped),
    /// The port recovered from the failure of this tag's command.
    Recovered(u8),
    /// This tag's command was issued again.
    Reissued(u8),
}
