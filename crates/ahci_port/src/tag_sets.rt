/// Which tags wait for what, each set as the bits of a word.
#[derive(Clone, Copy, Debug, PartialEq, Eq)]
pub struct TagSets {
    /// Their command waits for the device.
    pub issued: u32,
    /// The device has taken their command, and it has not failed.
    pub accepted: u32,
    /// Another command's error has ended theirs, and it can be issued again.
    pub held: u32,
}
