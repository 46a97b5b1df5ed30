/// What the next steps of all slots have in common, while the controller listens to its command list.
#[derive(Clone, Copy, Debug, PartialEq, Eq)]
pub(crate) struct Outlook {
    /// Whether the device may move.
    pub(crate) ready: bool,
    /// Whether some slot has a queued command.
    pub(crate) queueing: bool,
    /// How far behind the slot with the highest priority the nearest one is that waits, if a command may be read.
    pub(crate) reach: Option<u32>,
}
