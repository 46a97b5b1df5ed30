/// A step of the device with the command of a slot.
#[derive(Clone, Copy, Debug, PartialEq, Eq)]
pub enum Step {
    /// The command is read: header, command FIS, PRDT, and a write's data.
    Fetch,
    /// A command that moves sectors goes to the port: its request is in the journal.
    Send,
    /// The device takes it, or refuses it if it passes the last sector.
    Accept,
    /// The device moves its data and completes it.
    Serve,
    /// Its answer is put together, and is written next; of a transfer by PIO, one block after the other.
    Deliver,
    /// The device answers a command that the port moves no sectors for, or aborts one.
    Execute,
    /// A control FIS sets or clears SRST: all commands are dropped.
    Control,
    /// The log of a failed queued command is read.
    Recover,
}
