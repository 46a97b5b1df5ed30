/// Why a command of the disk is neither served nor failed. The cases are tested in this order.
#[derive(Clone, Copy, Debug, PartialEq, Eq)]
pub enum ServeFault {
    /// There is an error condition.
    Stopped,
    /// No command is outstanding at the tag.
    NotAccepted,
    /// The sector is not one of the command's. Only a failure names a sector.
    OutsideCommand,
}
