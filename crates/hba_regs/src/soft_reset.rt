use crate::slot::Slot;

/// How far the device is with a software reset (AHCI 1.3.1, section 10.4.1).
#[derive(Clone, Copy, PartialEq, Eq, Debug)]
pub enum SoftReset {
    /// There is none.
    Off,
    /// A control FIS has set SRST.
    Held,
    /// The control FIS of this slot has cleared it, and the signature ends its command.
    Ending(Slot),
}
