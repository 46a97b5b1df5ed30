use hba_regs::{DeviceKind, Slot};

/// What the device's last FIS for an answer says to the registers.
#[derive(Clone, Copy, Debug, PartialEq, Eq)]
pub enum LastFis {
    /// A D2H Register FIS for a slot: its status, its error and its I bit.
    Register {
        status: u8,
        error: u8,
        interrupt: bool,
        slot: Slot,
    },
    /// A Set Device Bits FIS with I: its status, its error, and the slots that are done.
    Bits {
        status: u8,
        error: u8,
        sactive: u32,
    },
    /// The data of a PIO Setup FIS with I have moved, for a slot.
    Pio {
        slot: Slot,
    },
    /// The signature of a device of some kind, in a D2H Register FIS.
    Signature(DeviceKind),
    /// A D2H Register FIS that no command asks for.
    Unsolicited,
    /// A FIS of a type that isn't known.
    Unknown,
}
