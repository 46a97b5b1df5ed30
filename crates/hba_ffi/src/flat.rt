/// What a controller does next, as C sees it: numbers side by side, with no padding.
#[repr(C)]
#[derive(Clone, Copy, Debug, PartialEq, Eq)]
pub struct FlatHba {
    /// Where it reads or writes the driver's memory next; 0 if it does neither.
    pub address: u64,
    /// How many bytes; 0 if it does neither.
    pub length: u64,
    /// 0 if it does neither, 1 if it reads, 2 if it writes.
    pub want: u32,
    /// 1 if the interrupt line is asserted.
    pub interrupt: u32,
    /// 1 if the disk can send its signature.
    pub sign: u32,
    /// The queue depth in IDENTIFY DEVICE.
    pub depth: u32,
    /// By slot, the number of the next step with its command; 0 if there is none.
    pub next: [u8; 32],
}

/// What a controller can do, as C says it: the fields of CAP that may differ, with no padding. Of a flag, all but 0 is 1.
#[repr(C)]
#[derive(Clone, Copy, Debug, PartialEq, Eq)]
pub struct FlatCapabilities {
    /// The number of command slots, 1 to 32; CAP.NCS has this number less 1.
    pub ncs: u32,
    /// The fastest generation of the interface, 1 to 3.
    pub iss: u32,
    /// 64-bit addressing.
    pub s64a: u32,
    /// Native command queuing.
    pub sncq: u32,
    /// Staggered spin-up.
    pub sss: u32,
    /// Command list override.
    pub sclo: u32,
    /// Aggressive link power management.
    pub salp: u32,
    /// PIO multiple DRQ block.
    pub pmd: u32,
}

/// What names the disk, as C says it: texts of ASCII, filled up with spaces, with no padding.
#[repr(C)]
#[derive(Clone, Copy)]
pub struct FlatIdentity {
    /// Serial number.
    pub serial: [u8; 20],
    /// Firmware revision.
    pub firmware: [u8; 8],
    /// Model number.
    pub model: [u8; 40],
    /// Nominal media rotation rate: 0 of a disk that doesn't report it, 1 of one that doesn't rotate, or 1,025 to 65,534 revolutions a minute.
    pub rotation: u32,
}
