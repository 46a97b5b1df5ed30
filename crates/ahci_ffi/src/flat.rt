//! What C sees as structs: numbers side by side, with no padding.

/// What the device did in a step.
#[repr(C)]
#[derive(Clone, Copy, Debug, Default, PartialEq, Eq)]
pub struct FlatStep {
    /// The number of its first entry.
    pub first: u64,
    /// How many entries it has.
    pub count: u32,
    /// 0 where a command is accepted, 1 where commands are completed, 2 where one has failed.
    pub did: u32,
}

/// How a request ended.
#[repr(C)]
#[derive(Clone, Copy, Debug, Default, PartialEq, Eq)]
pub struct FlatReply {
    pub number: u64,
    /// The number of the entry that answered it.
    pub entry: u64,
    /// Of a failure, the failing sector.
    pub lba: u64,
    /// How many bytes it has read.
    pub bytes: u64,
    /// 0 where it has read, 1 where it has written, 2 where it has failed.
    pub outcome: u32,
    /// Of a failure, the error byte.
    pub error: u32,
}

/// One slot.
#[repr(C)]
#[derive(Clone, Copy, Debug, PartialEq, Eq)]
pub struct FlatSlot {
    /// The number of the request that owns it; 0 where it is free.
    pub number: u64,
    /// How many bytes the request reads.
    pub bytes: u64,
    /// The phase of the tag.
    pub phase: u32,
    /// 1 where a request owns it.
    pub owned: u32,
}

/// Which tags wait for what.
#[repr(C)]
#[derive(Clone, Copy, Debug, PartialEq, Eq)]
pub struct FlatSets {
    pub issued: u32,
    pub accepted: u32,
    pub held: u32,
}

/// One entry of a journal. What its kind doesn't name is 0.
#[repr(C)]
#[derive(Clone, Copy, Debug, PartialEq, Eq)]
pub struct FlatEntry {
    pub lba: u64,
    pub sectors: u32,
    pub kind: u32,
    pub tag: u32,
    pub error: u32,
}

/// All that can be seen of a port at once. What is by tag has 32 places.
#[repr(C)]
#[derive(Clone, Copy, Debug, PartialEq, Eq)]
pub struct FlatState {
    /// The number of the journal's first entry, and of the next one.
    pub first: u64,
    pub next: u64,
    /// By tag, the number of the request that owns the slot; 0 where it is free.
    pub numbers: [u64; 32],
    pub depth: u32,
    pub sectors: u32,
    /// 1 where a command has failed and the port has not recovered.
    pub halted: u32,
    pub issued: u32,
    pub accepted: u32,
    pub held: u32,
    pub cap: u32,
    pub ghc: u32,
    pub pi: u32,
    pub vs: u32,
    pub px_clb: u32,
    pub px_clbu: u32,
    pub px_fb: u32,
    pub px_fbu: u32,
    pub px_is: u32,
    pub px_ie: u32,
    pub px_cmd: u32,
    pub px_tfd: u32,
    pub px_sig: u32,
    pub px_ssts: u32,
    pub px_sctl: u32,
    pub px_serr: u32,
    pub px_sact: u32,
    pub px_ci: u32,
    /// The received FIS area.
    pub received: [u8; 256],
    /// By tag, the number of the phase.
    pub phases: [u8; 32],
}

/// What a driver's write of a register did.
#[repr(C)]
#[derive(Clone, Copy, Debug, PartialEq, Eq)]
pub struct FlatWritten {
    /// 0 where no command has moved, 1 where commands are issued, 2 where the port has recovered, 3 where a command is not issued.
    pub did: u32,
    /// The slots whose commands are issued.
    pub slots: u32,
    /// The tag whose command had failed, or the slot whose command is not issued.
    pub tag: u32,
}

/// What a window asks for.
#[repr(C)]
#[derive(Clone, Copy, Debug, Default, PartialEq, Eq)]
pub struct FlatCommand {
    pub lba: u64,
    pub sectors: u32,
    /// 0 for a read, 1 for a write.
    pub kind: u32,
    pub tag: u32,
    /// How many entries its PRDT has.
    pub pieces: u32,
}

/// A FIS. What its type doesn't have is 0.
#[repr(C)]
#[derive(Clone, Copy, Debug, Default, PartialEq, Eq)]
pub struct FlatFis {
    pub lba: u64,
    pub sactive: u32,
    /// The buffer offset of DMA Setup, in bytes.
    pub offset: u32,
    /// The transfer count of DMA Setup, in bytes.
    pub transfer: u32,
    pub features: u16,
    pub count: u16,
    /// The transfer count of PIO Setup, in bytes.
    pub bytes: u16,
    /// How many bytes of payload a Data FIS has.
    pub payload: u16,
    /// Byte 0, the type.
    pub kind: u8,
    pub c: u8,
    pub a: u8,
    pub i: u8,
    pub d: u8,
    pub status: u8,
    pub error: u8,
    pub device: u8,
    pub command: u8,
    pub control: u8,
    pub e_status: u8,
    pub tag: u8,
}
