//! The registers by their offsets (AHCI 1.3.1, sections 3.1 and 3.3).

pub const CAP: u32 = 0x000;

pub const GHC: u32 = 0x004;

pub const IS: u32 = 0x008;

pub const PI: u32 = 0x00C;

pub const VS: u32 = 0x010;

pub const PX_CLB: u32 = 0x100;

pub const PX_CLBU: u32 = 0x104;

pub const PX_FB: u32 = 0x108;

pub const PX_FBU: u32 = 0x10C;

pub const PX_IS: u32 = 0x110;

pub const PX_IE: u32 = 0x114;

pub const PX_CMD: u32 = 0x118;

pub const PX_TFD: u32 = 0x120;

pub const PX_SIG: u32 = 0x124;

pub const PX_SSTS: u32 = 0x128;

pub const PX_SCTL: u32 = 0x12C;

pub const PX_SERR: u32 = 0x130;

pub const PX_SACT: u32 = 0x134;

pub const PX_CI: u32 = 0x138;
