//! A guest's memory in which slot 1 reads sector 3, laid out by hand (AHCI 1.3.1, "Building a Command").

/// How many bytes a window has: a table with one entry, and one sector after it.
pub const SHARE: usize = 0x290;

/// A command header: CFL 5, one entry, and the table at the base of tag 1, 14000000h.
pub const HEADER: [u8; 32] = [
    5, 0, 1, 0, 0, 0, 0, 0, 0, 0, 0, 0x14, 0, 0, 0, 0, 0, 0, 0, 0, 0, 0, 0, 0, 0, 0, 0, 0, 0, 0, 0,
    0,
];

/// CFIS: READ FPDMA QUEUED of one sector from sector 3 on, with tag 1.
const COMMAND: [u8; 16] = [
    0x27, 0x80, 0x60, 1, 3, 0, 0, 0x40, 0, 0, 0, 0, 0x08, 0, 0, 0,
];

/// The entry of the PRDT: 512 bytes at 14000090h.
const ENTRY: [u8; 16] = [0x90, 0, 0, 0x14, 0, 0, 0, 0, 0, 0, 0, 0, 0xFF, 0x01, 0, 0];

/// The memory from the tag's base on.
pub fn window() -> [u8; 0x290] {
    let mut memory = [0; SHARE];
    memory[..16].copy_from_slice(&COMMAND);
    memory[0x80..0x90].copy_from_slice(&ENTRY);
    memory
}

/// The command list.
pub fn list() -> [u8; 1024] {
    let mut list = [0; 1024];
    list[32..64].copy_from_slice(&HEADER);
    list
}

/// The windows of 32 slots, one after the other.
pub fn windows() -> [u8; 0x5200] {
    let mut windows = [0; 32 * SHARE];
    windows[SHARE..2 * SHARE].copy_from_slice(&window());
    windows
}
