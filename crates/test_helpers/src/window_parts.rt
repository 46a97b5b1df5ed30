use std::alloc::{AllocError, Global};

/// The header and the bytes of the window of a read of one sector at LBA 0 to one piece after a table of one entry, but for the
/// first byte of the header, byte 12 of CFIS, and how many bytes the window has.
pub fn any_window(
    alloc: Global,
    flags: u8,
    count: u8,
    len: usize,
) -> Result<([u8; 32], Vec<u8>), AllocError> {
    let mut header = [0; 32];
    header[0] = flags;
    header[2] = 1;
    header[11] = 0x10;
    let mut bytes = vec![in alloc; 0u8; len]?;
    for (place, byte) in [
        (0, 0x27),
        (1, 0x80),
        (2, 0x60),
        (3, 1),
        (7, 0x40),
        (12, count),
        (0x80, 0x90),
        (0x83, 0x10),
        (0x8C, 0xFF),
        (0x8D, 1),
    ] {
        if let Some(old) = bytes.get_mut(place) {
            *old = byte;
        }
    }
    Ok((header, bytes))
}
