use crate::hex_bytes::HexBytes;

/// A window of any bytes as a line spells it, for the slot beside it: its command header, and the bytes of command
/// table and data (AHCI 1.3.1, section 4.2). The bytes stay in the line.
// The header comes first: an array at an odd place makes each move of a command dear.
#[derive(Debug, Drop)]
pub struct RawWindow<'a> {
    pub header: [u8; 32],
    pub bytes: HexBytes<'a>,
}
