//! Fields by their places in a FIS.

ghost use Rattle.std.specs.Prelude.{◌≡◌, ◌+◌, ◌*◌, ◌<◌, ◌≤◌, ◌^◌, length};
ghost use Rattle.std.specs.List.{concat};
ghost use Rattle.sata_fis.specs.Places.{bit, flags, lba_at, number};

use byteorder::{ByteOrder, LittleEndian};

/// Whether the bit at a place of a byte, 0 the lowest, is 1.
pub fn is_set(byte: u8, place: u8) -> bool
    requires { place < 8 }
    ensures { result ≡ bit place byte }
{
    byte >> place & 1 == 1
}

/// Byte 1 of a FIS: bit 7 (C or A), bit 6 (I) and bit 5 (D).
pub(crate) fn flags(bit_7: bool, bit_6: bool, bit_5: bool) -> u8
    ensures { result ≡ flags bit_7 bit_6 bit_5 }
{
    u8::from(bit_7) << 7 | u8::from(bit_6) << 6 | u8::from(bit_5) << 5
}

/// The 24 bits at a place.
fn low_24(bytes: &[u8], place: usize) -> u32
    requires { place + 3 ≤ length bytes.now }
    ensures value { result ≡ number place 3 bytes.now }
    ensures fits { result < 2 ^ 24 }
{
    LittleEndian::read_u24(&bytes[place..])
}

/// The LBA, whose halves of 24 bits are in bytes 4 to 6 and 8 to 10.
pub(crate) fn lba_of(bytes: &[u8]) -> u64
    requires { 11 ≤ length bytes.now }
    ensures value { result ≡ lba_at bytes.now }
    ensures fits { result < 2 ^ 48 }
{
    u64::from(low_24(bytes, 4)) + (u64::from(low_24(bytes, 8)) << 24)
}

/// The bytes of dwords, in their order.
pub(crate) fn from_dwords<const N: usize>(dwords: &[[u8; 4]]) -> [u8; N]
    requires { N ≡ 4 * length dwords.now }
    ensures { result ≡ concat dwords.now }
{
    let mut bytes = [0; N];
    bytes.copy_from_slice(dwords.as_flattened());
    bytes
}
