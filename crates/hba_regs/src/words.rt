//! Parts of words, and of addresses of two words.

ghost use Rattle.std.specs.Prelude.{◌≡◌, ◌+◌, ◌*◌, ◌/◌, ◌%◌, ◌^◌, ◌<◌, ◌≤◌};
ghost use Rattle.hba_regs.specs.Accessing.{part, with_part};
ghost use Rattle.hba_regs.specs.Reading.{bit_word};
ghost use Rattle.hba_regs.specs.Writing.{with_lower, with_upper};

/// The word of one bit at a place below 32, or 0.
pub fn bit(is_one: bool, place: u8) -> u32
    requires { place < 32 }
    ensures value { result ≡ bit_word is_one place }
    ensures most { result ≤ 2 ^ place }
{
    if is_one { 1 << place } else { 0 }
}

/// The lower word of two.
pub fn lower(value: u64) -> u32
    ensures { result ≡ value % 2 ^ 32 }
{
    (value & 0xffff_ffff) as u32
}

/// The upper word of two.
pub fn upper(value: u64) -> u32
    ensures { result ≡ value / 2 ^ 32 }
{
    (value >> 32) as u32
}

/// A base with another lower word.
pub fn with_lower(base: u64, word: u32) -> u64
    ensures { result ≡ with_lower base word }
{
    (u64::from(upper(base)) << 32) + u64::from(word)
}

/// A base with another upper word.
pub fn with_upper(base: u64, word: u32) -> u64
    ensures { result ≡ with_upper base word }
{
    (u64::from(word) << 32) + u64::from(lower(base))
}

/// The word of two bytes.
pub fn two_bytes(upper: u8, lower: u8) -> u32
    ensures { result ≡ upper * 2 ^ 8 + lower }
{
    (u32::from(upper) << 8) + u32::from(lower)
}

/// The byte of a word at a place from 0 to 3.
pub fn byte_of(word: u32, place: u32) -> u64
    requires { place < 4 }
    ensures { result ≡ part word (8 * place) 1 }
{
    u64::from((word >> (8 * place)) & 0xff)
}

/// The two bytes of a word from a place on, which is 0 or 2.
pub fn pair_of(word: u32, place: u32) -> u64
    requires { place < 4 }
    ensures { result ≡ part word (8 * place) 2 }
{
    u64::from((word >> (8 * place)) & 0xffff)
}

/// A word with another byte at a place from 0 to 3: the lowest of a value.
pub fn with_byte(word: u32, place: u32, value: u64) -> u32
    requires { place < 4 }
    ensures { result ≡ with_part word (8 * place) 1 value }
{
    let byte = (value % 0x100) as u32;
    match place {
        0 => word / 0x100 * 0x100 + byte,
        1 => word / 0x1_0000 * 0x1_0000 + byte * 0x100 + word % 0x100,
        2 => word / 0x100_0000 * 0x100_0000 + byte * 0x1_0000 + word % 0x1_0000,
        _ => byte * 0x100_0000 + word % 0x100_0000,
    }
}

/// A word with two other bytes from a place on, which is 0 or 2: the lowest of a value.
pub fn with_pair(word: u32, place: u32, value: u64) -> u32
    requires below { place < 4 }
    requires even { place % 2 ≡ 0 }
    ensures { result ≡ with_part word (8 * place) 2 value }
{
    let pair = (value % 0x1_0000) as u32;
    match place {
        0 => word / 0x1_0000 * 0x1_0000 + pair,
        _ => pair * 0x1_0000 + word % 0x1_0000,
    }
}
