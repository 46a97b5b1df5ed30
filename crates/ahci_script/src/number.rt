//! Numbers as a script spells them, each from a word that isn't empty.

ghost use Rattle.std.specs.Prelude.{◌≡◌, ◌≤◌, ◌^◌, length, true, ◌<◌, IfOk};
ghost use Rattle.std.specs.Char.{is_ascii_digit};
ghost use Rattle.std.specs.List.{list_all};
ghost use Rattle.ahci_script.specs.HexBytes.{hex_digit_value};
ghost use Rattle.ahci_script.specs.Number.{below, byte_of, decimal_of, decimal_value, digits_of, hex_digit_of, hexadecimal_of, hexadecimal_value, is_hex_digit, not_hexadecimal, page_word_of, sectors_of, tag_of, two_digits_of, with_digit};

use crate::fault::Fault;

/// A decimal number: 1 to 20 digits, whose value fits 64 bits.
///
/// # Errors
/// `NotDecimal`, then `LongNumber`, then `WideNumber`: the first case that holds.
pub fn decimal(word: &[u8]) -> Result<u64, Fault>
    ensures { result ≡ decimal_of word.now }
{
    if word.is_empty() || !is_digits(word) {
        return Err(Fault::NotDecimal);
    }
    if word.len() > 20 {
        return Err(Fault::LongNumber);
    }
    value(word).ok_or(Fault::WideNumber)
}

/// Whether each byte of the word is a digit.
fn is_digits(word: &[u8]) -> bool
    ensures { result ≡ list_all is_ascii_digit word.now }
{
    word.iter().all(|b| b.is_ascii_digit())
}

/// The value of decimal digits, where it fits 64 bits.
fn value(digits: &[u8]) -> Option<u64>
    requires { list_all is_ascii_digit digits.now ≡ true }
    ensures { result ≡ below (2 ^ 64) (decimal_value digits.now) }
{
    let mut value: u64 = 0;
    for digit in digits {
        value = push_digit(value, *digit)?;
    }
    Some(value)
}

/// The number with one more digit after it, where that fits 64 bits.
fn push_digit(number: u64, digit: u8) -> Option<u64>
    requires { 48 ≤ digit }
    ensures { result ≡ below (2 ^ 64) (with_digit number digit) }
{
    let tens = number.checked_mul(10)?;
    tens.checked_add(u64::from(digit - b'0'))
}

/// A tag: a decimal number from 0 to 31.
pub(crate) fn tag(word: &[u8]) -> Result<u8, Fault>
    ensures value { result ≡ tag_of word.now }
    ensures small { IfOk result (λ tag. tag < 32) }
{
    let number = decimal(word)?;
    if number < 32 {
        Ok(number as u8)
    } else {
        Err(Fault::LargeTag(number))
    }
}

/// So many sectors the largest disk has.
pub(crate) const MAX_SECTORS: u64 = 131_072;

/// A number of sectors: a decimal number from 0 to 131,072.
pub(crate) fn sectors(word: &[u8]) -> Result<u32, Fault>
    ensures { result ≡ sectors_of word.now }
{
    let number = decimal(word)?;
    if number <= MAX_SECTORS {
        Ok(number as u32)
    } else {
        Err(Fault::LargeCount(number))
    }
}

/// A word of the identify page: a decimal number from 0 to 255.
pub(crate) fn page_word(word: &[u8]) -> Result<u8, Fault>
    ensures { result ≡ page_word_of word.now }
{
    let number = decimal(word)?;
    if number < 256 {
        Ok(number as u8)
    } else {
        Err(Fault::LargeWord(number))
    }
}

/// The value of a hexadecimal digit, in either case.
pub(crate) fn hex_digit(b: u8) -> Option<u8>
    ensures { result ≡ hex_digit_of b }
{
    match b {
        b'0'..=b'9' => Some(b - b'0'),
        b'a'..=b'f' => Some(b - b'a' + 10),
        b'A'..=b'F' => Some(b - b'A' + 10),
        _ => None,
    }
}

/// The value of a hexadecimal digit, and 0 for any other letter.
pub(crate) fn hex_digit_value(b: u8) -> u8
    ensures value { result ≡ hex_digit_value b }
    ensures small { result < 16 }
{
    hex_digit(b).unwrap_or(0)
}

/// A hexadecimal number: 1 to 8 digits, and nothing before them.
pub(crate) fn hexadecimal(word: &[u8]) -> Result<u32, Fault>
    ensures { result ≡ hexadecimal_of word.now }
{
    digits(word).ok_or_else(|| not_hexadecimal(word, Fault::LongRegister))
}

/// The value of 1 to 8 hexadecimal digits.
fn digits(word: &[u8]) -> Option<u32>
    ensures { result ≡ digits_of word.now }
{
    if word.is_empty() || word.len() > 8 {
        return None;
    }
    hex_value(word)
}

/// The value of hexadecimal digits.
fn hex_value(digits: &[u8]) -> Option<u32>
    requires { length digits.now ≤ 8 }
    ensures { result ≡ hexadecimal_value digits.now }
{
    let mut value: u32 = 0;
    for digit in digits {
        value = 16 * value + u32::from(hex_digit(*digit)?);
    }
    Some(value)
}

/// A byte: exactly two hexadecimal digits.
pub(crate) fn byte(word: &[u8]) -> Result<u8, Fault>
    ensures { result ≡ byte_of word.now }
{
    two_digits(word).ok_or_else(|| not_hexadecimal(word, Fault::NotTwoDigits))
}

/// The value of two hexadecimal digits.
fn two_digits(word: &[u8]) -> Option<u8>
    ensures { result ≡ two_digits_of word.now }
{
    let [high, low] = word else {
        return None;
    };
    Some(16 * hex_digit(*high)? + hex_digit(*low)?)
}

/// Whether each letter of the word is a hexadecimal digit.
pub(crate) fn is_hexadecimal(word: &[u8]) -> bool
    ensures { result ≡ list_all is_hex_digit word.now }
{
    word.iter().all(|b| hex_digit(*b).is_some())
}

/// Why a word is no hexadecimal word of its length: it has another letter, or else a wrong length.
pub(crate) fn not_hexadecimal(word: &[u8], wrong_length: Fault) -> Fault
    ensures { result ≡ not_hexadecimal word.now wrong_length }
{
    if is_hexadecimal(word) {
        wrong_length
    } else {
        Fault::NotHexadecimal
    }
}
