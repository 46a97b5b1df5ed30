//! Numbers that are short, read with the word that they are: each byte is looked at once.

ghost use Rattle.std.specs.Prelude.{◌≡◌, Ok, Some, IfSome};
ghost use Rattle.ahci_script.specs.Number.{decimal_of, hexadecimal_of};
ghost use Rattle.ahci_script.specs.Words.{word_of};

use crate::number::hex_digit;
use crate::words::Words;

/// So many decimal digits fit 64 bits, whatever they are.
const DECIMAL: usize = 19;

/// So many hexadecimal digits fit 32 bits.
const HEXADECIMAL: usize = 8;

/// The decimal number that a text begins with, and the words after it. `None` where the first word is no number of 1 to 19
/// digits: it may still be one of 20.
#[inline]
pub(crate) fn short_decimal(text: &[u8]) -> Option<(u64, Words<'_>)>
    ensures { IfSome result (λ found. word_of decimal_of (Some text.now) ≡ Ok found) }
{
    let mut value: u64 = 0;
    for (at, b) in text.iter().enumerate() {
        if b.is_ascii_digit() && at < DECIMAL {
            value = 10 * value + u64::from(*b - b'0');
        } else if *b == b' ' && at > 0 {
            return Some((value, Words::after(text, at)));
        } else {
            return None;
        }
    }
    if text.is_empty() {
        return None;
    }
    Some((value, Words::none()))
}

/// The hexadecimal number that a text begins with, and the words after it. `None` where the first word is no number of 1 to 8
/// digits.
#[inline]
pub(crate) fn short_hexadecimal(text: &[u8]) -> Option<(u32, Words<'_>)>
    ensures { IfSome result (λ found. word_of hexadecimal_of (Some text.now) ≡ Ok found) }
{
    let mut value: u32 = 0;
    for (at, b) in text.iter().enumerate() {
        match hex_digit(*b) {
            Some(digit) if at < HEXADECIMAL => value = 16 * value + u32::from(digit),
            None if *b == b' ' && at > 0 => return Some((value, Words::after(text, at))),
            _ => return None,
        }
    }
    if text.is_empty() {
        return None;
    }
    Some((value, Words::none()))
}
