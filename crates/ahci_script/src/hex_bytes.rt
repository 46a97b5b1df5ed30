//! Bytes that a line spells by hexadecimal digits.

ghost use Rattle.std.specs.Prelude.{◌≡◌, ◌<◌, length, get_or};
ghost use Rattle.ahci_script.specs.HexBytes.{header_of, hex_bytes_of, some_bytes_of, some_header_of};

use crate::fault::Fault;
use crate::number::{hex_digit_value, is_hexadecimal, not_hexadecimal};
use std::marker::Model;

/// Bytes as a line spells them, by two hexadecimal digits each, in either case. They stay in the line, and are read where they
/// are needed.
#[derive(Debug, Drop)]
pub struct HexBytes<'a> {
    digits: &'a [u8],
}

impl<'a> Model for HexBytes<'a> {
    ghost use Rattle.std.specs.Prelude.{List, ℕ};
    ghost use Rattle.ahci_script.specs.HexBytes.{pairs_of};

    ghost Value = { List ℕ };

    ghost view = { λ h. pairs_of h.digits.now };
}

impl<'a> HexBytes<'a> {
    /// The bytes that a word spells: an even number of hexadecimal digits, two at least, and nothing else.
    fn new(word: &'a [u8]) -> Option<Self>
        ensures { result ≡ some_bytes_of word.now }
    {
        if word.is_empty() || word.len() % 2 != 0 || !is_hexadecimal(word) {
            return None;
        }
        Some(HexBytes { digits: word })
    }

    /// How many bytes there are.
    #[tactic(auto, using(crate::proofs::HexBytesLemmas::length_pairs))]
    pub fn len(&self) -> usize
        ensures { result ≡ length self.now }
    {
        self.digits.len() / 2
    }

    /// The byte at an index.
    #[tactic(auto, using(crate::proofs::HexBytesLemmas::length_pairs, crate::proofs::HexBytesLemmas::pairs_at))]
    pub(crate) fn byte(&self, index: usize) -> u8
        requires { index < length self.now }
        ensures { result ≡ get_or self.now index 0 }
    {
        let digits = self.digits;
        16 * hex_digit_value(digits[2 * index]) + hex_digit_value(digits[2 * index + 1])
    }

    /// Reads all of them into as many places.
    pub fn read_into(&self, out: &mut [u8])
        requires { length out.old ≡ length self.now }
        ensures { out.new ≡ self.now }
    {
        for index in 0..out.len() {
            out[index] = self.byte(index);
        }
    }
}

/// Bytes, by an even number of hexadecimal digits, two at least, and nothing else.
pub(crate) fn hex_bytes(word: &[u8]) -> Result<HexBytes<'_>, Fault>
    ensures { result ≡ hex_bytes_of word.now }
{
    HexBytes::new(word).ok_or_else(|| not_hexadecimal(word, Fault::OddDigits))
}

/// The 32 bytes of a command header, by 64 hexadecimal digits.
pub(crate) fn header(word: &[u8]) -> Result<[u8; 32], Fault>
    ensures { result ≡ header_of word.now }
{
    some_header(word).ok_or_else(|| not_hexadecimal(word, Fault::NotSixtyFourDigits))
}

fn some_header(word: &[u8]) -> Option<[u8; 32]>
    ensures { result ≡ some_header_of word.now }
{
    let bytes = HexBytes::new(word)?;
    if bytes.len() != 32 {
        return None;
    }
    let mut header = [0; 32];
    bytes.read_into(&mut header);
    Some(header)
}
