//! Where a line breaks a rule of the language.

ghost use Rattle.std.specs.Prelude.{◌≡◌};
ghost use Rattle.ahci_script.specs.Breaches.{begins_with_mark, breach_at, high_byte, odd_byte, odd_fault, seen};

use crate::fault::Fault;

/// Where a line breaks a rule of the language: how many bytes of it there are from there on, and the rule.
#[derive(Clone, Copy, Debug, PartialEq, Eq)]
pub struct Breach {
    pub left: usize,
    pub fault: Fault,
}

impl Breach {
    /// A rule is broken where this end of a line begins.
    pub(crate) fn at(end: &[u8], fault: Fault) -> Self
        ensures { result ≡ breach_at end.now fault }
    {
        Breach {
            left: end.len(),
            fault,
        }
    }

    /// The first byte of a line that no command has, where there is one; else the breach that was found.
    pub(crate) fn seen_in(self, line: &[u8]) -> Self
        ensures { result ≡ seen line.now self }
    {
        if begins_with_mark(line) {
            return Breach::at(line, Fault::ByteOrderMark);
        }
        match odd_byte(line) {
            Some(at) => Breach::at(&line[at..], odd_fault(line[at])),
            None => self,
        }
    }
}

/// Whether a line begins with a byte order mark in UTF-8.
fn begins_with_mark(line: &[u8]) -> bool
    ensures { result ≡ begins_with_mark line.now }
{
    matches!(line, [0xef, 0xbb, 0xbf, ..])
}

/// The place of the first byte that no command has: a control byte, or one over 127.
fn odd_byte(text: &[u8]) -> Option<usize>
    ensures { result ≡ odd_byte text.now }
{
    text.iter().position(|b| *b < 32 || *b >= 127)
}

/// What a byte is called that no command has.
fn odd_fault(byte: u8) -> Fault
    ensures { result ≡ odd_fault byte }
{
    match byte {
        b'\t' => Fault::Tab,
        b'\r' => Fault::CarriageReturn,
        128..=255 => Fault::HighByte,
        _ => Fault::ControlByte(byte),
    }
}

/// The place of the first byte over 127.
pub(crate) fn high_byte(text: &[u8]) -> Option<usize>
    ensures { result ≡ high_byte text.now }
{
    text.iter().position(|b| *b >= 128)
}
