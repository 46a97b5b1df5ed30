ghost use Rattle.std.specs.Prelude.{◌≡◌, ◌<◌, Some};
ghost use Rattle.ata_pages.specs.LogText.{byte_line, byte_lines, is_told};

use crate::names::{byte_name, is_field};
use std::fmt;

/// The bytes of the log's page that are of a field or aren't 0, a line each.
#[derive(Clone, Copy)]
pub(crate) struct ByteLines<'a> {
    pub(crate) page: &'a [u8; 512],
}

impl fmt::Display for ByteLines<'_> {
    ghost output = { λ b. Some (byte_lines b.page.now 512) };

    #[tactic(auto, using(crate::proofs::LineLemmas::no_bytes, crate::proofs::LineLemmas::next_byte))]
    fn fmt<W: fmt::Write>(&self, f: &mut fmt::Formatter<W>) -> fmt::Result {
        for number in 0..512 {
            let value = self.page[number];
            let line = ByteLine { number, value };
            write!(f, "{line}")?;
        }
        Ok(())
    }
}

/// Whether a byte has a line: it isn't 0, or is of a field.
fn is_told(number: usize, value: u8) -> bool
    ensures { result ≡ is_told number value }
{
    value != 0 || is_field(number)
}

/// A byte's line, where it has one.
#[derive(Clone, Copy)]
struct ByteLine {
    number: usize,
    value: u8,
    ghost inside: { number < 512 },
}

impl fmt::Display for ByteLine {
    ghost output = { λ l. Some (byte_line l.number l.value) };

    fn fmt<W: fmt::Write>(&self, f: &mut fmt::Formatter<W>) -> fmt::Result {
        let ByteLine { number, value } = *self;
        if !is_told(number, value) {
            return Ok(());
        }
        let name = byte_name(number);
        writeln!(f, "byte {number:03}  {value:02x}  {name}")
    }
}
