ghost use Rattle.std.specs.Prelude.{◌≡◌, ◌<◌, Some};
ghost use Rattle.ata_pages.specs.IdentifyText.{word_line, word_lines, word_of};

use crate::names::word_name;
use std::fmt;

/// The words of an identify page that are set, a line each.
#[derive(Clone, Copy)]
pub(crate) struct WordLines<'a> {
    pub(crate) page: &'a [u8; 512],
}

impl fmt::Display for WordLines<'_> {
    ghost output = { λ w. Some (word_lines w.page.now 256) };

    #[tactic(auto, using(crate::proofs::LineLemmas::no_words, crate::proofs::LineLemmas::next_word))]
    fn fmt<W: fmt::Write>(&self, f: &mut fmt::Formatter<W>) -> fmt::Result {
        for number in 0..256 {
            let value = word(self.page, number);
            let line = WordLine { number, value };
            write!(f, "{line}")?;
        }
        Ok(())
    }
}

/// A word of a page, whose low byte is the first.
fn word(page: &[u8; 512], number: usize) -> u16
    requires { number < 256 }
    ensures { result ≡ word_of page.now number }
{
    u16::from_le_bytes([page[2 * number], page[2 * number + 1]])
}

/// A word's line. One that isn't set has none.
#[derive(Clone, Copy)]
struct WordLine {
    number: usize,
    value: u16,
    ghost inside: { number < 256 },
}

impl fmt::Display for WordLine {
    ghost output = { λ l. Some (word_line l.number l.value) };

    fn fmt<W: fmt::Write>(&self, f: &mut fmt::Formatter<W>) -> fmt::Result {
        let WordLine { number, value } = *self;
        if value == 0 {
            return Ok(());
        }
        let name = word_name(number);
        writeln!(f, "word {number:03}  {value:04x}  {name}")
    }
}
