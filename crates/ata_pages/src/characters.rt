ghost use Rattle.std.specs.Prelude.{◌≡◌, ◌+◌, ◌≤◌, Some};
ghost use Rattle.ata_pages.specs.IdentifyText.{characters, shown};

use std::fmt;

/// The text in words of an identify page.
#[derive(Clone, Copy)]
pub(crate) struct Characters<'a> {
    pub(crate) page: &'a [u8; 512],
    /// The first of the words.
    pub(crate) first: usize,
    /// How many words there are, each with two characters.
    pub(crate) count: usize,
    ghost inside: { first + count ≤ 256 },
}

impl fmt::Display for Characters<'_> {
    ghost output = { λ c. Some (characters c.page.now c.first c.count) };

    #[tactic(auto, using(crate::proofs::LineLemmas::no_characters, crate::proofs::LineLemmas::next_characters))]
    fn fmt<W: fmt::Write>(&self, f: &mut fmt::Formatter<W>) -> fmt::Result {
        for i in 0..self.count {
            let number = self.first + i;
            let high = shown(self.page[2 * number + 1]);
            let low = shown(self.page[2 * number]);
            write!(f, "{high}{low}")?;
        }
        Ok(())
    }
}

/// A byte as a character: a dot where it is none of ASCII's that can be read.
fn shown(byte: u8) -> char
    ensures { result ≡ shown byte }
{
    match byte {
        b' '..=b'~' => char::from(byte),
        _ => '.',
    }
}
