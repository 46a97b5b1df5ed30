//! The words of a line, taken one after the other.

ghost use Rattle.std.specs.Prelude.{◌≡◌, ◌==◌, IfErr, IfOk, Ok, Err, option_map, position};
ghost use Rattle.ahci_script.specs.Words.{after_first, cut_of, first_of, placed, spare};

use crate::breach::Breach;
use crate::fault::Fault;
use crate::hex_bytes::{HexBytes, header, hex_bytes};
use crate::number::{MAX_SECTORS, byte, decimal, hexadecimal, page_word, sectors, tag};
use crate::short_number::{short_decimal, short_hexadecimal};
use std::marker::Model;

/// What is left of a line after some of its words: nothing, or a text after a space.
#[derive(Drop)]
pub(crate) struct Words<'a> {
    rest: Option<&'a [u8]>,
}

impl<'a> Model for Words<'a> {
    ghost use Rattle.std.specs.Prelude.{option_map};
    ghost use Rattle.ahci_script.specs.Words.{Rest};

    ghost Value = { Rest };

    ghost view = { λ w. option_map (λ text. text.now) w.rest };
}

impl<'a> Words<'a> {
    ghost use Rattle.std.specs.Prelude.{◌≡◌, ◌+◌, ◌<◌, IfErr, IfOk, IfSome, Ok, Err, None, Some, drop, length, option_map};
    ghost use Rattle.ahci_script.specs.HexBytes.{header_of, hex_bytes_of};
    ghost use Rattle.ahci_script.specs.Lines.{number_if_any};
    ghost use Rattle.ahci_script.specs.Number.{byte_of, decimal_of, hexadecimal_of, page_word_of, sectors_of, tag_of};
    ghost use Rattle.ahci_script.specs.Words.{ends, next_of, word_of};

    /// No word is left.
    pub(crate) fn none() -> Self
        ensures { result ≡ None }
    {
        Words { rest: None }
    }

    /// The words after a space in a text.
    pub(crate) fn after(text: &'a [u8], space: usize) -> Self
        requires { space < length text.now }
        ensures { result ≡ Some (drop (space + 1) text.now) }
    {
        Words {
            rest: Some(&text[space + 1..]),
        }
    }

    /// The text that is left. `None` at the end of the line.
    pub(crate) fn text(&self) -> Option<&'a [u8]>
        ensures { option_map (λ text. text.now) result ≡ self.now }
    {
        self.rest
    }

    /// The next word, the text that begins with it, and the words after it. A word is missing where nothing is left; an empty
    /// word is a space too many, at the end of the line too.
    #[tactic(auto, unfolding(crate::specs::Words::next_of))]
    fn next(self) -> Result<(&'a [u8], &'a [u8], Words<'a>), Breach>
        ensures ok { IfOk result (λ w. next_of self.entry ≡ Ok (w.0.now, w.1.now, w.2)) }
        ensures err { IfErr result (λ breach. next_of self.entry ≡ Err breach) }
    {
        let Some(text) = self.rest else {
            return Err(Breach::at(&[], Fault::MissingWord));
        };
        let (word, others) = first(text);
        if word.is_empty() {
            return Err(Breach::at(text, Fault::SpareSpace));
        }
        Ok((text, word, others))
    }

    /// The next word as a number below a limit, where it is short: its bytes are then looked at once.
    fn short_below(&self, limit: u64) -> Option<(u64, Words<'a>)>
        ensures below { IfSome result (λ n. n.0 < limit) }
        ensures is { IfSome result (λ n. word_of decimal_of self.now ≡ Ok n) }
    {
        let (number, others) = short_decimal(self.rest?)?;
        if number < limit {
            Some((number, others))
        } else {
            None
        }
    }

    /// Nothing is left.
    pub(crate) fn end(self) -> Result<(), Breach>
        ensures { result ≡ ends self.entry }
    {
        match self.rest {
            None => Ok(()),
            Some(text) => Err(spare(text)),
        }
    }

    /// A decimal number that fits 64 bits.
    #[tactic(auto, unfolding(crate::specs::Words::word_of))]
    pub(crate) fn number(self) -> Result<(u64, Words<'a>), Breach>
        ensures { result ≡ word_of decimal_of self.entry }
    {
        if let Some(number) = self.short_below(u64::MAX) {
            return Ok(number);
        }
        let (text, word, others) = self.next()?;
        placed(text, others, decimal(word))
    }

    /// A tag: a decimal number from 0 to 31.
    #[tactic(auto, using(crate::proofs::ShortLemmas::number_below), unfolding(crate::specs::Words::word_of))]
    pub(crate) fn tag(self) -> Result<(u8, Words<'a>), Breach>
        ensures value { result ≡ word_of tag_of self.entry }
        ensures small { IfOk result (λ t. t.0 < 32) }
    {
        if let Some((number, others)) = self.short_below(32) {
            return Ok((number as u8, others));
        }
        let (text, word, others) = self.next()?;
        placed(text, others, tag(word))
    }

    /// A number of sectors: a decimal number from 0 to 131,072.
    #[tactic(auto, using(crate::proofs::ShortLemmas::number_below), unfolding(crate::specs::Words::word_of))]
    pub(crate) fn sectors(self) -> Result<(u32, Words<'a>), Breach>
        ensures { result ≡ word_of sectors_of self.entry }
    {
        if let Some((number, others)) = self.short_below(MAX_SECTORS + 1) {
            return Ok((number as u32, others));
        }
        let (text, word, others) = self.next()?;
        placed(text, others, sectors(word))
    }

    /// A word of the identify page: a decimal number from 0 to 255.
    #[tactic(auto, using(crate::proofs::ShortLemmas::number_below), unfolding(crate::specs::Words::word_of))]
    pub(crate) fn page_word(self) -> Result<(u8, Words<'a>), Breach>
        ensures { result ≡ word_of page_word_of self.entry }
    {
        if let Some((number, others)) = self.short_below(256) {
            return Ok((number as u8, others));
        }
        let (text, word, others) = self.next()?;
        placed(text, others, page_word(word))
    }

    /// A decimal number, where a word is left, and nothing after it.
    pub(crate) fn number_if_any(self) -> Result<Option<u64>, Breach>
        ensures { result ≡ number_if_any self.entry }
    {
        if self.rest.is_none() {
            return Ok(None);
        }
        let (number, words) = self.number()?;
        words.end()?;
        Ok(Some(number))
    }

    /// A byte, by two hexadecimal digits.
    #[tactic(auto, unfolding(crate::specs::Words::word_of))]
    pub(crate) fn byte(self) -> Result<(u8, Words<'a>), Breach>
        ensures { result ≡ word_of byte_of self.entry }
    {
        let (text, word, others) = self.next()?;
        placed(text, others, byte(word))
    }

    /// A register's offset or a mask, by one to eight hexadecimal digits.
    #[tactic(auto, unfolding(crate::specs::Words::word_of))]
    pub(crate) fn register(self) -> Result<(u32, Words<'a>), Breach>
        ensures { result ≡ word_of hexadecimal_of self.entry }
    {
        if let Some(text) = self.rest
            && let Some(found) = short_hexadecimal(text)
        {
            return Ok(found);
        }
        let (text, word, others) = self.next()?;
        placed(text, others, hexadecimal(word))
    }

    /// A command header, by 64 hexadecimal digits.
    #[tactic(auto, unfolding(crate::specs::Words::word_of))]
    pub(crate) fn header(self) -> Result<([u8; 32], Words<'a>), Breach>
        ensures { result ≡ word_of header_of self.entry }
    {
        let (text, word, others) = self.next()?;
        placed(text, others, header(word))
    }

    /// Bytes, one at least, by two hexadecimal digits each.
    #[tactic(auto, unfolding(crate::specs::Words::word_of))]
    pub(crate) fn bytes(self) -> Result<(HexBytes<'a>, Words<'a>), Breach>
        ensures { result ≡ word_of hex_bytes_of self.entry }
    {
        let (text, word, others) = self.next()?;
        placed(text, others, hex_bytes(word))
    }
}

/// The text before its first space, and the text after that space. `None` where there is none.
fn cut(text: &[u8]) -> Option<(&[u8], &[u8])>
    ensures { option_map (λ r. (r.0.now, r.1.now)) result ≡ cut_of text.now }
{
    let at = first_space(text)?;
    Some((&text[..at], &text[at + 1..]))
}

/// The place of the first space.
fn first_space(text: &[u8]) -> Option<usize>
    ensures { result ≡ position (λ b. b == 32) text.now }
{
    text.iter().position(|b| *b == b' ')
}

/// The first word of a text, and what is left after it.
pub(crate) fn first(text: &[u8]) -> (&[u8], Words<'_>)
    ensures { (result.0.now, result.1) ≡ first_of text.now }
{
    match cut(text) {
        Some((word, others)) => (word, Words { rest: Some(others) }),
        None => (text, Words { rest: None }),
    }
}

/// The words after the first, none where it is alone.
pub fn after_first(words: &[u8]) -> &[u8]
    ensures { result.now ≡ after_first words.now }
{
    match cut(words) {
        Some((_word, others)) => others,
        None => &[],
    }
}

/// What a word spells, and the words after it; a rule that it breaks is broken where the word begins.
fn placed<'a, T: Drop>(
    text: &[u8],
    others: Words<'a>,
    spelled: Result<T, Fault>,
) -> Result<(T, Words<'a>), Breach>
    ensures { result ≡ placed text.now others.entry spelled }
{
    match spelled {
        Ok(value) => Ok((value, others)),
        Err(fault) => Err(Breach::at(text, fault)),
    }
}

/// What comes after the last word: an empty word is a space too many.
fn spare(words: &[u8]) -> Breach
    ensures { result ≡ spare words.now }
{
    match words {
        [] | [b' ', ..] => Breach::at(words, Fault::SpareSpace),
        _ => Breach::at(words, Fault::SpareWord),
    }
}
