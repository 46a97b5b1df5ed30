//! How words, texts and checksums come into a page.

ghost use Rattle.std.specs.Prelude.{◌≡◌, ◌+◌, ◌*◌, ◌<◌, ◌≤◌, length};
ghost use Rattle.ncq_core.specs.Log.{checksum};
ghost use Rattle.hba_command.specs.Words.{text_word, with_checksum, with_text, with_word, with_words};

/// Puts a word into a page, its low byte first.
pub(crate) fn put_word(page: &mut [u8; 512], number: usize, word: u16)
    requires { number < 256 }
    ensures { page.new ≡ with_word number word page.old }
{
    page[2 * number..2 * number + 2].copy_from_slice(&word.to_le_bytes());
}

/// Puts the same value into so many words of a page, from one on.
#[tactic(auto, unfolding(crate::specs::Words::with_words))]
pub(crate) fn put_words(page: &mut [u8; 512], first: usize, value: u16, count: usize)
    requires { first + count ≤ 256 }
    ensures { page.new ≡ with_words first value count page.old }
{
    for index in 0..count {
        put_word(page, first + index, value);
    }
}

/// A word of a text, of which the first character is the high byte.
fn text_word(text: &[u8], index: usize) -> u16
    requires { 2 * index + 2 ≤ length text.now }
    ensures { result ≡ text_word text.now index }
{
    256 * u16::from(text[2 * index]) + u16::from(text[2 * index + 1])
}

/// Puts so many words of a text into a page, from one on.
#[tactic(auto, unfolding(crate::specs::Words::with_text))]
pub(crate) fn put_text(page: &mut [u8; 512], first: usize, text: &[u8], words: usize)
    requires room { first + words ≤ 256 }
    requires text { 2 * words ≤ length text.now }
    ensures { page.new ≡ with_text first text.now words page.old }
{
    for index in 0..words {
        put_word(page, first + index, text_word(text, index));
    }
}

/// The byte that makes the sum of these and itself 0 modulo 256.
fn checksum(bytes: &[u8]) -> u8
    ensures { result ≡ checksum bytes.now }
{
    let mut sum = 0u8;
    for byte in bytes {
        sum = sum.wrapping_add(*byte);
    }
    sum.wrapping_neg()
}

/// Puts the byte into a page that makes the sum of its bytes 0 modulo 256.
pub(crate) fn put_checksum(page: &mut [u8; 512])
    ensures { page.new ≡ with_checksum page.old }
{
    page[511] = checksum(&page[..511]);
}
