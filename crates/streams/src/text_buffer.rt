//! A text that grows at its end.

use crate::hex_digits::{eight_digits, spaced_byte};
use crate::output_failed::OutputFailed;
use crate::writes::Writes;
use itoa::{Buffer, Integer};
use std::alloc::{AllocError, Allocator, Global};
use std::io::Write;
use std::marker::Model;

/// A text that grows at its end. Contracts see its bytes, and how many bytes more it takes without an allocation.
#[derive(Drop)]
pub struct TextBuffer<A: Allocator = Global> {
    bytes: Vec<u8, A>,
}

impl<A: Allocator> Model for TextBuffer<A> {
    ghost use Rattle.std.specs.Prelude.{◌-◌, vec_capacity, vec_len};
    ghost use Rattle.streams.specs.Text.{Text};

    ghost Value = { Text };

    ghost view = { λ t. record { bytes = t.bytes.items; room = vec_capacity t.bytes - vec_len t.bytes } };
}

impl<A: Allocator> TextBuffer<A> {
    ghost use Rattle.std.specs.Prelude.{◌≡◌, ◌+◌, ◌≤◌, ◌∷◌, ◌++◌, ℕ, [], length, take, OnErr, OnOk};
    ghost use Rattle.std.specs.Fmt.{decimal};
    ghost use Rattle.std.specs.Io.KnownBytes.{Appends};
    ghost use Rattle.streams.specs.Ends.{with_failed_write, with_flush};
    ghost use Rattle.streams.specs.Text.{hex_of};

    /// An empty text. It doesn't allocate yet.
    pub fn new(alloc: A) -> Self
        ensures { result.bytes ≡ [] }
    {
        TextBuffer {
            bytes: Vec::new(alloc),
        }
    }

    /// The allocator that it grows with.
    pub fn alloc(&self) -> A
    where
        A: Copy,
    {
        *self.bytes.allocator()
    }

    /// How many bytes it has.
    pub fn len(&self) -> usize
        ensures { result ≡ length self.now.bytes }
    {
        self.bytes.len()
    }

    /// Its bytes.
    pub fn as_slice(&self) -> &[u8]
        ensures { result.now ≡ self.now.bytes }
    {
        self.bytes.as_slice()
    }

    /// Its bytes, as a vector.
    pub fn into_bytes(self) -> Vec<u8, A>
        ensures { result.items ≡ self.bytes }
    {
        self.bytes
    }

    /// Allocates room for so many bytes more, where it is missing.
    pub fn reserve(&mut self, more: usize) -> Result<(), AllocError>
        ensures bytes { self.new.bytes ≡ self.old.bytes }
        ensures room { OnOk result (more ≤ self.new.room) }
    {
        self.bytes.reserve(more)
    }

    /// Keeps the first bytes, and no more.
    pub fn truncate(&mut self, len: usize)
        ensures { self.new.bytes ≡ take len self.old.bytes }
    {
        self.bytes.truncate(len);
    }

    /// Appends bytes for which room was reserved.
    pub fn push_reserved(&mut self, more: &[u8])
        requires { length more.now ≤ self.old.room }
        ensures bytes { self.new.bytes ≡ self.old.bytes ++ more.now }
        ensures room { self.old.room ≤ self.new.room + length more.now }
    {
        if self.bytes.extend_from_slice(more).is_err() {
            unreachable!();
        }
    }

    /// Appends a word and a decimal number, for which room was reserved: 20 bytes are enough for any number.
    #[inline(always)]
    pub fn push_reserved_number(&mut self, word: &[u8], number: u64)
        requires { length word.now + 20 ≤ self.old.room }
        ensures bytes { self.new.bytes ≡ self.old.bytes ++ (word.now ++ decimal number) }
        ensures room { self.old.room ≤ self.new.room + length word.now + 20 }
    {
        self.push_reserved(word);
        self.push_reserved(Buffer::new().format(number).as_bytes());
    }

    /// Appends bytes. After a failed allocation none of them is appended.
    pub fn push(&mut self, more: &[u8]) -> Result<(), AllocError>
        ensures ok { OnOk result (self.new.bytes ≡ self.old.bytes ++ more.now) }
        ensures err { OnErr result (self.new.bytes ≡ self.old.bytes) }
    {
        self.bytes.extend_from_slice(more)
    }

    /// Appends a word and a decimal number. After a failed allocation a part of them may be appended.
    pub fn push_number<I: Integer>(&mut self, word: &[u8], number: I) -> Result<(), AllocError>
        ensures { OnOk result (self.new.bytes ≡ self.old.bytes ++ (word.now ++ I.text number)) }
    {
        self.push(word)?;
        self.push(Buffer::new().format(number).as_bytes())
    }

    /// Appends a space and the two hexadecimal digits of a byte.
    pub fn push_byte(&mut self, byte: u8) -> Result<(), AllocError>
        ensures { OnOk result (self.new.bytes ≡ self.old.bytes ++ (32 ∷ hex_of 2 byte)) }
    {
        self.push(&spaced_byte(byte))
    }

    /// Appends the eight hexadecimal digits of a word.
    pub fn push_word(&mut self, word: u32) -> Result<(), AllocError>
        ensures { OnOk result (self.new.bytes ≡ self.old.bytes ++ hex_of 8 word) }
    {
        self.push(&eight_digits(word))
    }

    /// Writes the whole text, and flushes. Then the text is empty. After a failure some first part of it was written.
    pub fn send<W: Write>(
        &mut self,
        writer: &mut W,
        writes: &mut Writes,
    ) -> Result<(), OutputFailed>
        ensures ok { OnOk result (self.new.bytes ≡ []) }
        ensures written { OnOk result (Appends (W.contents writer.old) (W.contents writer.new) self.old.bytes) }
        ensures err { OnErr result (self.new ≡ self.old) }
        ensures part { OnErr result
            ((n : ℕ) × Appends (W.contents writer.old) (W.contents writer.new) (take n self.old.bytes)) }
        ensures flushed { OnOk result (writes.new ≡ with_flush writes.old) }
        ensures failed { OnErr result (writes.new ≡ with_failed_write writes.old) }
    {
        writes.write_whole(writer, &self.bytes)?;
        self.bytes.clear();
        Ok(())
    }
}
