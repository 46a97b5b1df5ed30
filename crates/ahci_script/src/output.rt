//! The output of answers: text that waits, and is written in large pieces.

ghost use Rattle.std.specs.Prelude.{◌≡◌, ◌∷◌, ◌++◌, ◌↔◌, ◌≤◌, ℕ, [], IsTrue, OnErr, OnOk, length, take};
ghost use Rattle.std.specs.Io.KnownBytes.{Appends};
ghost use Rattle.ahci_script.specs.Answers.{answer_text};
ghost use Rattle.ahci_script.specs.Said.{said};
ghost use Rattle.streams.specs.Ends.{with_failed_write, with_flush};

use crate::answer::ScriptAnswer;
use crate::text::{push_line, room_for};
use std::alloc::{AllocError, Allocator, Global};
use std::io::Write;
use std::marker::Model;
use streams::{OutputFailed, TextBuffer, Writes};

/// How much text waits before it is worth a write.
const FULL: usize = 16384;

/// The answers that wait for the output, as text. Each ends in a line feed.
#[derive(Drop)]
pub struct Output<A: Allocator = Global> {
    waiting: TextBuffer<A>,
}

impl<A: Allocator> Model for Output<A> {
    ghost use Rattle.std.specs.Prelude.{List, ℕ};

    ghost Value = { List ℕ };

    ghost view = { λ o. o.waiting.bytes };
}

impl<A: Allocator> Output<A> {
    /// No answer waits.
    pub fn new(alloc: A) -> Self
        ensures { result ≡ [] }
    {
        Output {
            waiting: TextBuffer::new(alloc),
        }
    }

    /// Whether enough text waits to be sent.
    pub fn is_full(&self) -> bool
        ensures { IsTrue result ↔ (16384 ≤ length self.now) }
    {
        self.waiting.len() >= FULL
    }

    /// Appends an answer's text and its line feed. Room for both is asked for first, so after a refused growth no byte of
    /// them waits.
    pub fn put<B: Allocator>(&mut self, answer: &ScriptAnswer<B>) -> Result<(), AllocError>
        ensures ok { OnOk result (self.new ≡ self.old ++ (answer_text (said answer.now) ++ 10 ∷ [])) }
        ensures err { OnErr result (self.new ≡ self.old) }
    {
        let room = room_for(answer).ok_or(AllocError)?;
        self.waiting.reserve(room)?;
        push_line(&mut self.waiting, answer);
        Ok(())
    }

    /// Appends an answer's text, its line feed, and notes that come after it. After a refused growth no byte of them waits.
    pub fn put_noted<B: Allocator>(
        &mut self,
        answer: &ScriptAnswer<B>,
        notes: &[u8],
    ) -> Result<(), AllocError>
        ensures ok { OnOk result (self.new ≡ self.old ++ (answer_text (said answer.now) ++ 10 ∷ notes.now)) }
        ensures err { OnErr result (self.new ≡ self.old) }
    {
        let before = self.waiting.len();
        self.put(answer)?;
        if let Err(refused) = self.waiting.push(notes) {
            self.waiting.truncate(before);
            return Err(refused);
        }
        Ok(())
    }

    /// Appends a line of text and a line feed. Room for both is asked for first, so after a refused growth no byte of them
    /// waits.
    pub fn put_text(&mut self, text: &[u8]) -> Result<(), AllocError>
        ensures ok { OnOk result (self.new ≡ self.old ++ (text.now ++ 10 ∷ [])) }
        ensures err { OnErr result (self.new ≡ self.old) }
    {
        let room = text.len() + 1;
        self.waiting.reserve(room)?;
        self.waiting.push_reserved(text);
        self.waiting.push_reserved(b"\n");
        Ok(())
    }

    /// Writes all that waits, and flushes. After a failure some first part of it was written.
    pub fn send<W: Write>(
        &mut self,
        writer: &mut W,
        writes: &mut Writes,
    ) -> Result<(), OutputFailed>
        ensures ok { OnOk result (self.new ≡ []) }
        ensures written { OnOk result (Appends (W.contents writer.old) (W.contents writer.new) self.old) }
        ensures err { OnErr result (self.new ≡ self.old) }
        ensures part { OnErr result
            ((n : ℕ) × Appends (W.contents writer.old) (W.contents writer.new) (take n self.old)) }
        ensures flushed { OnOk result (writes.new ≡ with_flush writes.old) }
        ensures failed { OnErr result (writes.new ≡ with_failed_write writes.old) }
    {
        self.waiting.send(writer, writes)
    }
}
