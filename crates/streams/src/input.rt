//! The input, a line after the other.

ghost use Rattle.std.specs.Prelude.{◌≡◌, ◌+◌, ◌<◌, ◌≤◌, [], ◌++◌, drop, length, IfOk, OnErr, OnOk, Some, None, MatchBool, vec_capacity, vec_len};
ghost use Rattle.std.specs.Io.KnownBytes.{Consumes, IsAtEnd};
ghost use Rattle.streams.specs.Unread.{FailsReading, Grows, MayFail, found_of, line_end, shown};

use crate::input_failed::InputFailed;
use crate::reads::Reads;
use crate::takes_lines::TakesLines;
use std::alloc::{AllocError, Allocator, Global};
use std::io::Read;
use std::marker::Model;

/// How many bytes a line has at most, without its line feed.
pub const LINE_LIMIT: usize = 4096;

/// How many bytes an input has at most.
pub const INPUT_LIMIT: u64 = 67_108_864;

/// How many bytes are asked for at once.
const CHUNK: usize = 16384;

/// What the unread bytes begin with.
#[derive(Clone, Copy, Debug, PartialEq, Eq)]
pub enum Found<'a> {
    /// A whole line, without its line feed.
    Line(&'a [u8]),
    /// More bytes than a line may have.
    TooLong,
    /// A part of a line, or nothing.
    Unfinished,
}

/// An input as far as it came: the bytes that were not yet taken.
#[derive(Drop)]
pub struct Input<A: Allocator = Global> {
    bytes: Vec<u8, A>,
    start: usize,
    came: u64,
    /// What a read gave last, before it goes on to the others. It is filled with zeros once, and not for each read.
    chunk: [u8; CHUNK],
}

impl<A: Allocator> Model for Input<A> {
    ghost use Rattle.std.specs.Prelude.{◌≤◌, ◌+◌, drop, vec_len, vec_capacity};
    ghost use Rattle.streams.specs.declared.input.TheConstants.{CHUNK, INPUT_LIMIT, LINE_LIMIT};
    ghost use Rattle.streams.specs.Unread.{Unread};

    ghost Value = { Unread };

    ghost view = { λ i. record { bytes = drop i.start i.bytes.items; came = i.came } };

    ghost invariant = { λ i. (i.start ≤ vec_len i.bytes) × (LINE_LIMIT + CHUNK ≤ vec_capacity i.bytes) × (i.came ≤ INPUT_LIMIT) };
}

impl<A: Allocator> Input<A> {
    /// No byte came yet.
    pub fn new(alloc: A) -> Result<Self, AllocError>
        ensures { IfOk result (λ i. (i.bytes ≡ []) × (i.came ≡ 0)) }
    {
        Ok(Input {
            bytes: Vec::with_capacity(alloc, LINE_LIMIT + CHUNK)?,
            start: 0,
            came: 0,
            chunk: [0; CHUNK],
        })
    }

    /// The bytes that were not yet taken.
    pub fn unread(&self) -> &[u8]
        ensures { result.now ≡ self.now.bytes }
    {
        &self.bytes[self.start..]
    }

    /// Takes the first bytes.
    pub fn skip(&mut self, count: usize)
        requires { count ≤ length self.old.bytes }
        ensures bytes { self.new.bytes ≡ drop count self.old.bytes }
        ensures came { self.new.came ≡ self.old.came }
    {
        self.start += count;
    }

    /// What the unread bytes begin with: a whole line, too many bytes for one, or neither yet.
    pub fn find_line(&self) -> Found<'_>
        ensures { shown result ≡ found_of self.now.bytes }
    {
        let unread = self.unread();
        match line_feed(unread) {
            Some(end) if end <= LINE_LIMIT => Found::Line(&unread[..end]),
            None if unread.len() <= LINE_LIMIT => Found::Unfinished,
            _ => Found::TooLong,
        }
    }

    /// Reads more bytes, which may wait for whoever writes them: so whoever takes the lines, and the output beside it, have to
    /// have sent all before. `false` at the end of the input. It fails where the reader does, and where a byte comes after the
    /// limit.
    pub fn fill<R: Read, T: TakesLines<O>, O>(
        &mut self,
        reader: &mut R,
        reads: &mut Reads,
        taker: &T,
        output: &O,
    ) -> Result<bool, InputFailed>
        requires short { length self.old.bytes ≤ LINE_LIMIT }
        requires sent { T.IsSent (taker.now, output.now) }
        requires counted { self.old.came ≤ reads.old.came }
        ensures ok { IfOk result (λ more. MatchBool more
            (Grows self.old self.new (R.remaining reader.old) (R.remaining reader.new))
            ((self.new ≡ self.old) × IsAtEnd (R.remaining reader.new)
            × Consumes (R.remaining reader.old) (R.remaining reader.new) [])) }
        ensures limit { self.new.came ≤ 67108864 }
        ensures failed { OnErr result
            (MayFail self.old.came (R.remaining reader.old) (R.remaining reader.new)) }
        ensures err { OnErr result (self.new ≡ self.old) }
        ensures counted { self.new.came ≤ reads.new.came }
        ensures unfailed { OnOk result (reads.new.failed ≡ reads.old.failed) }
        ensures why { OnErr result (FailsReading reads.new) }
    {
        let wanted = self.wanted();
        let count = reads.read(reader, &mut self.chunk[..wanted])?;
        if count == 0 {
            return Ok(false);
        }
        if self.came == INPUT_LIMIT {
            return Err(InputFailed);
        }
        drop_front(&mut self.bytes, self.start);
        self.start = 0;
        push_reserved(&mut self.bytes, &self.chunk[..count]);
        self.came += count as u64;
        Ok(true)
    }

    /// How many bytes may come at once. At the limit one more is asked for, to see the end.
    fn wanted(&self) -> usize
        ensures some { 0 < result }
        ensures chunk { result ≤ CHUNK }
        ensures limit { self.now.came < INPUT_LIMIT → self.now.came + result ≤ INPUT_LIMIT }
    {
        let left = (INPUT_LIMIT - self.came) as usize;
        left.clamp(1, CHUNK)
    }
}

/// The place of the first line feed.
fn line_feed(bytes: &[u8]) -> Option<usize>
    ensures { result ≡ line_end bytes.now }
{
    bytes.iter().position(|b| *b == b'\n')
}

/// Drops the first bytes, and keeps the room.
fn drop_front<A: Allocator>(bytes: &mut Vec<u8, A>, count: usize)
    requires { count ≤ vec_len bytes.old }
    ensures items { bytes.new.items ≡ drop count bytes.old.items }
    ensures room { vec_capacity bytes.new ≡ vec_capacity bytes.old }
{
    let left = bytes.len() - count;
    bytes.copy_within(count.., 0);
    bytes.truncate(left);
}

/// Appends bytes for which there is room.
fn push_reserved<A: Allocator>(bytes: &mut Vec<u8, A>, more: &[u8])
    requires { vec_len bytes.old + length more.now ≤ vec_capacity bytes.old }
    ensures items { bytes.new.items ≡ bytes.old.items ++ more.now }
    ensures room { vec_capacity bytes.old ≤ vec_capacity bytes.new }
{
    if bytes.extend_from_slice(more).is_err() {
        unreachable!();
    }
}
