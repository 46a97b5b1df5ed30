//! The lines of an input, read as they come.

ghost use Rattle.std.specs.Prelude.{◌≡◌, ◌≤◌, ◌+◌, length, IfErr, OnOk};
ghost use Rattle.streams.specs.Reading.{ReadsAll, ReadsAs, StopsReading};
ghost use Rattle.streams.specs.declared.input.TheConstants.{INPUT_LIMIT};

use crate::input::{Found, INPUT_LIMIT, Input};
use crate::reads::Reads;
use crate::stopped::Stopped;
use crate::takes_lines::TakesLines;
use std::alloc::{AllocError, Allocator};
use std::io::Read;

/// An input that is read line by line: what came and is not yet taken, and how many lines were taken.
#[derive(Drop)]
struct Reading<A: Allocator> {
    input: Input<A>,
    line: u64,
    // Each line that was taken had a byte at least, its line feed.
    ghost counted: { line + length input.bytes ≤ input.came },
    ghost limited: { input.came ≤ INPUT_LIMIT },
}

impl<A: Allocator> Reading<A> {
    ghost use Rattle.std.specs.Prelude.{◌≡◌, ◌<◌, ◌≤◌, [], length, false, true, IfErr, IfOk, OnOk};
    ghost use Rattle.streams.specs.Reading.{MayEnd, ReadsAs, last_of};
    ghost use Rattle.streams.specs.Standing.{Ends, Halts, HasRead, left_in, stand};
    ghost use Rattle.streams.specs.Unread.{shown};

    /// No byte came yet.
    fn new(alloc: A) -> Result<Self, AllocError>
        ensures { IfOk result (λ r. (r.input.bytes ≡ []) × (r.input.came ≡ 0) × (r.line ≡ 0)) }
    {
        Ok(Reading {
            input: Input::new(alloc)?,
            line: 0,
        })
    }

    /// Has all lines taken, up to one that is too long.
    fn take_all<T: TakesLines<O>, O, R: Read>(
        &mut self,
        reader: &mut R,
        reads: &mut Reads,
        taker: &mut T,
        output: &mut O,
    ) -> Result<(), Stopped<T::Fault>>
        requires counted { self.old.input.came ≤ reads.old.came }
        ensures ok { OnOk result (Ends T.Takes (stand (R.remaining reader.old) (taker.old, output.old) self.old)
            (stand (R.remaining reader.new) (taker.new, output.new) self.new)) }
        ensures err { IfErr result (Halts T.Takes T.Refuses (stand (R.remaining reader.old) (taker.old, output.old) self.old)
            (stand (R.remaining reader.new) (taker.new, output.new) self.new)) }
        ensures counted { self.new.input.came ≤ reads.new.came }
        ensures unfailed { OnOk result (reads.new.failed ≡ reads.old.failed) }
        ensures why { IfErr result (ReadsAs reads.old reads.new) }
    {
        while self.turn(reader, reads, taker, output)? {}
        match taker.take(self.line + 1, self.last(), output) {
            Ok(()) => Ok(()),
            Err(fault) => Err(Stopped::Taker(fault)),
        }
    }

    /// What ends the input: a line that is too long, or all that is unread.
    fn last(&self) -> Found<'_>
        ensures { shown result ≡ last_of self.now.input.bytes }
    {
        match self.input.find_line() {
            Found::TooLong => Found::TooLong,
            _ => Found::Line(self.input.unread()),
        }
    }

    /// Has the next line taken, or reads more where none is whole. `false` at the end of the input, and before a line that is
    /// too long.
    fn turn<T: TakesLines<O>, O, R: Read>(
        &mut self,
        reader: &mut R,
        reads: &mut Reads,
        taker: &mut T,
        output: &mut O,
    ) -> Result<bool, Stopped<T::Fault>>
        requires counted { self.old.input.came ≤ reads.old.came }
        ensures ok { OnOk result (HasRead T.Takes (stand (R.remaining reader.old) (taker.old, output.old) self.old)
            (stand (R.remaining reader.new) (taker.new, output.new) self.new)) }
        ensures err { IfErr result (Halts T.Takes T.Refuses (stand (R.remaining reader.old) (taker.old, output.old) self.old)
            (stand (R.remaining reader.new) (taker.new, output.new) self.new)) }
        ensures counted { self.new.input.came ≤ reads.new.came }
        ensures unfailed { OnOk result (reads.new.failed ≡ reads.old.failed) }
        ensures why { IfErr result (ReadsAs reads.old reads.new) }
        ensures end { IfOk result (λ more. more ≡ false → MayEnd (R.remaining reader.new) self.new.input.bytes) }
        ensures less { IfOk result (λ more. more ≡ true → left_in self.new < left_in self.old) }
    {
        let number = self.line + 1;
        let length = match self.input.find_line() {
            Found::TooLong => return Ok(false),
            Found::Unfinished => {
                return match taker.take(number, Found::Unfinished, output) {
                    Ok(()) => Ok(self.input.fill(reader, reads, &*taker, &*output)?),
                    Err(fault) => Err(Stopped::Taker(fault)),
                };
            }
            Found::Line(line) => match taker.take(number, Found::Line(line), output) {
                Ok(()) => line.len(),
                Err(fault) => return Err(Stopped::Taker(fault)),
            },
        };
        self.input.skip(length + 1);
        self.line += 1;
        Ok(true)
    }
}

/// Has the lines of an input taken, one after another, from the first on; the last may lack its line feed. A line of more
/// than 4,096 bytes is the last.
///
/// # Errors
/// `Read` where a read failed, or the input has more than 67,108,864 bytes; `Taker` where a line is refused; `OutOfMemory`, before
/// anything is read.
pub fn take_lines<T: TakesLines<O>, O, R: Read, A: Allocator>(
    alloc: A,
    reader: &mut R,
    reads: &mut Reads,
    taker: &mut T,
    output: &mut O,
) -> Result<(), Stopped<T::Fault>>
    ensures ok { OnOk result (ReadsAll T.Takes (R.remaining reader.old) (R.remaining reader.new) (taker.old, output.old) (taker.new, output.new)) }
    ensures err { IfErr result (StopsReading T.Takes T.Refuses (R.remaining reader.old) (R.remaining reader.new)
        (taker.old, output.old) (taker.new, output.new)) }
    ensures unfailed { OnOk result (reads.new.failed ≡ reads.old.failed) }
    ensures why { IfErr result (ReadsAs reads.old reads.new) }
{
    let mut reading = Reading::new(alloc)?;
    reading.take_all(reader, reads, taker, output)
}
