//! The program: what the words of a command line ask for, done over a reader and two writers.

ghost use Rattle.std.specs.Prelude.{map, ◌≡◌, IfErr, IfOk, OnErr};
ghost use Rattle.std.specs.String.{string_bytes};
ghost use Rattle.ahci_cli.specs.Program.{Does, HasRanges, IsUnread, ReadsFor, Runs, RunsWithout, WritesFor, input, output};

use crate::end::{end, explain};
use crate::fault::CliFault;
use crate::jobs::{form_of, run_in_form};
use crate::pages::{identify, log};
use crate::scripts::{check, draw, replay_with, trace};
use crate::stream_log::StreamLog;
use crate::words_fault::WordsFault;
use ahci_args::{Asked, asked, not_text};
use ahci_jobs::RunSize;
use std::alloc::Global;
use std::io::{Read, Write};
use std::sync::Wait;
use std::thread::Threads;
use streams::{Reads, Writes};

/// The whole program: does what the words ask for, of which the first is the program's name, with standard input, output and
/// error. The exit status: 0; 1 for a fault, or if a line that was checked is faulty; 2 for a wrong command line; 3 if out of
/// memory; 4 if lines were checked and input or output failed. `log` records how the reads and writes of the three streams went.
/// `Read` and `Write` are returned only if a read or a write failed; an output of which no write failed is whole and flushed; a
/// fault's text is on standard error whole, once, and flushed, unless a write to it failed.
pub fn program<H, R, W, E>(
    rt: &H,
    alloc: Global,
    words: &[String],
    reader: &mut R,
    writer: &mut W,
    errors: &mut E,
    log: &mut StreamLog,
) -> u8
where
    H: Threads + Wait + Sync,
    R: Read,
    W: Write,
    E: Write,
    ensures { Runs (map string_bytes words.now)
        (input (R.remaining reader.old) (R.remaining reader.new) log.old.input log.new.input)
        (output (W.contents writer.old) (W.contents writer.new) log.old.output log.new.output)
        (output (E.contents errors.old) (E.contents errors.new) log.old.errors log.new.errors) result }
{
    match asked(alloc, words) {
        Ok(asked) => {
            let (reads, writes) = (&mut log.input, &mut log.output);
            let outcome = done(rt, alloc, asked, reader, reads, writer, writes);
            end(outcome, errors, &mut log.errors)
        }
        Err(error) => explain(alloc, &error, writer, errors, log),
    }
}

/// The program where its words could not be read. The exit status is 2 for a word that is no text, 3 for want of memory.
pub fn program_without_words<W: Write, E: Write>(
    alloc: Global,
    fault: WordsFault,
    writer: &mut W,
    errors: &mut E,
    log: &mut StreamLog,
) -> u8
    ensures without { RunsWithout fault
        (output (W.contents writer.old) (W.contents writer.new) log.old.output log.new.output)
        (output (E.contents errors.old) (E.contents errors.new) log.old.errors log.new.errors) result }
    ensures unread { log.new.input ≡ log.old.input }
{
    match fault {
        WordsFault::NotText => match not_text(alloc) {
            Ok(error) | Err(error) => explain(alloc, &error, writer, errors, log),
        },
        WordsFault::OutOfMemory => end(Err(CliFault::OutOfMemory), errors, &mut log.errors),
    }
}

/// The program with the words of its command line, or with why they could not be read: `program`, or `program_without_words`,
/// which reads nothing.
pub fn program_with<H, R, W, E>(
    rt: &H,
    alloc: Global,
    words: Result<Vec<String>, WordsFault>,
    reader: &mut R,
    writer: &mut W,
    errors: &mut E,
    log: &mut StreamLog,
) -> u8
where
    H: Threads + Wait + Sync,
    R: Read,
    W: Write,
    E: Write,
    ensures words { IfOk words (λ words. Runs (map string_bytes words.items)
        (input (R.remaining reader.old) (R.remaining reader.new) log.old.input log.new.input)
        (output (W.contents writer.old) (W.contents writer.new) log.old.output log.new.output)
        (output (E.contents errors.old) (E.contents errors.new) log.old.errors log.new.errors) result) }
    ensures unread { OnErr words (IsUnread (input (R.remaining reader.old) (R.remaining reader.new) log.old.input log.new.input)) }
    ensures without { IfErr words (λ fault. RunsWithout fault
        (output (W.contents writer.old) (W.contents writer.new) log.old.output log.new.output)
        (output (E.contents errors.old) (E.contents errors.new) log.old.errors log.new.errors) result) }
{
    match words {
        Ok(words) => program(rt, alloc, words.as_slice(), reader, writer, errors, log),
        Err(fault) => program_without_words(alloc, fault, writer, errors, log),
    }
}

/// Does what is asked for. Whether a line that was checked is faulty.
fn done<H, R, W>(
    rt: &H,
    alloc: Global,
    asked: Asked,
    reader: &mut R,
    reads: &mut Reads,
    writer: &mut W,
    writes: &mut Writes,
) -> Result<bool, CliFault>
where
    H: Threads + Wait + Sync,
    R: Read,
    W: Write,
    requires { HasRanges asked }
    ensures does { Does asked (input (R.remaining reader.old) (R.remaining reader.new) reads.old reads.new)
        (output (W.contents writer.old) (W.contents writer.new) writes.old writes.new) result }
    ensures reads { ReadsFor reads.old reads.new result }
    ensures writes { WritesFor writes.old writes.new result }
{
    match asked {
        Asked::Replay => {
            replay_with(alloc, reader, reads, writer, writes)?;
            Ok(false)
        }
        Asked::Trace { json } => trace(alloc, json, reader, reads, writer, writes),
        Asked::Check { jobs, json } => check(alloc, jobs, json, reader, reads, writer, writes),
        Asked::Draw { from, to } => draw(alloc, from, to, reader, reads, writer, writes),
        Asked::Run {
            workers,
            depth,
            sectors,
            pick,
            form,
        } => {
            let (size, form) = (RunSize::new(workers, depth, sectors), form_of(form));
            run_in_form(rt, alloc, size, pick, form, reader, reads, writer, writes)?;
            Ok(false)
        }
        Asked::Identify {
            sectors,
            depth,
            raw,
        } => identify(alloc, sectors, depth, raw, writer, writes),
        Asked::Log {
            tag,
            error,
            lba,
            raw,
        } => log(alloc, tag, error, lba, raw, writer, writes),
    }
}
