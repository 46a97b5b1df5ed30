//! How the program ends: what it reports of an outcome, and the status.

ghost use Rattle.clap.specs.Words.{kind_of};
ghost use Rattle.std.specs.Prelude.{◌≡◌, OnErr};
ghost use Rattle.streams.specs.Ends.{with_failed_write};
ghost use Rattle.ahci_cli.specs.Program.{Ends, IsShown, IsWritten, Rejects, Says, output};

use crate::fault::CliFault;
use crate::fault_text::text_of;
use crate::stream_log::StreamLog;
use clap::Error;
use clap::error::ErrorKind;
use std::alloc::Global;
use std::io::Write;
use streams::{OutputFailed, Writes};

/// The exit status of a wrong command line.
const USAGE: u8 = 2;

/// Reports an outcome that is a fault. The status: 0, 1 if a line is faulty, or the fault's.
pub(crate) fn end<E: Write>(
    outcome: Result<bool, CliFault>,
    errors: &mut E,
    tells: &mut Writes,
) -> u8
    ensures { Ends (output (E.contents errors.old) (E.contents errors.new) tells.old tells.new) result outcome }
{
    match outcome {
        Ok(false) => 0,
        Ok(true) => 1,
        Err(fault) => {
            let text = text_of(fault);
            tell(text.as_str().as_bytes(), errors, tells);
            fault.status()
        }
    }
}

/// Writes a text, as far as it can be written.
#[tactic(auto, using(crate::proofs::ProgramLemmas::written))]
fn tell<E: Write>(text: &[u8], errors: &mut E, tells: &mut Writes)
    ensures { IsWritten (output (E.contents errors.old) (E.contents errors.new) tells.old tells.new) text.now }
{
    let _ = tells.write_whole(errors, text);
}

/// What the parser of the command line reports: help and the version on the writer, a wrong command line on the errors.
pub(crate) fn explain<W: Write, E: Write>(
    alloc: Global,
    error: &Error,
    writer: &mut W,
    errors: &mut E,
    log: &mut StreamLog,
) -> u8
    ensures says { Says (kind_of error.now)
        (output (W.contents writer.old) (W.contents writer.new) log.old.output log.new.output)
        (output (E.contents errors.old) (E.contents errors.new) log.old.errors log.new.errors) result }
    ensures unread { log.new.input ≡ log.old.input }
{
    match error.kind() {
        ErrorKind::OutOfMemory => end(Err(CliFault::OutOfMemory), errors, &mut log.errors),
        ErrorKind::DisplayHelp | ErrorKind::DisplayVersion => {
            match format!(in alloc; "{error}") {
                Ok(text) => {
                    let outcome = show(text.as_bytes(), writer, &mut log.output);
                    end(outcome, errors, &mut log.errors)
                }
                Err(_) => end(Err(CliFault::OutOfMemory), errors, &mut log.errors),
            }
        }
        _ => reject(alloc, error, errors, &mut log.errors),
    }
}

/// Writes help, or the version.
fn show<W: Write>(text: &[u8], writer: &mut W, writes: &mut Writes) -> Result<bool, CliFault>
    ensures shown { IsShown text.now (output (W.contents writer.old) (W.contents writer.new) writes.old writes.new) result }
    ensures failed { OnErr result (writes.new ≡ with_failed_write writes.old) }
{
    match writes.write_whole(writer, text) {
        Ok(()) => Ok(false),
        Err(OutputFailed) => Err(CliFault::Write),
    }
}

/// Reports what is wrong with the command line.
fn reject<E: Write>(alloc: Global, error: &Error, errors: &mut E, tells: &mut Writes) -> u8
    ensures { Rejects (output (E.contents errors.old) (E.contents errors.new) tells.old tells.new) result }
{
    match format!(in alloc; "{error}") {
        Ok(text) => {
            tell(text.as_bytes(), errors, tells);
            USAGE
        }
        Err(_) => end(Err(CliFault::OutOfMemory), errors, tells),
    }
}
