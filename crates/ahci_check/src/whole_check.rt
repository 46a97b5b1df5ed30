//! A script or a job list that is judged and not run, line by line.

ghost use Rattle.std.specs.Prelude.{◌≡◌, [], false, IfErr, IfOk, OnOk};
ghost use Rattle.streams.specs.Ends.{with_flush};
ghost use Rattle.ahci_check.specs.Reports.{EndsCheck, IsChecked};
ghost use Rattle.ahci_check.specs.Faults.{ReadsTo, WritesTo};

use crate::check_fault::CheckFault;
use crate::form::Form;
use crate::judge::Judge;
use crate::place::Place;
use crate::report::Report;
use ahci_script::Output;
use std::alloc::Allocator;
use std::io::{Read, Write};
use std::mem;
use streams::{Reads, Writes, take_lines};

/// Judges each line of the script that the reader gives, runs nothing, and writes a line for each complaint in this form, in the
/// order of the lines. `true` where there was any. A line of more than 4,096 bytes is the last that is judged. What was reported is
/// written before more of the script is read.
///
/// # Errors
/// `Read` where the input fails or has more than 67,108,864 bytes, and `OutOfMemory`: the complaints about the lines before
/// are written first. `Write` where the output fails: a first part of them is written.
pub fn check<R: Read, W: Write, A: Allocator + Clone>(
    alloc: A,
    form: Form,
    reader: &mut R,
    writer: &mut W,
) -> Result<bool, CheckFault>
    ensures ok { IfOk result (IsChecked form (Judge.OfScript Place.BeforeDisk) (R.remaining reader.old) (R.remaining reader.new)
        (W.contents writer.old) (W.contents writer.new)) }
    ensures err { IfErr result (EndsCheck form (Judge.OfScript Place.BeforeDisk) (R.remaining reader.old) (R.remaining reader.new)
        (W.contents writer.old) (W.contents writer.new)) }
{
    check_with(
        alloc,
        form,
        Judge::OfScript(Place::BeforeDisk),
        reader,
        &mut Reads::new(),
        writer,
        &mut Writes::new(),
    )
}

/// The same of a job list.
///
/// # Errors
/// Those of `check`.
pub fn check_jobs<R: Read, W: Write, A: Allocator + Clone>(
    alloc: A,
    form: Form,
    reader: &mut R,
    writer: &mut W,
) -> Result<bool, CheckFault>
    ensures ok { IfOk result (IsChecked form Judge.OfJobs (R.remaining reader.old) (R.remaining reader.new)
        (W.contents writer.old) (W.contents writer.new)) }
    ensures err { IfErr result (EndsCheck form Judge.OfJobs (R.remaining reader.old) (R.remaining reader.new)
        (W.contents writer.old) (W.contents writer.new)) }
{
    check_with(
        alloc,
        form,
        Judge::OfJobs,
        reader,
        &mut Reads::new(),
        writer,
        &mut Writes::new(),
    )
}

/// The same of lines of which the first is judged so; `reads` and `writes` record how the reads and writes went.
///
/// # Errors
/// Those of `check`.
pub fn check_with<R: Read, W: Write, A: Allocator + Clone>(
    alloc: A,
    form: Form,
    judge: Judge,
    reader: &mut R,
    reads: &mut Reads,
    writer: &mut W,
    writes: &mut Writes,
) -> Result<bool, CheckFault>
    ensures ok { IfOk result (IsChecked form judge (R.remaining reader.old) (R.remaining reader.new) (W.contents writer.old) (W.contents writer.new)) }
    ensures err { IfErr result (EndsCheck form judge (R.remaining reader.old) (R.remaining reader.new) (W.contents writer.old) (W.contents writer.new)) }
    ensures flushed { OnOk result (writes.new ≡ with_flush writes.old) }
    ensures writes { IfErr result (WritesTo writes.old writes.new) }
    ensures unfailed { OnOk result (reads.new.failed ≡ reads.old.failed) }
    ensures reads { IfErr result (ReadsTo reads.old reads.new) }
{
    let (reports, texts) = (alloc.clone()?, alloc.clone()?);
    let before = mem::replace(writes, Writes::new());
    let mut report = Report::new(reports, Output::new(texts), form, judge, before);
    let outcome = fill_report(alloc, &mut report, reader, reads, writer);
    let found = report.found();
    *writes = report.into_writes();
    outcome?;
    Ok(found)
}

/// Judges all lines on a report that has none yet, and returns how the reads and writes went.
fn fill_report<R: Read, W: Write, A: Allocator + Clone>(
    alloc: A,
    report: &mut Report<A>,
    reader: &mut R,
    reads: &mut Reads,
    writer: &mut W,
) -> Result<(), CheckFault>
    requires new { (report.old.found ≡ false) × (report.old.waiting ≡ []) }
    ensures ok { OnOk result (IsChecked report.old.form report.old.judge (R.remaining reader.old) (R.remaining reader.new)
        (W.contents writer.old) (W.contents writer.new) report.new.found) }
    ensures err { IfErr result (EndsCheck report.old.form report.old.judge (R.remaining reader.old) (R.remaining reader.new)
        (W.contents writer.old) (W.contents writer.new)) }
    ensures flushed { OnOk result (report.new.writes ≡ with_flush report.old.writes) }
    ensures writes { IfErr result (WritesTo report.old.writes report.new.writes) }
    ensures unfailed { OnOk result (reads.new.failed ≡ reads.old.failed) }
    ensures reads { IfErr result (ReadsTo reads.old reads.new) }
{
    match take_lines(alloc, reader, reads, report, writer) {
        Ok(()) => {
            report.send(writer)?;
            Ok(())
        }
        Err(stopped) => {
            let fault = stopped.fault_or(CheckFault::Read, CheckFault::OutOfMemory);
            if fault.is_of_output() {
                return Err(fault);
            }
            report.send(writer)?;
            Err(fault)
        }
    }
}
