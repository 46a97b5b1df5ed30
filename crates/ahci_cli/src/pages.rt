//! The pages that the program writes.

ghost use Rattle.std.specs.Prelude.{◌<◌, ◌≤◌, ◌^◌};
ghost use Rattle.ahci_cli.specs.Program.{IsPage, ReadsFor, WritesFor, output};
ghost use Rattle.ata_pages.specs.Output.{identify_output, log_output};
ghost use Rattle.streams.specs.Ends.{ReadSoFar};

use crate::fault::CliFault;
use std::alloc::Global;
use std::io::Write;
use streams::Writes;

/// Writes the page that IDENTIFY DEVICE reads. Nothing is read, so a read that had failed before is no fault of this.
pub(crate) fn identify<W: Write>(
    alloc: Global,
    sectors: u32,
    depth: u32,
    raw: bool,
    writer: &mut W,
    writes: &mut Writes,
) -> Result<bool, CliFault>
    requires some { 1 ≤ depth }
    requires most { depth ≤ 32 }
    ensures page { IsPage (identify_output sectors depth raw) raw (output (W.contents writer.old) (W.contents writer.new) writes.old writes.new) result }
    ensures reads { (reads : ReadSoFar) → ReadsFor reads reads result }
    ensures writes { WritesFor writes.old writes.new result }
{
    ata_pages::write_identify_with(alloc, sectors, depth, raw, writer, writes)?;
    Ok(false)
}

/// Writes page 0 of log 10h after an error, as `identify` writes its page.
pub(crate) fn log<W: Write>(
    alloc: Global,
    tag: u8,
    error: u8,
    lba: u64,
    raw: bool,
    writer: &mut W,
    writes: &mut Writes,
) -> Result<bool, CliFault>
    requires tag { tag < 32 }
    requires lba { lba < 2 ^ 48 }
    ensures page { IsPage (log_output tag error lba raw) raw (output (W.contents writer.old) (W.contents writer.new) writes.old writes.new) result }
    ensures reads { (reads : ReadSoFar) → ReadsFor reads reads result }
    ensures writes { WritesFor writes.old writes.new result }
{
    ata_pages::write_log_with(alloc, tag, error, lba, raw, writer, writes)?;
    Ok(false)
}
