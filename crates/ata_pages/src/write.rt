//! The pages, written as text or as they are.

ghost use Rattle.std.specs.{Prelude.{◌≡◌, ◌<◌, ◌≤◌, ◌^◌, ℕ, List, IfErr, OnErr, OnOk, Err, Some, false, take}, Io.KnownBytes.{Appends, Keeps}};
ghost use Rattle.streams.specs.Ends.{with_flush};
ghost use Rattle.ata_pages.specs.Output.{WritesAs, identify_output, log_output, output_as};

use crate::identify_text::IdentifyText;
use crate::log_text::LogText;
use crate::page_fault::PageFault;
use ncq_core::{identify_page, log_page};
use std::alloc::Allocator;
use std::fmt::Display;
use std::io::Write;
use streams::Writes;

/// Writes the page that IDENTIFY DEVICE reads of a disk with so many sectors, and 1 to 32 tags: as `IdentifyText`, or where
/// `raw`, its 512 bytes as they are.
///
/// # Errors
/// `OutOfMemory` for the text alone, before a byte of it is written. `Write` where the writer took no more: a first part is
/// written then.
pub fn write_identify<W: Write, A: Allocator>(
    alloc: A,
    sectors: u32,
    depth: u32,
    raw: bool,
    writer: &mut W,
) -> Result<(), PageFault>
    requires deep { 1 ≤ depth }
    requires shallow { depth ≤ 32 }
    ensures ok { OnOk result (Appends (W.contents writer.old) (W.contents writer.new) (identify_output sectors depth raw)) }
    ensures part { OnErr result
        ((n : ℕ) × Appends (W.contents writer.old) (W.contents writer.new) (take n (identify_output sectors depth raw))) }
    ensures memory { result ≡ Err PageFault.OutOfMemory → (raw ≡ false) × Keeps (W.contents writer.old) (W.contents writer.new) }
{
    write_identify_with(alloc, sectors, depth, raw, writer, &mut Writes::new())
}

/// The same, and `writes` records how the writes went.
///
/// # Errors
/// As of `write_identify`.
pub fn write_identify_with<W: Write, A: Allocator>(
    alloc: A,
    sectors: u32,
    depth: u32,
    raw: bool,
    writer: &mut W,
    writes: &mut Writes,
) -> Result<(), PageFault>
    requires deep { 1 ≤ depth }
    requires shallow { depth ≤ 32 }
    ensures ok { OnOk result (Appends (W.contents writer.old) (W.contents writer.new) (identify_output sectors depth raw)) }
    ensures part { OnErr result
        ((n : ℕ) × Appends (W.contents writer.old) (W.contents writer.new) (take n (identify_output sectors depth raw))) }
    ensures memory { result ≡ Err PageFault.OutOfMemory → (raw ≡ false) × Keeps (W.contents writer.old) (W.contents writer.new) }
    ensures flushed { OnOk result (writes.new ≡ with_flush writes.old) }
    ensures writes { IfErr result (WritesAs writes.old writes.new) }
{
    let page = identify_page(sectors, depth);
    let text = &IdentifyText(page);
    put(alloc, &page, text, raw, writer, writes)
}

/// Writes page 0 of log 10h after an error: the tag of the command that failed, below 32, the error byte, and the LBA of the
/// failing sector, below 2^48. It is written as `LogText`, or where `raw`, its 512 bytes as they are.
///
/// # Errors
/// As of `write_identify`.
pub fn write_log<W: Write, A: Allocator>(
    alloc: A,
    tag: u8,
    error: u8,
    lba: u64,
    raw: bool,
    writer: &mut W,
) -> Result<(), PageFault>
    requires tag { tag < 32 }
    requires lba { lba < 2 ^ 48 }
    ensures ok { OnOk result (Appends (W.contents writer.old) (W.contents writer.new) (log_output tag error lba raw)) }
    ensures part { OnErr result
        ((n : ℕ) × Appends (W.contents writer.old) (W.contents writer.new) (take n (log_output tag error lba raw))) }
    ensures memory { result ≡ Err PageFault.OutOfMemory → (raw ≡ false) × Keeps (W.contents writer.old) (W.contents writer.new) }
{
    write_log_with(alloc, tag, error, lba, raw, writer, &mut Writes::new())
}

/// The same, and `writes` records how the writes went.
///
/// # Errors
/// As of `write_identify`.
pub fn write_log_with<W: Write, A: Allocator>(
    alloc: A,
    tag: u8,
    error: u8,
    lba: u64,
    raw: bool,
    writer: &mut W,
    writes: &mut Writes,
) -> Result<(), PageFault>
    requires tag { tag < 32 }
    requires lba { lba < 2 ^ 48 }
    ensures ok { OnOk result (Appends (W.contents writer.old) (W.contents writer.new) (log_output tag error lba raw)) }
    ensures part { OnErr result
        ((n : ℕ) × Appends (W.contents writer.old) (W.contents writer.new) (take n (log_output tag error lba raw))) }
    ensures memory { result ≡ Err PageFault.OutOfMemory → (raw ≡ false) × Keeps (W.contents writer.old) (W.contents writer.new) }
    ensures flushed { OnOk result (writes.new ≡ with_flush writes.old) }
    ensures writes { IfErr result (WritesAs writes.old writes.new) }
{
    let page = log_page(tag, error, lba);
    let text = &LogText(page);
    put(alloc, &page, text, raw, writer, writes)
}

/// Writes a page: as this text, or where `raw`, its 512 bytes as they are.
fn put<T: Display, W: Write, A: Allocator>(
    alloc: A,
    page: &[u8; 512],
    text: &T,
    raw: bool,
    writer: &mut W,
    writes: &mut Writes,
) -> Result<(), PageFault>
    ensures ok { (shown : List ℕ) → T.output text.now ≡ Some shown
        → OnOk result (Appends (W.contents writer.old) (W.contents writer.new) (output_as raw page.now shown)) }
    ensures part { (shown : List ℕ) → T.output text.now ≡ Some shown
        → OnErr result ((n : ℕ) × Appends (W.contents writer.old) (W.contents writer.new) (take n (output_as raw page.now shown))) }
    ensures memory { result ≡ Err PageFault.OutOfMemory → (raw ≡ false) × Keeps (W.contents writer.old) (W.contents writer.new) }
    ensures flushed { OnOk result (writes.new ≡ with_flush writes.old) }
    ensures writes { IfErr result (WritesAs writes.old writes.new) }
{
    if raw {
        return Ok(writes.write_whole(writer, page)?);
    }
    let text = text.to_string(alloc)?;
    Ok(writes.write_whole(writer, text.as_bytes())?)
}
