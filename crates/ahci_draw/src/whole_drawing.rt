//! A script whose picture is written.

ghost use Rattle.std.specs.Prelude.{◌≡◌, IfErr, OnOk};
ghost use Rattle.streams.specs.Ends.{with_flush};
ghost use Rattle.std.specs.Io.KnownBytes.{Appends};
ghost use Rattle.ahci_replay.specs.Transcript.{ReadsBefore};
ghost use Rattle.ahci_draw.specs.Drawn.{DrawWrites, Drawn, DrawnTo, IsSentTo, SendWrites, has_listing, picture_lines};

use crate::drawer::Drawer;
use crate::picture::picture_text;
use ahci_replay::{ScriptFault, replay_with};
use ahci_script::Output;
use std::alloc::Allocator;
use std::io::{Read, Write};
use streams::{Reads, Writes};

/// Runs the script that the reader gives as `replay` does, and writes a picture of what the port did, as SVG: the entries of its
/// journal from one number to another, both of them too. All are drawn from 0 to `u64::MAX`, and none where `from` is past `to` or
/// past the last entry. At a fault of the script the picture shows what was done before it.
///
/// # Errors
/// Those of `replay`. Where memory was refused nothing is written.
pub fn draw<R: Read, W: Write, A: Allocator + Copy>(
    alloc: A,
    from: u64,
    to: u64,
    reader: &mut R,
    writer: &mut W,
) -> Result<(), ScriptFault>
    ensures ok { OnOk result (Drawn from to (R.remaining reader.old) (R.remaining reader.new) (W.contents writer.old) (W.contents writer.new)) }
    ensures err { IfErr result (DrawnTo from to (R.remaining reader.old) (R.remaining reader.new) (W.contents writer.old) (W.contents writer.new)) }
{
    draw_with(
        alloc,
        from,
        to,
        reader,
        &mut Reads::new(),
        writer,
        &mut Writes::new(),
    )
}

/// The same, and `reads` and `writes` record how the reads and writes went.
///
/// # Errors
/// Those of `draw`.
pub fn draw_with<R: Read, W: Write, A: Allocator + Copy>(
    alloc: A,
    from: u64,
    to: u64,
    reader: &mut R,
    reads: &mut Reads,
    writer: &mut W,
    writes: &mut Writes,
) -> Result<(), ScriptFault>
    ensures ok { OnOk result (Drawn from to (R.remaining reader.old) (R.remaining reader.new) (W.contents writer.old) (W.contents writer.new)) }
    ensures err { IfErr result (DrawnTo from to (R.remaining reader.old) (R.remaining reader.new) (W.contents writer.old) (W.contents writer.new)) }
    ensures flushed { OnOk result (writes.new ≡ with_flush writes.old) }
    ensures writes { IfErr result (DrawWrites writes.old writes.new) }
    ensures unfailed { OnOk result (reads.new.failed ≡ reads.old.failed) }
    ensures reads { IfErr result (ReadsBefore reads.old reads.new) }
{
    let mut listing = Vec::new(alloc);
    let (drawer, mut sent) = (Drawer::new(alloc), Writes::new());
    let replayed = replay_with(alloc, &drawer, reader, reads, &mut listing, &mut sent);
    if has_listing(&replayed) {
        return send(alloc, from, to, &listing, writer, writes).and(replayed);
    }
    Err(ScriptFault::OutOfMemory) // a listing takes all that it has room for
}

/// Whether a script was replayed to its end, or to a fault of its own.
fn has_listing(replayed: &Result<(), ScriptFault>) -> bool
    ensures { result ≡ has_listing replayed.now }
{
    matches!(
        replayed,
        Ok(()) | Err(ScriptFault::Line(_) | ScriptFault::Read)
    )
}

/// Writes the picture that a listing gives.
fn send<W: Write, A: Allocator + Copy>(
    alloc: A,
    from: u64,
    to: u64,
    listing: &[u8],
    writer: &mut W,
    writes: &mut Writes,
) -> Result<(), ScriptFault>
    ensures ok { OnOk result (Appends (W.contents writer.old) (W.contents writer.new) (picture_lines from to listing.now)) }
    ensures err { IfErr result (IsSentTo from to listing.now (W.contents writer.old) (W.contents writer.new)) }
    ensures flushed { OnOk result (writes.new ≡ with_flush writes.old) }
    ensures writes { IfErr result (SendWrites writes.old writes.new) }
{
    let mut output = Output::new(alloc);
    output.put_text(&picture_text(alloc, from, to, listing)?)?;
    output.send(writer, writes)?;
    Ok(())
}
