ghost use Rattle.std.specs.Prelude.{◌≡◌, ◌++◌, OnOk};
ghost use Rattle.ahci_script.specs.Results.{told, told_text};

use crate::result_line::ResultLine;
use crate::text::{SHORT, push_sectors};
use std::alloc::{AllocError, Allocator};
use streams::TextBuffer;

/// Appends a result, without a line feed. Room for a short one is reserved at once.
///
/// # Errors
/// When an allocation fails. Then a part of the result may be appended.
pub fn push_result<A: Allocator>(
    text: &mut TextBuffer<A>,
    line: ResultLine<'_>,
) -> Result<(), AllocError>
    ensures { OnOk result (text.new.bytes ≡ text.old.bytes ++ told_text (told line.entry)) }
{
    text.reserve(SHORT)?;
    match line {
        ResultLine::Wrote => text.push(b"wrote"),
        ResultLine::Read(bytes) => {
            text.push(b"read")?;
            text.reserve(3 * (bytes.len() / 512))?;
            push_sectors(text, bytes);
            Ok(())
        }
        ResultLine::Failed { error, lba } => {
            text.push(b"failed")?;
            text.push_byte(error)?;
            text.push_number(b" ", lba)
        }
        ResultLine::Sector { lba, byte } => {
            text.push_number(b"sector ", lba)?;
            text.push_byte(byte)
        }
    }
}
