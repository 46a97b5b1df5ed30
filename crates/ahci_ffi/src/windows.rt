//! A window as it lies in memory, looked at with no port.

ghost use Rattle.std.specs.Prelude.{◌≡◌, ◌<◌, length, None, Some, IfOk, IfErr};
ghost use Rattle.ahci_table.specs.Prdt.{pieces};
ghost use Rattle.ahci_ffi.specs.{Alone.{AnswersCheck, AnswersWindowCheck, flat_command}, Refusals.{most_tags, with_length, with_tag}};

use crate::flat::FlatCommand;
use crate::status::Status;
use ahci_table::{Command, Window};
use std::alloc::{AllocError, Allocator};

/// Whether a port would take a window, and what it asks for then.
pub fn window_check<A: Allocator>(
    alloc: A,
    tag: u32,
    header: &[u8],
    memory: &[u8],
    command: &mut FlatCommand,
) -> Status
    ensures { AnswersCheck tag header.now memory.now result command.old command.new }
{
    let (tag, header) = match tag_and_header(tag, header) {
        Ok(sized) => sized,
        Err(refusal) => return refusal,
    };
    match window_over(alloc, tag, header, memory) {
        Ok(window) => look(&window, command),
        Err(refused) => refused.into(),
    }
}

/// The tag and the header that C names, each of its size.
pub(crate) fn tag_and_header(tag: u32, header: &[u8]) -> Result<(u8, [u8; 32]), Status>
    ensures ok { IfOk result (λ sized. (with_tag tag (with_length 32 (length header.now) None) ≡ None) × (tag < most_tags) × (sized.0 ≡ tag) × (sized.1 ≡ header.now)) }
    ensures refused { IfErr result (λ reason. with_tag tag (with_length 32 (length header.now) None) ≡ Some reason) }
{
    if tag >= 32 {
        return Err(Status::BadTag);
    }
    match <[u8; 32]>::try_from(header) {
        Ok(header) => Ok((tag as u8, header)),
        Err(_) => Err(Status::WrongLength),
    }
}

/// The window of a header, and of a copy of the memory from the tag's base on.
pub(crate) fn window_over<A: Allocator>(
    alloc: A,
    tag: u8,
    header: [u8; 32],
    memory: &[u8],
) -> Result<Window<A>, AllocError>
    requires { tag < most_tags }
    ensures { IfOk result (λ w. w ≡ record { tag = tag; header = header; bytes = memory.now }) }
{
    let bytes = Vec::from_slice(alloc, memory)?;
    Ok(Window::from_parts(tag, header, bytes))
}

/// The same of a window that is copied.
fn look<A: Allocator>(window: &Window<A>, command: &mut FlatCommand) -> Status
    ensures { AnswersWindowCheck window.now result command.old command.new }
{
    match window.check() {
        Ok(found) => {
            *command = flat_command(&found);
            Status::Done
        }
        Err(fault) => Status::Refused(fault.into()),
    }
}

/// A command as a struct.
fn flat_command(command: &Command) -> FlatCommand
    ensures { result ≡ flat_command command.now.queued (length command.now.pieces.items) }
{
    let queued = command.queued;
    FlatCommand {
        lba: queued.lba,
        sectors: queued.sectors,
        kind: u32::from(queued.write),
        tag: u32::from(queued.tag),
        pieces: command.pieces.len() as u32,
    }
}
