//! The text of the FISes that carry data.

ghost use Rattle.std.specs.Prelude.{◌≡◌, ◌++◌, codes, true, OnOk};
ghost use Rattle.std.specs.List.{flat_map};
ghost use Rattle.ncq_core.specs.DiskFis.{activate_bytes, setup_bytes};
ghost use Rattle.ahci_trace.specs.Text.{data_line, data_text, named_text, transfer_text};
ghost use Rattle.ahci_trace.specs.Transfers.{payloads_of};

use crate::note::{Note, push_bytes, push_named};
use crate::served::{payloads, setup};
use sata_fis::{Fis, Queued, data_head};
use std::alloc::{AllocError, Allocator};
use streams::TextBuffer;

/// Appends a Data FIS: its first dword, and how many bytes of data follow it.
pub(crate) fn push_data<A: Allocator>(
    text: &mut TextBuffer<A>,
    name: &[u8],
    bytes: u32,
) -> Result<(), AllocError>
    ensures { OnOk result (text.new.bytes ≡ text.old.bytes ++ data_line name.now bytes) }
{
    text.push(name)?;
    push_bytes(text, &data_head())?;
    text.push_number(b", ", bytes)?;
    text.push(b" bytes\n")
}

/// Appends a DMA Activate FIS.
fn push_activate<A: Allocator>(text: &mut TextBuffer<A>) -> Result<(), AllocError>
    ensures { OnOk result (text.new.bytes ≡ text.old.bytes ++ named_text (codes "  received DMA Activate FIS") activate_bytes) }
{
    push_named(
        text,
        b"  received DMA Activate FIS",
        Fis::DmaActivate.encode().as_slice(),
    )
}

/// Appends a Data FIS of a write, which the device asks for first.
fn push_written<A: Allocator>(text: &mut TextBuffer<A>, bytes: u32) -> Result<(), AllocError>
    ensures { OnOk result (text.new.bytes ≡ text.old.bytes ++ data_text true bytes) }
{
    push_activate(text)?;
    push_data(text, b"  sent Data FIS", bytes)
}

/// Appends a Data FIS of a command.
fn push_moved<A: Allocator>(
    text: &mut TextBuffer<A>,
    write: bool,
    bytes: u32,
) -> Result<(), AllocError>
    ensures { OnOk result (text.new.bytes ≡ text.old.bytes ++ data_text write bytes) }
{
    if write {
        push_written(text, bytes)
    } else {
        push_data(text, b"  received Data FIS", bytes)
    }
}

/// Appends Data FISes of a command, one after the other.
fn push_each<A: Allocator>(
    text: &mut TextBuffer<A>,
    write: bool,
    payloads: &[u32],
) -> Result<(), AllocError>
    ensures { OnOk result (text.new.bytes ≡ text.old.bytes ++ flat_map (data_text write) payloads.now) }
{
    for bytes in payloads {
        push_moved(text, write, *bytes)?;
    }
    Ok(())
}

/// Appends the DMA Setup FIS of a command.
fn push_setup<A: Allocator>(text: &mut TextBuffer<A>, command: &Queued) -> Result<(), AllocError>
    ensures { OnOk result (text.new.bytes ≡ text.old.bytes ++ named_text (codes "  received DMA Setup FIS") (setup_bytes command.now)) }
{
    push_named(text, b"  received DMA Setup FIS", setup(command).as_slice())
}

/// Appends the Data FISes of a command.
fn push_all_data<A: Allocator + Copy>(
    text: &mut TextBuffer<A>,
    command: &Queued,
) -> Result<(), AllocError>
    ensures { OnOk result (text.new.bytes ≡ text.old.bytes ++ flat_map (data_text command.now.write) (payloads_of command.now)) }
{
    let payloads = payloads(text.alloc(), command)?;
    push_each(text, command.write, &payloads)
}

/// A command, by the FISes that carry its data.
impl Note for Queued {
    ghost note = { transfer_text };

    #[tactic(auto, unfolding(crate::specs::Text::transfer_text))]
    fn push_to<A: Allocator + Copy>(&self, text: &mut TextBuffer<A>) -> Result<(), AllocError> {
        push_setup(text, self)?;
        push_all_data(text, self)
    }
}
