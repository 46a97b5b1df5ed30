//! The commands whose data moved, and the FISes that carried them.

ghost use Rattle.std.specs.Prelude.{◌≡◌, length, IfOk};
ghost use Rattle.ncq_core.specs.DiskFis.{setup_bytes};
ghost use Rattle.ahci_trace.specs.Transfers.{asked_in, command_of, completed_by, payloads_of, served};

use crate::appended::Appended;
use crate::sent::bytes_at;
use ahci_port::Port;
use ahci_table::Window;
use arrayvec::ArrayVec;
use ncq_journal::EventKind;
use sata_fis::{DmaSetup, Fis, Queued, decode, queued};
use std::alloc::{AllocError, Allocator};

/// The most bytes of data in one Data FIS (Serial ATA, "Data FIS").
const MOST_PAYLOAD: u32 = 8192;

/// The queued command that the bytes of a command FIS ask for.
fn asked_in(bytes: &[u8]) -> Option<Queued>
    requires { length bytes.now ≡ 20 }
    ensures { result ≡ asked_in bytes.now }
{
    match &decode(bytes) {
        Ok(Fis::H2d(h2d)) => queued(h2d),
        _ => None,
    }
}

/// The queued command of a window.
fn command_of<A: Allocator>(window: &Window<A>) -> Option<Queued>
    ensures { result ≡ command_of window.now }
{
    asked_in(&bytes_at::<20>(window.bytes(), 0))
}

/// The command that an entry completes, whose window its slot still has.
fn completed_by<A: Allocator>(what: EventKind, port: &Port<A>) -> Option<Queued>
    ensures { result ≡ completed_by port.now what }
{
    match what {
        EventKind::Complete(tag) => command_of(port.window(tag)?),
        _ => None,
    }
}

/// The commands that some entries complete, in their order: their data have moved.
pub(crate) fn served<A: Allocator, B: Allocator>(
    alloc: B,
    entries: &[Appended],
    port: &Port<A>,
) -> Result<Vec<Queued, B>, AllocError>
    ensures { IfOk result (λ commands. commands.items ≡ served port.now entries.now) }
{
    entries
        .iter()
        .filter_map(|entry| completed_by(entry.what, port))
        .collect(alloc)
}

/// The bytes of the DMA Setup FIS that comes before a command's data.
pub(crate) fn setup(command: &Queued) -> ArrayVec<u8, 28>
    ensures { result.items ≡ setup_bytes command.now }
{
    Fis::DmaSetup(DmaSetup {
        a: false,
        i: false,
        d: !command.write,
        tag: command.tag,
        offset: 0,
        count: 512 * command.sectors,
    })
    .encode()
}

/// How many bytes of data are in each Data FIS of a command.
pub(crate) fn payloads<A: Allocator>(alloc: A, command: &Queued) -> Result<Vec<u32, A>, AllocError>
    ensures { IfOk result (λ list. list.items ≡ payloads_of command.now) }
{
    let bytes = 512 * command.sectors;
    let rest = bytes % MOST_PAYLOAD;
    let mut list = Vec::from_elem(alloc, MOST_PAYLOAD, (bytes / MOST_PAYLOAD) as usize)?;
    if rest != 0 {
        list.push(rest)?;
    }
    Ok(list)
}
