//! What software has laid out for the device.

ghost use Rattle.std.specs.Prelude.{◌≡◌, ◌+◌, IfOk};
ghost use Rattle.std.specs.Option.{option_map};
ghost use Rattle.ahci_trace.specs.Sent.{bytes_at, entries_in, entries_listed, of_unqueued, of_window, prdtl_of, sent_by, shown};

use ahci_port::{Port, Sent};
use ahci_table::Window;
use ncq_journal::EventKind;
use std::alloc::{AllocError, Allocator, Global};

/// What software put where the device found it: the command header, CFIS and the PRDT's entries (AHCI 1.3.1, sections 4.2.2
/// and 4.2.3).
#[derive(Drop)]
#[derive_where(Debug)]
pub struct SentCommand<A: Allocator = Global> {
    pub header: [u8; 32],
    /// The first 20 bytes of CFIS: a Register FIS - Host to Device.
    pub cfis: [u8; 20],
    pub entries: Vec<[u8; 16], A>,
}

/// So many bytes from a place on, or zeros where they aren't all there.
pub(crate) fn bytes_at<const N: usize>(bytes: &[u8], place: usize) -> [u8; N]
    ensures { result ≡ bytes_at N bytes.now place }
{
    let mut part = [0; N];
    if N <= bytes.len() && place <= bytes.len() - N {
        part.copy_from_slice(&bytes[place..place + N]);
    }
    part
}

/// How many entries the PRDT of a header has.
fn prdtl_of(header: &[u8; 32]) -> u16
    ensures { result ≡ prdtl_of header.now }
{
    u16::from_le_bytes([header[2], header[3]])
}

/// The entries of the PRDT in a window's bytes.
fn entries_in<A: Allocator>(
    alloc: A,
    bytes: &[u8],
    count: u16,
) -> Result<Vec<[u8; 16], A>, AllocError>
    ensures { IfOk result (λ entries. entries.items ≡ entries_in bytes.now count) }
{
    let mut entries = Vec::new(alloc);
    for index in 0..count {
        entries.push(bytes_at(bytes, 0x80 + 16 * usize::from(index)))?;
    }
    Ok(entries)
}

/// The command of a window.
fn of_window<A: Allocator, B: Allocator>(
    alloc: B,
    window: &Window<A>,
) -> Result<SentCommand<B>, AllocError>
    ensures { IfOk result (λ sent. shown sent ≡ of_window window.now) }
{
    let header = *window.header();
    Ok(SentCommand {
        header,
        cfis: bytes_at(window.bytes(), 0),
        entries: entries_in(alloc, window.bytes(), prdtl_of(&header))?,
    })
}

/// A list of one entry, or of none where PRDTL is 0.
fn entries_listed<A: Allocator>(alloc: A, sent: &Sent) -> Result<Vec<[u8; 16], A>, AllocError>
    ensures { IfOk result (λ entries. entries.items ≡ entries_listed sent.now) }
{
    let mut entries = Vec::new(alloc);
    if prdtl_of(&sent.header) > 0 {
        entries.push(sent.entry)?;
    }
    Ok(entries)
}

/// The command that slot 0 sent last that was not queued.
fn of_unqueued<A: Allocator>(alloc: A, sent: &Sent) -> Result<SentCommand<A>, AllocError>
    ensures { IfOk result (λ command. shown command ≡ of_unqueued sent.now) }
{
    Ok(SentCommand {
        header: sent.header,
        cfis: sent.cfis,
        entries: entries_listed(alloc, sent)?,
    })
}

/// What was sent by the command whose newest entry this is.
pub(crate) fn sent_by<A: Allocator, B: Allocator>(
    alloc: B,
    newest: Option<EventKind>,
    port: &Port<A>,
) -> Result<Option<SentCommand<B>>, AllocError>
    ensures { IfOk result (λ sent. option_map shown sent ≡ sent_by newest port.now) }
{
    match newest {
        Some(EventKind::Issue { tag, .. } | EventKind::Reissue(tag)) => match port.window(tag) {
            Some(window) => Ok(Some(of_window(alloc, window)?)),
            None => Ok(None),
        },
        Some(EventKind::Recover(_) | EventKind::Plain(_)) => {
            Ok(Some(of_unqueued(alloc, port.sent())?))
        }
        _ => Ok(None),
    }
}
