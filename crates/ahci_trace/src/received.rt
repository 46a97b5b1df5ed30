//! The FISes that a command has brought.

ghost use Rattle.std.specs.Prelude.{◌≡◌};
ghost use Rattle.ahci_trace.specs.Received.{data_moved, nothing_received, page_came, received_by, register_came, set_bits_came};

use crate::sent::bytes_at;
use ahci_port::Port;
use ncq_journal::{EventKind, Phase, Plain};
use std::alloc::Allocator;

/// The FISes that a command has brought into the received FIS area, byte by byte (AHCI 1.3.1, section 4.2.1). Of a command
/// that serves several tags only the last DMA Setup FIS is there; `CommandTrace::served` has them all.
#[derive(Clone, Copy, Debug)]
pub struct Received {
    /// DMA Setup, at 00h.
    pub setup: Option<[u8; 28]>,
    /// PIO Setup, at 20h.
    pub pio: Option<[u8; 20]>,
    /// Register - Device to Host, at 40h.
    pub register: Option<[u8; 20]>,
    /// Set Device Bits, at 58h.
    pub bits: Option<[u8; 8]>,
}

/// No FIS.
pub(crate) fn nothing_received() -> Received
    ensures { result ≡ nothing_received }
{
    Received {
        setup: None,
        pio: None,
        register: None,
        bits: None,
    }
}

/// A Register FIS alone.
fn register_came(area: &[u8; 256]) -> Received
    ensures { result ≡ register_came area.now }
{
    Received {
        register: Some(bytes_at(area, 0x40)),
        ..nothing_received()
    }
}

/// A Set Device Bits FIS alone.
fn set_bits_came(area: &[u8; 256]) -> Received
    ensures { result ≡ set_bits_came area.now }
{
    Received {
        bits: Some(bytes_at(area, 0x58)),
        ..nothing_received()
    }
}

/// A DMA Setup FIS, and a Set Device Bits FIS after the data.
fn data_moved(area: &[u8; 256]) -> Received
    ensures { result ≡ data_moved area.now }
{
    Received {
        setup: Some(bytes_at(area, 0x00)),
        ..set_bits_came(area)
    }
}

/// A PIO Setup FIS, which a page follows.
fn page_came(area: &[u8; 256]) -> Received
    ensures { result ≡ page_came area.now }
{
    Received {
        pio: Some(bytes_at(area, 0x20)),
        ..nothing_received()
    }
}

/// What was received by the command whose newest entry this is.
pub(crate) fn received_by<A: Allocator>(newest: Option<EventKind>, port: &Port<A>) -> Received
    ensures { result ≡ received_by newest port.now }
{
    let area = port.received();
    match newest {
        Some(EventKind::Accept(_)) => register_came(area),
        Some(EventKind::Complete(_)) => data_moved(area),
        Some(EventKind::Fail { tag, .. }) => match port.phase(tag) {
            Phase::Rejected => register_came(area),
            _ => set_bits_came(area),
        },
        Some(EventKind::Recover(_)) => page_came(area),
        Some(EventKind::Plain(command)) => match command {
            Plain::Flush => register_came(area),
            Plain::Identify | Plain::ReadLog => page_came(area),
        },
        _ => nothing_received(),
    }
}
