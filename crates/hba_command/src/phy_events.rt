ghost use Rattle.std.specs.Prelude.{◌≡◌};
ghost use Rattle.hba_command.specs.PhyEvents.{counted, events_page, has_icrc, no_events, with_ending, with_signature};

use crate::words::put_word;
use sata_fis::is_set;

/// What the disk counts of its interface (Serial ATA, "Phy Event Counters").
#[derive(Clone, Copy, Debug, PartialEq, Eq)]
pub struct PhyEvents {
    /// Counter 001h: commands that ended with ICRC.
    pub icrc: u16,
    /// Counter 00Ah: signatures that were sent because of a COMRESET.
    pub signatures: u16,
}

impl PhyEvents {
    /// No event, as after power-on.
    pub fn new() -> Self
        ensures { result ≡ no_events }
    {
        PhyEvents {
            icrc: 0,
            signatures: 0,
        }
    }
}

/// A counter with one more; at its most it stays.
fn counted(counter: u16) -> u16
    ensures { result ≡ counted counter }
{
    if counter == 0xFFFF {
        return counter;
    }
    counter + 1
}

/// Whether a status and an error say that the command ended with ICRC.
fn has_icrc(status: u8, error: u8) -> bool
    ensures { result ≡ has_icrc status error }
{
    is_set(status, 0) && is_set(error, 7)
}

/// The counters behind a command that has ended with this status and error.
pub(crate) fn with_ending(events: PhyEvents, status: u8, error: u8) -> PhyEvents
    ensures { result ≡ with_ending status error events }
{
    if has_icrc(status, error) {
        let icrc = counted(events.icrc);
        return PhyEvents { icrc, ..events };
    }
    events
}

/// The counters behind a signature that was sent because of a COMRESET.
pub(crate) fn with_signature(events: PhyEvents) -> PhyEvents
    ensures { result ≡ with_signature events }
{
    let signatures = counted(events.signatures);
    PhyEvents {
        signatures,
        ..events
    }
}

/// Log 11h without its checksum: both counters, of a word each.
pub(crate) fn events_page(events: PhyEvents) -> [u8; 512]
    ensures { result ≡ events_page events }
{
    let mut page = [0; 512];
    put_word(&mut page, 2, 0x1001);
    put_word(&mut page, 3, events.icrc);
    put_word(&mut page, 4, 0x100A);
    put_word(&mut page, 5, events.signatures);
    page
}
