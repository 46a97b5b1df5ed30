//! All that one command did to a port.

ghost use Rattle.std.specs.Prelude.{◌≡◌, IfOk, Option};
ghost use Rattle.std.specs.Option.{option_copied};
ghost use Rattle.ahci_port.specs.PortView.{PortView};
ghost use Rattle.ahci_trace.specs.Mark.{mark_of};
ghost use Rattle.ahci_trace.specs.Trace.{nothing_told, told, told_between, told_of};

use crate::appended::{Appended, new_entries, newest};
use crate::change::{Change, changes};
use crate::mark::Mark;
use crate::owned::{OwnedSlot, owned_slots};
use crate::received::{Received, nothing_received, received_by};
use crate::register_write::{RegisterWrite, writes_by};
use crate::sent::{SentCommand, sent_by};
use crate::served::served;
use ahci_port::Port;
use sata_fis::Queued;
use std::alloc::{AllocError, Allocator, Global};

/// What one command did to a port.
#[derive(Drop)]
#[derive_where(Debug)]
pub struct CommandTrace<A: Allocator = Global> {
    /// The journal's new entries, the oldest first.
    pub entries: Vec<Appended, A>,
    /// What software has written to the registers, one after the other.
    pub writes: Vec<RegisterWrite, A>,
    /// The command that was sent to the device.
    pub sent: Option<SentCommand<A>>,
    /// The commands whose data have moved, in the order in which they were served.
    pub served: Vec<Queued, A>,
    /// The other FISes that came, and the last DMA Setup FIS.
    pub received: Received,
    /// The registers that changed, in the order of their offsets.
    pub changes: Vec<Change, A>,
    /// The slots that are owned now, rising.
    pub slots: Vec<OwnedSlot, A>,
}

impl<A: Allocator + Copy> CommandTrace<A> {
    /// What there is to report before the disk: nothing.
    fn nothing(alloc: A) -> Self
        ensures { told result ≡ nothing_told }
    {
        CommandTrace {
            entries: Vec::new(alloc),
            writes: Vec::new(alloc),
            sent: None,
            served: Vec::new(alloc),
            received: nothing_received(),
            changes: Vec::new(alloc),
            slots: Vec::new(alloc),
        }
    }

    /// What a command did that found the port of the mark, and has left this one; nothing before the disk.
    pub(crate) fn between(alloc: A, mark: &Mark, port: Option<&Port<A>>) -> Result<Self, AllocError>
        ensures { IfOk result (λ trace. (before : Option PortView) → mark.now ≡ mark_of before
            → told trace ≡ told_between before (option_copied port.entry)) }
    {
        match port {
            None => Ok(Self::nothing(alloc)),
            Some(port) => Self::of(alloc, mark, port),
        }
    }

    /// What has been done to a port since the mark was made, by one command. The port's public calls alone are asked, and of
    /// the journal the new entries alone are looked at.
    ///
    /// # Errors
    /// Where a growth was refused.
    pub fn of<B: Allocator>(alloc: A, mark: &Mark, port: &Port<B>) -> Result<Self, AllocError>
        ensures { IfOk result (λ trace. told trace ≡ told_of mark.now port.now) }
    {
        let journal = port.journal();
        let newest = newest(mark, journal);
        let entries = new_entries(alloc, mark, journal)?;
        let served = served(alloc, &entries, port)?;
        Ok(CommandTrace {
            entries,
            writes: writes_by(alloc, newest)?,
            sent: sent_by(alloc, newest, port)?,
            served,
            received: received_by(newest, port),
            changes: changes(alloc, mark, port)?,
            slots: owned_slots(alloc, port)?,
        })
    }
}
