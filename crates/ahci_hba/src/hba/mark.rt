//! What the marks of WRITE UNCORRECTABLE EXT do to commands that move sectors, and what these do to them (ACS-3, "WRITE UNCORRECTABLE EXT").

ghost use Rattle.std.specs.Prelude.{◌≡◌, ◌<◌, ◌≤◌, ◌+◌, ◌^◌, false, true, None, IfErr, IfOk, IfSome, is_some};
ghost use Rattle.ahci_hba.specs.Executing.{can_mark, marked_by, marked_fis};
ghost use Rattle.ahci_hba.specs.Marking.{found_by, marked_for, marked_on, marks_after, marks_behind, marking};
ghost use Rattle.hba_command.specs.Uncorrectable.{marked_with, without};
ghost use Rattle.ahci_port.specs.PortView.{sectors_in};
ghost use Rattle.ahci_hba.specs.Stepping.{ServesTo, marked_at, may_serve, stop_for};

use crate::fault::HbaFault;
use crate::hba::Hba;
use crate::hba::execute::aborted;
use hba_command::{Action, Addressing, Reply, Span, action_of, reached};
use hba_regs::Slot;
use sata_fis::D2h;
use sector_store::SectorStore;
use std::alloc::Allocator;

/// The error of a sector that can't be read: UNC.
const UNC: u8 = 0x40;

impl<A: Allocator, S: SectorStore> Hba<A, S> {
    /// The first marked one of the sectors that the disk has and the command reaches, of so many from an LBA on.
    pub(super) fn marked_on(&self, addressing: Addressing, lba: u64, sectors: u32) -> Option<u64>
        ensures value { result ≡ marked_on self.now.port self.now.marks addressing lba sectors }
        ensures fits { IfSome result (λ m. m < 2 ^ 48) }
    {
        let there = reached(addressing, u64::from(self.port.sectors())).saturating_sub(lba);
        let sectors = u64::from(sectors).min(there) as u32;
        self.uncorrectable.first_marked(lba, sectors)
    }

    /// The same for a read; a write finds none.
    fn found_by(&self, write: bool, addressing: Addressing, lba: u64, sectors: u32) -> Option<u64>
        ensures value { result ≡ found_by write (marked_on self.now.port self.now.marks addressing lba sectors) }
        ensures fits { IfSome result (λ m. m < 2 ^ 48) }
    {
        if write {
            return None;
        }
        self.marked_on(addressing, lba, sectors)
    }

    /// The marked sector at which a command fails: of a read the first one.
    pub(super) fn marked_for(&self, action: &Action) -> Option<u64>
        ensures value { result ≡ marked_for self.now action.now }
        ensures fits { IfSome result (λ m. m < 2 ^ 48) }
    {
        match action {
            Action::Queue(queued) => {
                self.found_by(queued.write, Addressing::Bits48, queued.lba, queued.sectors)
            }
            Action::Sectors { write, span, .. } => {
                self.found_by(*write, span.addressing, span.lba, span.sectors)
            }
            Action::Page(_, _) | Action::Store(_, _) | Action::Flush(_) | Action::Reply(_) => None,
            Action::Control { .. } | Action::Abort => None,
        }
    }

    /// The marked sector at which a read of a slot fails.
    pub fn marked_at(&self, slot: Slot) -> Option<u64>
        ensures { result ≡ marked_at self.now slot }
    {
        self.marked_for(&action_of(&self.task_in(slot)))
    }

    /// No sector of some is marked any more.
    pub(super) fn clear(&mut self, lba: u64, sectors: u32)
        ensures { self.new ≡ marking self.old (without lba sectors self.old.marks) }
    {
        self.uncorrectable.clear(lba, sectors);
    }

    /// They have, if they were written.
    fn clear_by(&mut self, write: bool, lba: u64, sectors: u32)
        ensures { self.new ≡ marking self.old (marks_behind write lba sectors self.old.marks) }
    {
        if write {
            self.clear(lba, sectors);
        }
    }

    /// The sectors of a write are not marked any more.
    pub(super) fn clear_behind(&mut self, action: &Action)
        ensures { self.new ≡ marking self.old (marks_after action.now self.old.marks) }
    {
        match action {
            Action::Queue(queued) => self.clear_by(queued.write, queued.lba, queued.sectors),
            Action::Sectors { write, span, .. } => self.clear_by(*write, span.lba, span.sectors),
            Action::Page(_, _) | Action::Store(_, _) | Action::Flush(_) | Action::Reply(_) => {}
            Action::Control { .. } | Action::Abort => {}
        }
    }

    /// Whether WRITE UNCORRECTABLE EXT marks these sectors.
    fn can_mark(&self, span: &Span) -> bool
        ensures { result ≡ can_mark self.now span.now }
    {
        self.is_on(span) && self.uncorrectable.has_room(span.lba, span.sectors)
    }

    /// The answer to WRITE UNCORRECTABLE EXT.
    pub(super) fn marked_fis(&self, span: &Span) -> D2h
        ensures { result ≡ marked_fis self.now span.now }
    {
        if self.is_on(span) && !self.uncorrectable.has_room(span.lba, span.sectors) {
            return aborted();
        }
        self.found_all(span)
    }

    /// The sectors of a span are marked.
    fn mark(&mut self, span: &Span)
        requires { can_mark self.old span.now ≡ true }
        ensures { self.new ≡ marking self.old (marked_with span.now.lba span.now.sectors self.old.marks) }
    {
        self.uncorrectable.mark(span.lba, span.sectors);
    }

    /// A command that moves nothing is answered, and has marked sectors.
    pub(super) fn mark_by(&mut self, reply: &Reply)
        ensures { self.new ≡ marked_by reply.now self.old }
    {
        if let Reply::Marked(span) = reply {
            if self.can_mark(span) {
                self.mark(span);
            }
        }
    }
}

impl<A: Allocator + Copy, S: SectorStore> Hba<A, S> {
    /// The device fails a queued read that finds a marked sector, and answers whether it has.
    pub(super) fn fail_marked(&mut self, slot: Slot) -> Result<bool, HbaFault>
        requires taken { may_serve self.old slot ≡ true }
        ensures failed { IfOk result (λ b. b ≡ true → ServesTo (stop_for self.old slot (marked_at self.old slot)) slot self.old self.new) }
        ensures free { IfOk result (λ b. b ≡ false → stop_for self.old slot (marked_at self.old slot) ≡ None) }
        ensures same { IfOk result (λ b. b ≡ false → self.new ≡ self.old) }
        ensures err { IfErr result (λ e. (e ≡ HbaFault.OutOfMemory) × (self.new ≡ self.old)) }
        ensures lacking { IfErr result (λ e. is_some (marked_at self.old slot) ≡ true) }
    {
        let Some(lba) = self.marked_at(slot) else {
            return Ok(false);
        };
        match self.fail(slot, UNC, lba) {
            Ok(()) => Ok(true),
            Err(HbaFault::NotReady) => Ok(false), // its request has no such sector
            Err(HbaFault::OutOfMemory) => Err(HbaFault::OutOfMemory),
        }
    }
}
