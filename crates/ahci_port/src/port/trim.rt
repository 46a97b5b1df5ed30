//! How the journal is handed out.

ghost use Rattle.std.specs.Prelude.{◌≡◌, IfOk, OnErr, OnOk};
ghost use Rattle.ncq_journal.specs.Laws.{AllFree};
ghost use Rattle.ahci_port.specs.{Faults.{Answers, is_vacant, trim_refusal}, PortView.{journal_in}, Steps.{GoesOn, trimmed}};

use crate::fault::TrimFault;
use crate::port::{MOST_FIRST, Port};
use crate::slot::is_any_owned;
use ncq_journal::Journal;
use sector_store::SectorStore;
use std::alloc::Allocator;

impl<A: Allocator + Copy, S: SectorStore> Port<A, S> {
    /// Hands the journal out where every slot is free. The image becomes the starting image, as the store keeps it, and the port
    /// goes on with an empty journal, whose first entry has the number that the next one would have had. Registers, received
    /// FIS area and disk stay. It takes no memory: the journal's own goes out with it, so the next call that appends an entry of
    /// its own asks for more.
    ///
    /// # Errors
    /// `Busy` where some slot is not free, so also where the port is halted; `Spent` where the next number is over 2^63.
    pub fn trim(&mut self) -> Result<Journal<A>, TrimFault>
        ensures journal { IfOk result (λ j. j ≡ journal_in self.old) }
        ensures trimmed { OnOk result (self.new ≡ trimmed self.old) }
        ensures free { OnOk result (AllFree self.old.past) }
        ensures goes_on { OnOk result (GoesOn self.old self.new) }
        ensures fault { Answers result (trim_refusal self.old) }
        ensures err { OnErr result (self.new ≡ self.old) }
    {
        if let Some(fault) = self.trim_fault() {
            return Err(fault);
        }
        self.disk.keep();
        Ok(self.journal.hand_out())
    }
}

impl<A: Allocator, S: SectorStore> Port<A, S> {
    /// Why the journal is not handed out.
    fn trim_fault(&self) -> Option<TrimFault>
        ensures { result ≡ trim_refusal self.now }
    {
        if !self.is_vacant() {
            return Some(TrimFault::Busy);
        }
        if self.journal.end() > MOST_FIRST {
            return Some(TrimFault::Spent);
        }
        None
    }

    /// Whether no slot has a request.
    pub fn is_vacant(&self) -> bool
        ensures { result ≡ is_vacant self.now }
    {
        !is_any_owned(&self.slots)
    }
}
