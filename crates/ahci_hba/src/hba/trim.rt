//! How the journal is handed out.

ghost use Rattle.std.specs.Prelude.{◌≡◌, IfOk, OnErr, OnOk};
ghost use Rattle.ncq_journal.specs.Laws.{AllFree};
ghost use Rattle.ahci_port.specs.{Faults.{Answers, trim_refusal}, PortView.{journal_in}, Steps.{GoesOn}};
ghost use Rattle.ahci_hba.specs.Trimming.{trimmed_hba};

use crate::hba::Hba;
use ahci_port::{Journal, TrimFault};
use sector_store::SectorStore;
use std::alloc::Allocator;

impl<A: Allocator + Copy, S: SectorStore> Hba<A, S> {
    /// Hands out the port's journal if the port has no request, as `Port::trim` does: the image becomes the port's starting image, and the
    /// next entry has the number that it would have had. Nothing else changes, so a driver can't notice. A command that is read and not
    /// sent, or an answer that is still to be written, doesn't prevent it.
    ///
    /// A caller can always come to such a port, however full a driver keeps its command list: it takes no more `send` steps. The commands
    /// that the port has end by `accept` and `serve`, or the driver drops them, and no other command takes their place. If an error halts
    /// the port first, nothing is sent and the journal doesn't grow; the driver's way back resets the port, which hands the journal out.
    ///
    /// # Errors
    /// `Busy` if the port has a request, so also if a failed command has halted it; `Spent` if the next number is over 2^63. Nothing has
    /// changed.
    pub fn trim(&mut self) -> Result<Journal<A>, TrimFault>
        ensures journal { IfOk result (λ j. j ≡ journal_in self.old.port) }
        ensures trimmed { OnOk result (self.new ≡ trimmed_hba self.old) }
        ensures free { OnOk result (AllFree self.old.port.past) }
        ensures goes_on { OnOk result (GoesOn self.old.port self.new.port) }
        ensures fault { Answers result (trim_refusal self.old.port) }
        ensures err { OnErr result (self.new ≡ self.old) }
    {
        self.port.trim()
    }
}
