//! How the port is reset (AHCI 1.3.1, section 10.4; section 3.3.7, ST of PxCMD).

ghost use Rattle.std.specs.Prelude.{◌≡◌, ◌≤◌, length, replicate, IfOk, OnErr, OnOk};
ghost use Rattle.ahci_port.specs.{Faults.{Answers, reset_refusal}, PortView.{journal_in, next_number, port_over}, Registers.{started}, Steps.{Follows, KeepsCompleted}, Unqueued.{nothing_sent}};

use crate::fault::ResetFault;
use crate::port::{MOST_FIRST, Port, empty_area, no_headers};
use crate::slot::clear;
use crate::software::started;
use crate::unqueued::UnqueuedTable;
use ahci_regs::PortRegs;
use ncq_journal::Journal;
use sector_store::SectorStore;
use std::alloc::Allocator;

/// Starts the port again, over memory into which nothing has come: the received FIS area, the command list and slot 0's table.
fn begin_again(
    registers: &mut PortRegs,
    area: &mut [u8; 256],
    headers: &mut [[u8; 32]; 32],
    unqueued: &mut UnqueuedTable,
    depth: u32,
)
    requires low { 1 ≤ depth }
    requires high { depth ≤ 32 }
    ensures registers { registers.new ≡ started depth }
    ensures area { area.new ≡ replicate 256 0 }
    ensures headers { length headers.new ≡ 32 }
    ensures sent { unqueued.new.sent ≡ nothing_sent }
{
    *registers = started(depth);
    *area = empty_area();
    *headers = no_headers();
    *unqueued = UnqueuedTable::new();
}

impl<A: Allocator + Copy, S: SectorStore> Port<A, S> {
    /// Resets the port and its device, and starts it again: every request is dropped, whatever its phase, and the port is as a new
    /// one over the image as it is now. A command that was not completed has changed no sector. The journal is handed out, and the
    /// next entry has the number that it would have had, so no number of a dropped request comes again. It takes no memory: the
    /// store keeps the image in place, the memory of the dropped requests is freed, and the journal's goes out with it.
    ///
    /// # Errors
    /// `Spent` if the next number is over 2^63.
    pub fn reset(&mut self) -> Result<Journal<A>, ResetFault>
        ensures journal { IfOk result (λ j. j ≡ journal_in self.old) }
        ensures reset { OnOk result (self.new ≡ port_over self.old.grows (next_number self.old) self.old.image self.old.depth) }
        ensures dropped { OnOk result (KeepsCompleted self.old self.new) }
        ensures goes_on { OnOk result (Follows self.old self.new) }
        ensures fault { Answers result (reset_refusal self.old) }
        ensures err { OnErr result (self.new ≡ self.old) }
    {
        if let Some(fault) = self.reset_fault() {
            return Err(fault);
        }
        self.disk.reset();
        self.disk.keep();
        begin_again(
            &mut self.registers,
            &mut self.area,
            &mut self.headers,
            &mut self.unqueued,
            self.disk.depth(),
        );
        clear(&mut self.slots);
        Ok(self.journal.hand_out())
    }
}

impl<A: Allocator, S: SectorStore> Port<A, S> {
    /// Why the port is not reset.
    fn reset_fault(&self) -> Option<ResetFault>
        ensures { result ≡ reset_refusal self.now }
    {
        if self.journal.end() > MOST_FIRST {
            return Some(ResetFault::Spent);
        }
        None
    }
}
