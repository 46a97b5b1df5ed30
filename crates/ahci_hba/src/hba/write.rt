//! What a driver's write does to the commands (AHCI 1.3.1, sections 3.3.7, 10.4.2 and 10.4.3).

ghost use Rattle.std.specs.{Prelude.{◌≡◌, None, length, not, replicate}, List.{list_any}};
ghost use Rattle.hba_regs.specs.Accessing.{write_of};
ghost use Rattle.ahci_hba.specs.Queueing.{is_sent};
ghost use Rattle.ahci_hba.specs.Dropping.{drops_requests, emptied, handed_out, is_reset, is_spent, journal_out, port_after, settled_work, written};

use crate::command::Listed;
use crate::dma_state::DmaState;
use crate::hba::Hba;
use crate::hba::fetch::is_sent;
use ahci_port::{Journal, Port};
use hba_regs::{AccessSize, Consequence};
use sector_store::SectorStore;
use std::alloc::Allocator;
use std::mem;

/// Empties every slot.
fn clear<A: Allocator>(slots: &mut [Option<Listed<A>>])
    ensures { slots.new ≡ replicate (length slots.old) None }
{
    for slot in 0..slots.len() {
        slots[slot] = None;
    }
}

impl<A: Allocator, S: SectorStore> Hba<A, S> {
    /// Whether the port has the command of some slot.
    fn has_sent(&self) -> bool
        ensures { result ≡ list_any is_sent self.now.slots }
    {
        self.slots.iter().any(|slot| is_sent(slot))
    }

    /// Whether a write's consequence drops requests of the port.
    fn drops_requests(&self, consequence: Consequence) -> bool
        ensures { result ≡ drops_requests consequence self.now }
    {
        match consequence {
            Consequence::Nothing => false,
            Consequence::Stopped => !self.port.halted() && self.has_sent(),
            Consequence::LinkReset | Consequence::Reset => self.port.halted() || self.has_sent(),
        }
    }

    /// Drops the FISes that are still to be written, if FRE is 0.
    fn settle_dma(&mut self)
        ensures { self.new ≡ settled_work self.old }
    {
        if self.registers.is_receiving() {
            return;
        }
        match mem::replace(&mut self.dma, DmaState::Idle) {
            DmaState::Block(mut writes, transfer) => {
                writes.drop_fises();
                self.block(writes, transfer);
            }
            DmaState::Writing(mut writes, ending) => {
                writes.drop_fises();
                self.answer(writes, ending);
            }
            other => self.dma = other,
        }
    }

    /// No command is left, and nothing is read or written any more.
    pub(super) fn empty(&mut self)
        ensures { self.new ≡ emptied self.old }
    {
        clear(self.slots.as_mut_slice());
        self.turn_to(DmaState::Idle);
    }
}

/// Resets a port, unless its numbers are used up; its journal is the answer.
pub(super) fn reset<A: Allocator + Copy, S: SectorStore>(
    port: &mut Port<A, S>,
) -> Option<Journal<A>>
    ensures journal { result ≡ handed_out (not (is_spent port.old)) port.old }
    ensures port { port.new ≡ port_after (not (is_spent port.old)) port.old }
{
    match port.reset() {
        Ok(journal) => Some(journal),
        Err(_) => None,
    }
}

impl<A: Allocator + Copy, S: SectorStore> Hba<A, S> {
    /// Resets the port if requests are dropped there.
    pub(super) fn reset_port(&mut self, consequence: Consequence) -> Option<Journal<A>>
        ensures journal { result ≡ handed_out (is_reset consequence self.old) self.old.port }
        ensures port { self.new ≡ record self.old { port = port_after (is_reset consequence self.old) self.old.port } }
    {
        if self.drops_requests(consequence) {
            return reset(&mut self.port);
        }
        None
    }

    /// Takes what a driver writes at an offset of the controller's registers, as `HbaRegs::write` has it. A write that clears ST, takes
    /// the link down or resets the HBA drops all commands: none of them changes a sector or the driver's memory any more. If the port has
    /// requests then, it is reset, and the journal that it hands out is the answer; it goes on by number.
    pub fn write(&mut self, offset: u32, size: AccessSize, value: u64) -> Option<Journal<A>>
        ensures state { self.new ≡ written self.old (write_of self.old.registers offset size value) }
        ensures journal { result ≡ journal_out self.old (write_of self.old.registers offset size value) }
    {
        let consequence = self.registers.write(offset, size, value);
        if let Consequence::Nothing = consequence {
            self.settle_dma();
            return None;
        }
        let journal = self.reset_port(consequence);
        self.settle_power(consequence);
        self.settle_device(consequence);
        self.empty();
        journal
    }
}
