//! How DATA SET MANAGEMENT with TRIM makes sectors zeros, one range after the other (ACS-3, "DATA SET MANAGEMENT", "LBA Range Entry").

ghost use Rattle.std.specs.Prelude.{◌≡◌, ◌+◌, ◌≤◌, ◌||◌, not, false, true, None, IfErr, IfSome, OnErr, OnOk, slice_set};
ghost use Rattle.ahci_port.specs.{Faults.{zero_refusal}, PortView.{sectors_in}, Steps.{LacksRoom}};
ghost use Rattle.ahci_hba.specs.Executing.{is_aborted};
ghost use Rattle.ahci_hba.specs.Queueing.{command_at, list_in};
ghost use Rattle.ahci_hba.specs.Stepping.{is_answered, trim_range, zeroed_by};
ghost use Rattle.ahci_hba.specs.Storing.{content_in};
ghost use Rattle.ahci_hba.specs.Zeroing.{StoreMayLack, Stores, Zeroes, can_zero, makes_zeros, passing, zeroed_next};
ghost use Rattle.hba_command.specs.declared.action.Action.TheVariants.{Store as Keeps};

use crate::command::Command;
use crate::fault::HbaFault;
use crate::hba::Hba;
use ahci_port::{Port, ZeroFault};
use hba_command::{
    Action, Protocol, Store, TrimRange, action_of, first_range, leaves_disk, pass_first,
};
use hba_regs::Slot;
use sector_store::SectorStore;
use std::alloc::Allocator;

/// Whether a port makes sectors of its disk zeros: nothing has failed, and it has no request.
fn can_zero<A: Allocator, S: SectorStore>(port: &Port<A, S>) -> bool
    ensures { result ≡ can_zero port.now }
{
    port.plain_fault().is_none() && port.is_vacant()
}

impl<A: Allocator, S: SectorStore> Hba<A, S> {
    /// Whether the data of a command make sectors zeros, on a disk whose trimmed sectors read so.
    fn makes_zeros(&self, store: &Store) -> bool
        ensures { result ≡ makes_zeros self.now store.now }
    {
        match store {
            Store::Trim(_) => self.device.trim_zeros,
            Store::Buffer | Store::Log(_) => false,
        }
    }

    /// Whether the device takes the data of a command that it doesn't abort: the port makes sectors zeros, if the command does.
    pub(super) fn takes_data(&self, store: &Store) -> bool
        ensures { result ≡ (not (makes_zeros self.now store.now) || can_zero self.now.port) }
    {
        !self.makes_zeros(store) || can_zero(&self.port)
    }

    /// The sectors that the next step with the data of the command of a slot makes zeros.
    fn zeroed_next(&self, slot: Slot, store: &Store) -> Option<TrimRange>
        ensures value { result ≡ zeroed_next self.now store.now (content_in (command_at self.now slot)) }
        ensures kind { IfSome result (λ range. makes_zeros self.now store.now ≡ true) }
        ensures some { IfSome result (λ range. 1 ≤ range.sectors) }
        ensures inside { IfSome result (λ range. range.lba + range.sectors ≤ sectors_in self.now.port) }
    {
        if !self.makes_zeros(store) {
            return None;
        }
        let bytes = self.content_in(slot);
        if leaves_disk(self.port.sectors(), bytes) {
            return None;
        }
        first_range(bytes)
    }

    /// The sectors of an action, with the data of the command of a slot.
    fn zeroed_by(&self, slot: Slot, action: &Action) -> Option<TrimRange>
        ensures { result ≡ zeroed_by self.now action.now (content_in (command_at self.now slot)) }
    {
        match action {
            Action::Store(store, _) => self.zeroed_next(slot, store),
            Action::Queue(_) | Action::Sectors { .. } | Action::Page(_, _) | Action::Flush(_) => {
                None
            }
            Action::Reply(_) | Action::Control { .. } | Action::Abort => None,
        }
    }

    /// The sectors that the next step of the command of a slot makes zeros, if it is a TRIM that does so: 1 to 65,535 sectors of the disk.
    pub fn trim_range(&self, slot: Slot) -> Option<TrimRange>
        ensures { result ≡ trim_range self.now slot }
    {
        let action = action_of(&self.task_in(slot));
        if !self.may_execute(slot) || self.is_aborted(&action, self.is_queueing()) {
            return None;
        }
        self.zeroed_by(slot, &action)
    }

    /// The first range of a slot's data that names sectors is done.
    fn pass(&mut self, slot: Slot)
        ensures { self.new ≡ record self.old { slots = slice_set self.old.slots slot (passing (command_at self.old slot)) } }
    {
        if let Some(listed) = &mut self.slots[slot.index()] {
            if let Command::Fetched(_, _, bytes) = &mut listed.command {
                pass_first(bytes.as_mut_slice());
            }
        }
    }
}

impl<A: Allocator + Copy, S: SectorStore> Hba<A, S> {
    /// The port makes some sectors zeros for the command of a slot.
    fn zero(&mut self, slot: Slot, range: &TrimRange) -> Result<(), HbaFault>
        requires { zero_refusal self.old.port range.now.lba range.now.sectors ≡ None }
        ensures ok { OnOk result (Zeroes slot range.now self.old self.new) }
        ensures err { IfErr result (λ e. (e ≡ HbaFault.OutOfMemory) × (self.new ≡ self.old)) }
        ensures lacking { OnErr result (self.old.port.grows ≡ false → LacksRoom self.old.port) }
    {
        match self.port.zero(range.lba, range.sectors) {
            Ok(()) => {
                self.pass(slot);
                self.clear(range.lba, range.sectors);
                self.wake();
                Ok(())
            }
            Err(ZeroFault::OutOfMemory) => Err(HbaFault::OutOfMemory),
            Err(_) => unreachable!(), // the port takes it
        }
    }

    /// The device takes the data of the command of a slot: it makes the sectors of one range zeros, or it answers.
    pub(super) fn take_data(
        &mut self,
        slot: Slot,
        store: &Store,
        protocol: Protocol,
    ) -> Result<(), HbaFault>
        requires answered { is_answered self.old (Keeps store.now protocol) ≡ true }
        requires kept { is_aborted self.old (Keeps store.now protocol) ≡ false }
        ensures ok { OnOk result (Stores slot store.now protocol (list_in (command_at self.old slot)) self.old self.new) }
        ensures err { IfErr result (λ e. (e ≡ HbaFault.OutOfMemory) × (self.new ≡ self.old)) }
        ensures lacking { OnErr result (StoreMayLack self.old store.now) }
    {
        match self.zeroed_next(slot, store) {
            Some(range) => self.zero(slot, &range),
            None => self.store(slot, store, protocol),
        }
    }
}
