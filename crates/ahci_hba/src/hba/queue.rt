//! What the device does with a queued command: it takes it, serves it or fails it (AHCI 1.3.1, section 5.3; Serial ATA, "First-party DMA").

ghost use Rattle.std.specs.Prelude.{◌≡◌, ◌<◌, false, true, None, IfErr, OnOk, is_some, slice_set};
ghost use Rattle.ncq_journal.specs.{Phase.{phase}, Request.{request}};
ghost use Rattle.ahci_port.specs.Faults.{is_of_request};
ghost use Rattle.ahci_table.specs.Fit.{IsFit};
ghost use Rattle.ahci_hba.specs.Queueing.{IsAccepted, IsServed, accepting, after_acceptance, command_at, handed_over, has_alone, has_queued, is_taken, list_in, task_in};
ghost use Rattle.ahci_hba.specs.Failing.{Fails, FailsRequest, own_in};
ghost use Rattle.ahci_hba.specs.Stepping.{RefusesFor, Serves, fault_if, is_taken_up, is_waiting, marked_at, may_accept, may_fail, may_serve};

use crate::command::Command;
use crate::dma_state::DmaState;
use crate::ending::Ending;
use crate::fault::HbaFault;
use crate::hba::Hba;
use crate::hba::answer::REGISTER;
use crate::hba::fail::{fails_at, own_queued};
use crate::last_fis::LastFis;
use ahci_port::{DeviceStep, Phase, Stepped, Window};
use hba_command::{PrdEntry, Task, action_of};
use hba_regs::Slot;
use sector_store::SectorStore;
use std::alloc::Allocator;

/// What the answer to an acceptance says to the registers.
fn accepting(slot: Slot, stepped: Stepped) -> LastFis
    ensures { result ≡ accepting slot stepped }
{
    match stepped {
        Stepped::Accepted(_) => LastFis::Register {
            status: 0x40,
            error: 0,
            interrupt: false,
            slot,
        },
        _ => LastFis::Register {
            status: 0x41,
            error: 0x10, // IDNF
            interrupt: true,
            slot,
        },
    }
}

/// Whether the device has taken the command.
fn is_taken(stepped: Stepped) -> bool
    ensures { result ≡ is_taken stepped }
{
    matches!(stepped, Stepped::Accepted(_))
}

impl<A: Allocator, S: SectorStore> Hba<A, S> {
    /// Whether the command of a slot is with the port and waits for the device; after a failure none does.
    fn is_waiting(&self, slot: Slot) -> bool
        ensures { result ≡ is_waiting self.now slot }
    {
        self.is_sent(slot)
            && !self.port.halted()
            && matches!(self.port.phase(slot.number()), Phase::Issued)
    }

    /// Whether the device has taken the command of a slot; after a failure it has none.
    fn is_taken_up(&self, slot: Slot) -> bool
        ensures { result ≡ is_taken_up self.now slot }
    {
        self.is_sent(slot)
            && !self.port.halted()
            && matches!(self.port.phase(slot.number()), Phase::Accepted)
    }

    /// Whether the device can take the command of a slot: it is with the port and waits for the device, and the device may move.
    pub fn may_accept(&self, slot: Slot) -> bool
        ensures { result ≡ may_accept self.now slot }
    {
        self.is_ready() && self.is_waiting(slot)
    }

    /// Whether the device can serve the command of a slot: it has taken it, and may move.
    pub fn may_serve(&self, slot: Slot) -> bool
        ensures { result ≡ may_serve self.now slot }
    {
        self.is_ready() && self.is_taken_up(slot)
    }
}

impl<A: Allocator + Copy, S: SectorStore> Hba<A, S> {
    /// Takes the command out of a slot, and leaves it empty; what it asks and its PRDT are the answer.
    pub(super) fn take_command(&mut self, slot: Slot) -> (Task, Vec<PrdEntry, A>)
        ensures task { result.0 ≡ task_in (command_at self.old slot) }
        ensures list { result.1.items ≡ list_in (command_at self.old slot) }
        ensures slots { self.new ≡ record self.old { slots = slice_set self.old.slots slot None } }
    {
        match self.slots[slot.index()].take() {
            Some(taken) => match taken.command {
                Command::Fetched(task, list, _) => (task, list),
                Command::Sent(task, list) => (task, list),
            },
            None => (Task::Unknown, Vec::new(self.alloc)),
        }
    }

    /// The device moves the data of the command of a slot and completes it; its answer is taken from the port. It is kept
    /// in the controller until `deliver` puts it together. A queued read that finds a sector marked by WRITE UNCORRECTABLE EXT fails there, as by `fail` with
    /// UNC; nothing else is allocated for.
    ///
    /// # Errors
    /// `NotReady` exactly if `may_serve` is false; else `OutOfMemory` if a read finds a marked sector and an allocation failed, and it can be tried again.
    /// Nothing has changed.
    pub fn serve(&mut self, slot: Slot) -> Result<(), HbaFault>
        ensures ready { OnOk result (may_serve self.old slot ≡ true) }
        ensures ok { OnOk result (Serves slot self.old self.new) }
        ensures err { IfErr result (λ e. (e ≡ fault_if (may_serve self.old slot)) × (self.new ≡ self.old)) }
        ensures lacking { IfErr result (λ e. e ≡ HbaFault.OutOfMemory → is_some (marked_at self.old slot) ≡ true) }
    {
        if !self.may_serve(slot) {
            return Err(HbaFault::NotReady);
        }
        if self.fail_marked(slot)? {
            return Ok(());
        }
        self.complete(slot);
        Ok(())
    }

    /// The answer to the command of a slot, in this window, waits to be put together; what it has written is not marked any more.
    fn hand_over(&mut self, slot: Slot, window: Window<A>)
        requires { IsFit window }
        ensures { self.new ≡ handed_over self.old slot window }
    {
        let (task, list) = self.take_command(slot);
        self.clear_behind(&action_of(&task));
        self.turn_to(DmaState::Served(slot, task, window, list));
    }

    /// The device moves the data of the command of a slot, which it may serve, and completes it.
    fn complete(&mut self, slot: Slot)
        requires taken { may_serve self.old slot ≡ true }
        ensures { IsServed slot (task_in (command_at self.old slot)) (list_in (command_at self.old slot)) self.old self.new }
    {
        self.port.keeps_its_promise();
        let tag = slot.number();
        let Some(number) = self.port.owner(tag) else {
            unreachable!() // an accepted command has a request
        };
        let Ok(_) = self.port.step(DeviceStep::serve_one(tag)) else {
            unreachable!() // the device has taken it
        };
        let Ok((_, window)) = self.port.collect(tag, number) else {
            unreachable!() // it is done
        };
        self.hand_over(slot, window);
    }

    /// The device takes the command of a slot, or refuses it if it passes the last sector, and is Active then. Of a queued one a D2H Register FIS
    /// is written, and then PxCI loses the slot, or the port halts.
    ///
    /// # Errors
    /// `NotReady` exactly if `may_accept` is false.
    pub fn accept(&mut self, slot: Slot) -> Result<(), HbaFault>
        ensures ready { OnOk result (may_accept self.old slot ≡ true) }
        ensures ok { OnOk result (IsAccepted slot (has_alone (command_at self.old slot)) self.old self.new) }
        ensures err { IfErr result (λ e. (e ≡ HbaFault.NotReady) × (may_accept self.old slot ≡ false) × (self.new ≡ self.old)) }
    {
        if !self.may_accept(slot) {
            return Err(HbaFault::NotReady);
        }
        let alone = self.has_alone(slot);
        let tag = slot.number();
        let Ok(stepped) = self.port.step(DeviceStep::Accept(tag)) else {
            unreachable!() // it waits
        };
        self.answer_acceptance(slot, alone, stepped);
        self.wake();
        Ok(())
    }

    /// Answers the acceptance of a slot's command.
    fn answer_acceptance(&mut self, slot: Slot, alone: bool, stepped: Stepped)
        ensures { self.new ≡ after_acceptance slot alone self.old self.old.port stepped }
    {
        if alone && is_taken(stepped) {
            return;
        }
        let fis = self.fis_put(REGISTER, 20);
        let writes = self.only_after(fis);
        self.answer(writes, Ending::of(true, accepting(slot, stepped)));
    }

    /// The device fails the queued command of a slot that it has taken, with an error byte at one of its sectors: a Set Device Bits
    /// FIS is written, and then the port halts. A read has moved its sectors before that one; a write has changed none, and names its first one.
    ///
    /// # Errors
    /// `NotReady` only if `may_fail` is false; `OutOfMemory` if an allocation failed, and it can be tried again. Nothing has changed.
    pub fn fail(&mut self, slot: Slot, error: u8, lba: u64) -> Result<(), HbaFault>
        ensures ready { OnOk result (may_fail self.old slot lba ≡ true) }
        ensures ok { OnOk result (Fails slot error lba (own_in self.old slot lba) self.old self.new) }
        ensures err { IfErr result (λ e. RefusesFor e (may_fail self.old slot lba) × (self.new ≡ self.old)) }
    {
        if !self.may_serve(slot) {
            return Err(HbaFault::NotReady);
        }
        let Some(queued) = own_queued(&action_of(&self.task_in(slot)), lba) else {
            return Err(HbaFault::NotReady); // it is not queued, or the LBA is another one's
        };
        let (bytes, sectors) = self.moved_sectors(&queued, lba)?;
        let list = self.copy_list(slot)?;
        if !self.fail_request(slot, error, fails_at(&queued, lba)) {
            return Err(HbaFault::NotReady);
        }
        self.fail_queued(slot, &queued, list, bytes, sectors, error);
        Ok(())
    }

    /// Lets the port fail the request of a slot that the device has taken, at a sector. It is false if the request has no such sector, and
    /// nothing has changed.
    fn fail_request(&mut self, slot: Slot, error: u8, at: u64) -> bool
        requires taken { may_serve self.old slot ≡ true }
        ensures answer { result ≡ is_of_request (request self.old.port.past slot) at }
        ensures failed { result ≡ true → FailsRequest slot error at self.old self.new }
        ensures same { result ≡ false → self.new ≡ self.old }
    {
        let tag = slot.number();
        let step = DeviceStep::Fail { tag, error, at };
        let Ok(_) = self.port.step(step) else {
            return false; // it is no sector of the request
        };
        true
    }
}
