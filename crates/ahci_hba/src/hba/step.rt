//! Which step the device can take next with the command of a slot, and that step.

ghost use Rattle.std.specs.Prelude.{◌≡◌, ◌<◌, ℕ, true, false, None, IfErr, IfOk, IsSomeAnd, is_some, slice_index_or};
ghost use Rattle.hba_command.specs.Action.{action_of};
ghost use Rattle.ahci_hba.specs.Outlook.{IsOutlook, delivering, step_in};
ghost use Rattle.ahci_hba.specs.Queueing.{command_at, is_fetched, is_listening, is_sent, task_in};
ghost use Rattle.ahci_hba.specs.Stepping.{IsTaken, StepMayLack, delivers_for, delivery, fault_if, may_deliver, next_step};
ghost use Rattle.ahci_hba.specs.Storing.{content_in};

use crate::command::Command;
use crate::dma_state::DmaState;
use crate::fault::HbaFault;
use crate::hba::reset::control_of;
use crate::hba::{Hba, SLOTS};
use crate::outlook::Outlook;
use crate::step::Step;
use ahci_port::{Journal, Phase};
use hba_command::{Action, action_of};
use hba_regs::Slot;
use sector_store::SectorStore;
use std::alloc::Allocator;

/// The next step with a command that is with the port, by its phase, while nothing has failed.
fn step_in(phase: Phase) -> Option<Step>
    ensures { result ≡ step_in phase }
{
    match phase {
        Phase::Issued => Some(Step::Accept),
        Phase::Accepted => Some(Step::Serve),
        Phase::Free | Phase::Rejected | Phase::Broken | Phase::Held | Phase::Done => None,
    }
}

impl<A: Allocator, S: SectorStore> Hba<A, S> {
    /// Whether the port has done the command of a slot, and its answer is to be put together; or the next block of its transfer by PIO.
    fn delivers_for(&self, slot: Slot) -> bool
        ensures { result ≡ delivers_for self.now.dma slot }
    {
        match &self.dma {
            DmaState::Served(served, _, _, _) => *served == slot,
            DmaState::Pio(transfer) => transfer.slot() == slot,
            DmaState::Idle
            | DmaState::Fetching(_, _)
            | DmaState::Block(_, _)
            | DmaState::Writing(_, _) => false,
        }
    }

    /// The slot that the port has done a command for, or whose transfer by PIO goes on.
    fn delivering(&self) -> Option<Slot>
        ensures { result ≡ delivering self.now.dma }
    {
        match &self.dma {
            DmaState::Served(served, _, _, _) => Some(*served),
            DmaState::Pio(transfer) => Some(transfer.slot()),
            DmaState::Idle
            | DmaState::Fetching(_, _)
            | DmaState::Block(_, _)
            | DmaState::Writing(_, _) => None,
        }
    }

    /// Whether the answer to the command of a slot, or its next block, can be put together now: the device may send FISes, since the port
    /// processes commands and FRE is 1.
    pub fn may_deliver(&self, slot: Slot) -> bool
        ensures { result ≡ may_deliver self.now slot }
    {
        self.is_running() && self.registers.is_receiving() && self.delivers_for(slot)
    }

    /// The step with what the port has done for a slot.
    fn delivery(&self, slot: Slot) -> Option<Step>
        ensures { result ≡ delivery self.now slot }
    {
        if self.may_deliver(slot) {
            Some(Step::Deliver)
        } else {
            None
        }
    }

    /// What the next steps of all slots have in common.
    fn outlook(&self) -> Outlook
        requires listening { is_listening self.now ≡ true }
        ensures { IsOutlook self.now result }
    {
        Outlook {
            ready: self.is_ready(),
            queueing: self.is_queueing(),
            reach: self.reach(),
        }
    }

    /// The next step with a slot that has no command: one may be read.
    fn empty_step(&self, slot: Slot, outlook: &Outlook) -> Option<Step>
        requires outlook { IsOutlook self.now outlook.now }
        requires empty { command_at self.now slot ≡ None }
        ensures { result ≡ next_step self.now slot }
    {
        if self.waits_within(slot.number(), outlook.reach) {
            Some(Step::Fetch)
        } else {
            None
        }
    }

    /// The next step with a command that was read for a slot, with the bytes of a write.
    fn fetched_step(
        &self,
        slot: Slot,
        action: &Action,
        bytes: &[u8],
        outlook: &Outlook,
    ) -> Option<Step>
        requires outlook { IsOutlook self.now outlook.now }
        requires fetched { is_fetched (command_at self.now slot) ≡ true }
        requires action { action.now ≡ action_of (task_in (command_at self.now slot)) }
        requires bytes { bytes.now ≡ content_in (command_at self.now slot) }
        ensures { result ≡ next_step self.now slot }
    {
        if control_of(action).is_some() {
            return Some(Step::Control);
        }
        if !outlook.ready {
            return None;
        }
        if self.is_answered(action, outlook.queueing) {
            Some(Step::Execute)
        } else if self.recovers_by(action, outlook.queueing) {
            Some(Step::Recover)
        } else if self.is_taken_by_port(slot, action, bytes, outlook.queueing) {
            Some(Step::Send)
        } else {
            None
        }
    }

    /// The next step with a command that is with the port.
    fn sent_step(&self, slot: Slot, outlook: &Outlook) -> Option<Step>
        requires outlook { IsOutlook self.now outlook.now }
        requires sent { is_sent (command_at self.now slot) ≡ true }
        ensures { result ≡ next_step self.now slot }
    {
        if !outlook.ready {
            return None;
        }
        if self.port.halted() {
            return None;
        }
        step_in(self.port.phase(slot.number()))
    }

    /// The next step with the command of a slot, while the controller listens to its command list.
    fn listening_step(&self, slot: Slot, outlook: &Outlook) -> Option<Step>
        requires outlook { IsOutlook self.now outlook.now }
        ensures { result ≡ next_step self.now slot }
    {
        match &self.slots[slot.index()] {
            None => self.empty_step(slot, outlook),
            Some(listed) => match &listed.command {
                Command::Fetched(task, _, bytes) => {
                    self.fetched_step(slot, &action_of(task), bytes, outlook)
                }
                Command::Sent(_, _) => self.sent_step(slot, outlook),
            },
        }
    }

    /// The next step that the device can take with the command of a slot; which slot comes first is the caller's choice. A command
    /// that may be served may also be failed, and one that is executed, refused.
    pub fn next(&self, slot: Slot) -> Option<Step>
        ensures { result ≡ next_step self.now slot }
    {
        if !self.is_listening() {
            return self.delivery(slot);
        }
        let outlook = self.outlook();
        self.listening_step(slot, &outlook)
    }

    /// By slot, the next step with its command, while the controller listens to its command list.
    fn listening_steps(&self) -> [Option<Step>; 32]
        requires listening { is_listening self.now ≡ true }
        ensures { (slot : ℕ) → slot < 32 → slice_index_or result slot None ≡ next_step self.now slot }
    {
        let outlook = self.outlook();
        let mut steps = [None; 32];
        for number in 0..SLOTS {
            let Some(slot) = Slot::of(number) else {
                unreachable!() // there are 32
            };
            steps[slot.index()] = self.listening_step(slot, &outlook);
        }
        steps
    }

    /// By slot, the next step with its command, while the controller doesn't listen to its command list: of one slot at most an answer or the next block
    /// is put together.
    fn deliveries(&self) -> [Option<Step>; 32]
        requires unheard { is_listening self.now ≡ false }
        ensures { (slot : ℕ) → slot < 32 → slice_index_or result slot None ≡ next_step self.now slot }
    {
        let Some(slot) = self.delivering() else {
            return [None; 32];
        };
        let mut steps = [None; 32];
        steps[slot.index()] = self.delivery(slot);
        steps
    }

    /// By slot, the next step that the device can take with its command: that of `next`. What all slots have in common is looked at once.
    pub fn next_steps(&self) -> [Option<Step>; 32]
        ensures { (slot : ℕ) → slot < 32 → slice_index_or result slot None ≡ next_step self.now slot }
    {
        if self.is_listening() {
            self.listening_steps()
        } else {
            self.deliveries()
        }
    }
}

impl<A: Allocator + Copy, S: SectorStore> Hba<A, S> {
    /// Takes the next step with the command of a slot: that of `next`. The answer is the journal that is handed out if the step
    /// resets the port.
    ///
    /// # Errors
    /// `NotReady` exactly if `next` names no step; else `OutOfMemory` if the step allocates and an allocation failed, and it can be tried again. Nothing
    /// has changed.
    pub fn step(&mut self, slot: Slot) -> Result<Option<Journal<A>>, HbaFault>
        ensures ok { IfOk result (λ j. IsSomeAnd (next_step self.old slot) (λ s. IsTaken s slot self.old self.new j)) }
        ensures err { IfErr result (λ e. (e ≡ fault_if (is_some (next_step self.old slot))) × (self.new ≡ self.old)) }
        ensures lacking { IfErr result (λ e. e ≡ HbaFault.OutOfMemory → IsSomeAnd (next_step self.old slot) (λ s. StepMayLack s slot self.old)) }
    {
        let Some(step) = self.next(slot) else {
            return Err(HbaFault::NotReady);
        };
        match step {
            Step::Fetch => self.fetch(slot)?,
            Step::Send => self.send(slot)?,
            Step::Accept => self.accept(slot)?,
            Step::Serve => self.serve(slot)?,
            Step::Execute => self.execute(slot)?,
            Step::Deliver => self.deliver(slot)?,
            Step::Control => return self.control(slot),
            Step::Recover => return self.recover(slot),
        }
        Ok(None)
    }
}
