//! How a command is taken from the command list (AHCI 1.3.1, section 5.3).

ghost use Rattle.std.specs.Prelude.{◌≡◌, ◌<◌, ◌≤◌, ◌+◌, ◌&&◌, false, true, IfErr, OnErr, OnOk};
ghost use Rattle.std.specs.List.{list_any};
ghost use Rattle.hba_command.specs.declared.task.Task.{Task};
ghost use Rattle.ahci_hba.specs.Queueing.{comes_under_queued, command_at, fetching, has_alone, has_queued, distance, distance_of, is_alone, is_failed, is_idle, is_listening, is_off};
ghost use Rattle.ahci_hba.specs.Outlook.{IsNearest, Reaches, comes_behind, is_within, nearer};
ghost use Rattle.ahci_hba.specs.Queueing.{is_overtaken, is_ready, is_running, is_sent, may_fetch, waits};

use crate::command::{Command, Listed};
use crate::dma_state::DmaState;
use crate::fault::HbaFault;
use crate::hba::{Hba, SLOTS};
use hba_command::{Action, Task, action_of};
use hba_memory::Fetch;
use hba_regs::{Slot, SoftReset};
use sector_store::SectorStore;
use std::alloc::Allocator;
use word_bits::is_set;

/// Whether a command is not queued, so that the device is busy with it alone.
pub(super) fn is_alone(task: &Task) -> bool
    ensures { result ≡ is_alone task.now }
{
    match &action_of(task) {
        Action::Queue(_) => false,
        Action::Sectors { .. } | Action::Page(_, _) | Action::Flush(_) | Action::Reply(_) => true,
        Action::Store(_, _) | Action::Control { .. } | Action::Abort => true,
    }
}

/// Whether a slot has a command that is with the port.
pub(super) fn is_sent<A: Allocator>(slot: &Option<Listed<A>>) -> bool
    ensures { result ≡ is_sent slot.now }
{
    match slot {
        Some(slot) => matches!(&slot.command, Command::Sent(_, _)),
        None => false,
    }
}

/// Whether a slot has a queued command.
pub(super) fn has_queued<A: Allocator>(slot: &Option<Listed<A>>) -> bool
    ensures { result ≡ has_queued slot.now }
{
    match slot {
        Some(slot) => match &slot.command {
            Command::Fetched(task, _, _) => !is_alone(task),
            Command::Sent(task, _) => !is_alone(task),
        },
        None => false,
    }
}

/// Whether a slot has a command that is not queued.
fn has_alone<A: Allocator>(slot: &Option<Listed<A>>) -> bool
    ensures { result ≡ has_alone slot.now }
{
    match slot {
        Some(slot) => match &slot.command {
            Command::Fetched(task, _, _) => is_alone(task),
            Command::Sent(task, _) => is_alone(task),
        },
        None => false,
    }
}

/// Whether there is no software reset.
pub(super) fn is_off(soft: SoftReset) -> bool
    ensures { result ≡ is_off soft }
{
    matches!(soft, SoftReset::Off)
}

/// How many slots behind the one with the highest priority a slot is, in a command list of so many.
#[tactic(auto, unfolding(crate::specs::Queueing::distance))]
fn distance(ncs: u8, first: u8, slot: u8) -> u32
    requires { 1 ≤ ncs }
    ensures { result ≡ distance ncs first slot }
{
    let ncs = u32::from(ncs);
    (u32::from(slot) + ncs).saturating_sub(u32::from(first)) % ncs
}

/// The smaller of two distances, of which the first need not be there.
fn nearer(nearest: Option<u32>, distance: u32) -> u32
    ensures { result ≡ nearer nearest distance }
{
    match nearest {
        None => distance,
        Some(nearest) => nearest.min(distance),
    }
}

/// Whether a slot at a distance comes behind the nearest one, if there is one.
fn comes_behind(nearest: Option<u32>, distance: u32) -> bool
    ensures { result ≡ comes_behind nearest distance }
{
    match nearest {
        None => false,
        Some(nearest) => nearest < distance,
    }
}

impl<A: Allocator, S: SectorStore> Hba<A, S> {
    /// Whether the port processes its command list: ST is 1, nothing has failed, and the link is up.
    pub(super) fn is_running(&self) -> bool
        ensures { result ≡ is_running self.now.registers.port }
    {
        self.registers.is_started() && !self.registers.is_halted() && self.registers.link_is_up()
    }

    /// Whether nothing is read or written just now.
    pub(super) fn is_idle(&self) -> bool
        ensures { result ≡ is_idle self.now.dma }
    {
        matches!(&self.dma, DmaState::Idle)
    }

    /// Whether a step may be taken with the command list: it is processed, and nothing is read or written just now.
    pub(super) fn is_listening(&self) -> bool
        ensures { result ≡ is_listening self.now }
    {
        self.is_running() && self.is_idle()
    }

    /// Whether the device may move: its FISes are accepted, it isn't held in a software reset, and it isn't in Sleep.
    pub(super) fn is_ready(&self) -> bool
        ensures { result ≡ is_ready self.now }
    {
        self.is_listening()
            && self.registers.is_receiving()
            && is_off(self.registers.soft_reset())
            && self.is_awake()
    }

    /// Whether the command of the slot of a number waits to be issued.
    fn waits(&self, slot: u8) -> bool
        requires { slot < 32 }
        ensures { result ≡ waits self.now slot }
    {
        is_set(self.registers.ci(), slot) && self.slots[usize::from(slot)].is_none()
    }

    /// How many slots behind the one with the highest priority the slot of a number is.
    fn distance(&self, slot: u8) -> u32
        ensures { result ≡ distance_of self.now.registers.port slot }
    {
        let capabilities = self.registers.capabilities();
        distance(capabilities.ncs(), self.registers.first_slot(), slot)
    }

    /// How many slots behind the one with the highest priority the nearest slot is that waits, of those below a slot and this one.
    fn nearest_with(&self, nearest: Option<u32>, slot: u8) -> Option<u32>
        requires low { slot < 32 }
        requires below { IsNearest self.now slot nearest }
        ensures { IsNearest self.now (slot + 1) result }
    {
        if self.waits(slot) {
            Some(nearer(nearest, self.distance(slot)))
        } else {
            nearest
        }
    }

    /// How many slots behind the one with the highest priority the nearest slot is that waits; nothing if none does.
    fn nearest_waiting(&self) -> Option<u32>
        ensures { IsNearest self.now 32 result }
    {
        let mut nearest = None;
        for slot in 0..SLOTS as u8 {
            nearest = self.nearest_with(nearest, slot);
        }
        nearest
    }

    /// Whether another slot that waits has a higher priority than a slot.
    fn is_overtaken(&self, slot: Slot) -> bool
        ensures { result ≡ is_overtaken self.now slot }
    {
        comes_behind(self.nearest_waiting(), self.distance(slot.number()))
    }

    /// How many slots behind the one with the highest priority a slot may be whose command is read now; nothing if no command may be read. None that waits
    /// is nearer.
    pub(super) fn reach(&self) -> Option<u32>
        requires listening { is_listening self.now ≡ true }
        ensures { Reaches self.now result }
    {
        if !self.registers.is_free() {
            return None;
        }
        if self.registers.ci() == 0 {
            return None;
        }
        let Some(nearest) = self.nearest_waiting() else {
            return None;
        };
        if self.is_busy_alone() {
            return None;
        }
        Some(nearest)
    }

    /// Whether the slot of a number waits, and is no farther behind the one with the highest priority than this.
    pub(super) fn waits_within(&self, slot: u8, reach: Option<u32>) -> bool
        requires { slot < 32 }
        ensures { result ≡ (waits self.now slot && is_within reach (distance_of self.now.registers.port slot)) }
    {
        match reach {
            None => false,
            Some(reach) => self.waits(slot) && self.distance(slot) <= reach,
        }
    }

    /// Whether the device is busy with a command that is not queued.
    pub(super) fn is_busy_alone(&self) -> bool
        ensures { result ≡ list_any has_alone self.now.slots }
    {
        self.slots.iter().any(|slot| has_alone(slot))
    }

    /// Whether some slot has a queued command.
    pub(super) fn is_queueing(&self) -> bool
        ensures { result ≡ list_any has_queued self.now.slots }
    {
        self.slots.iter().any(|slot| has_queued(slot))
    }

    /// Whether the device aborts each command but one that reads log 10h: a queued command has failed, or one that is not queued came while queued ones
    /// were outstanding.
    pub(super) fn is_failed(&self) -> bool
        ensures { result ≡ is_failed self.now }
    {
        self.port.halted() || self.device.collision.is_some()
    }

    /// Whether the command of a slot is not queued, and comes while queued ones are outstanding.
    pub(super) fn comes_under_queued(&self, slot: Slot) -> bool
        ensures { result ≡ comes_under_queued self.now slot }
    {
        self.has_alone(slot) && (self.is_queueing() && !self.is_failed())
    }

    /// Whether the command of a slot is with the port.
    pub(super) fn is_sent(&self, slot: Slot) -> bool
        ensures { result ≡ is_sent (command_at self.now slot) }
    {
        is_sent(&self.slots[slot.index()])
    }

    /// Whether the command of a slot is not queued.
    pub(super) fn has_alone(&self, slot: Slot) -> bool
        ensures { result ≡ has_alone (command_at self.now slot) }
    {
        has_alone(&self.slots[slot.index()])
    }

    /// Whether the command of a slot may be read now: the port processes commands, nothing is read or written just now, BSY and
    /// DRQ are 0, the slot's bit of PxCI is set, no slot of a higher priority waits (AHCI 1.3.1, section 3.3.7, CCS), and the device is
    /// not busy with a command that is not queued.
    pub fn may_fetch(&self, slot: Slot) -> bool
        ensures { result ≡ may_fetch self.now slot }
    {
        self.is_listening()
            && self.registers.is_free()
            && self.waits(slot.number())
            && !self.is_overtaken(slot)
            && !self.is_busy_alone()
    }

    /// Begins to read the command of a slot, which CCS names then: its header comes first.
    ///
    /// # Errors
    /// `NotReady` exactly if `may_fetch` is false.
    pub fn fetch(&mut self, slot: Slot) -> Result<(), HbaFault>
        ensures ok { OnOk result ((may_fetch self.old slot ≡ true) × (self.new ≡ fetching self.old slot)) }
        ensures err { OnErr result ((may_fetch self.old slot ≡ false) × (self.new ≡ self.old)) }
        ensures fault { IfErr result (λ e. e ≡ HbaFault.NotReady) }
    {
        if !self.may_fetch(slot) {
            return Err(HbaFault::NotReady);
        }
        let place = self
            .registers
            .list_base()
            .wrapping_add(32 * u64::from(slot.number()));
        self.registers.select(slot);
        self.turn_to(DmaState::Fetching(slot, Fetch::new(place)));
        Ok(())
    }
}
