//! The disk's power mode (ACS-3, "Power Management feature set").

ghost use Rattle.std.specs.Prelude.{◌≡◌};
ghost use Rattle.hba_command.specs.Power.{is_awake};
ghost use Rattle.ahci_hba.specs.Powering.{awake, in_mode, power_after, turned, woken_for};

use crate::hba::Hba;
use hba_command::{Action, Power, Reply, after_reply, after_reset, is_awake, needs_medium};
use hba_regs::Consequence;
use sector_store::SectorStore;
use std::alloc::Allocator;

/// The mode behind a driver's write.
fn power_after(consequence: Consequence, power: Power) -> Power
    ensures { result ≡ power_after consequence power }
{
    match consequence {
        Consequence::Nothing | Consequence::Stopped => power,
        Consequence::LinkReset | Consequence::Reset => after_reset(power),
    }
}

impl<A: Allocator, S: SectorStore> Hba<A, S> {
    /// The disk's power mode.
    pub fn power(&self) -> Power
        ensures { result ≡ self.now.power }
    {
        self.power
    }

    /// Whether the device answers commands: it isn't in Sleep.
    pub(super) fn is_awake(&self) -> bool
        ensures { result ≡ is_awake self.now.power }
    {
        is_awake(self.power)
    }

    /// The device goes to a power mode.
    fn enter(&mut self, power: Power)
        ensures { self.new ≡ in_mode self.old power }
    {
        self.power = power;
    }

    /// The medium is needed.
    pub(super) fn wake(&mut self)
        ensures { self.new ≡ awake self.old }
    {
        self.enter(Power::Active);
    }

    /// A command is carried out or fails, which may need the medium.
    pub(super) fn wake_for(&mut self, action: &Action)
        ensures { self.new ≡ woken_for action.now self.old }
    {
        if needs_medium(action) {
            self.wake();
        }
    }

    /// A command that moves nothing is answered.
    pub(super) fn turn_by(&mut self, reply: &Reply)
        ensures { self.new ≡ turned reply.now self.old }
    {
        self.enter(after_reply(reply, self.power));
    }

    /// A driver's write has this consequence, which may reset the device.
    pub(super) fn settle_power(&mut self, consequence: Consequence)
        ensures { self.new ≡ in_mode self.old (power_after consequence self.old.power) }
    {
        self.enter(power_after(consequence, self.power));
    }
}
