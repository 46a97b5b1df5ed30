//! What the disk keeps between commands (ACS-3, "SET FEATURES", "SMART" and "IDENTIFY DEVICE").

ghost use Rattle.std.specs.Prelude.{◌≡◌};
ghost use Rattle.hba_command.specs.Device.{after_srst, power_cycled};
ghost use Rattle.ahci_hba.specs.Keeping.{cached, changed_by, device_after, device_ended, keeping, renamed, trim_turned};

use crate::hba::Hba;
use hba_command::{
    Device, Identity, Reply, after_ending, after_srst, device_after_reply, named, power_cycled,
    reset_device, with_cache, with_trim_zeros,
};
use hba_regs::{Consequence, Slot};
use sector_store::SectorStore;
use std::alloc::Allocator;

/// The disk behind a driver's write.
fn device_after(consequence: Consequence, device: &Device) -> Device
    ensures { result ≡ device_after consequence device.now }
{
    match consequence {
        Consequence::Nothing | Consequence::Stopped => *device,
        Consequence::LinkReset | Consequence::Reset => reset_device(device),
    }
}

impl<A: Allocator, S: SectorStore> Hba<A, S> {
    /// What the disk keeps between commands.
    pub fn device(&self) -> &Device
        ensures { result.now ≡ self.now.device }
    {
        &self.device
    }

    /// The disk keeps other things.
    pub(super) fn keep(&mut self, device: Device)
        ensures { self.new ≡ keeping self.old device }
    {
        self.device = device;
    }

    /// A command that moves nothing is answered.
    pub(super) fn change_by(&mut self, reply: &Reply)
        ensures { self.new ≡ changed_by reply.now self.old }
    {
        let device = device_after_reply(reply, &self.device);
        self.keep(device);
    }

    /// The disk behind the command of a slot, which has ended with this status and error.
    pub(super) fn device_ended(&self, slot: Slot, status: u8, error: u8) -> Device
        ensures { result ≡ device_ended self.now slot status error }
    {
        after_ending(&self.device, self.comes_under_queued(slot), status, error)
    }

    /// The disk's power comes on.
    pub(super) fn cycle_power(&mut self)
        ensures { self.new ≡ keeping self.old (power_cycled self.old.device) }
    {
        let device = power_cycled(&self.device);
        self.keep(device);
    }

    /// A driver's write has this consequence, which may reset the device.
    pub(super) fn settle_device(&mut self, consequence: Consequence)
        ensures { self.new ≡ keeping self.old (device_after consequence self.old.device) }
    {
        let device = device_after(consequence, &self.device);
        self.keep(device);
    }

    /// The device takes SRST 1.
    pub(super) fn settle_srst(&mut self)
        ensures { self.new ≡ keeping self.old (after_srst self.old.device) }
    {
        let device = after_srst(&self.device);
        self.keep(device);
    }

    /// The disk has a volatile write cache, which is enabled from now on, or it has none. A new controller's has none.
    pub fn set_cache(&mut self, has_cache: bool)
        ensures { self.new ≡ cached has_cache self.old }
    {
        let device = with_cache(&self.device, has_cache);
        self.keep(device);
    }

    /// Trimmed sectors read as zeros from now on, or DATA SET MANAGEMENT with TRIM is advice that changes no sector, as on a new disk. Word 69 and page 03h of
    /// log 30h say which (ACS-3, DRAT and RZAT).
    pub fn set_trim_zeros(&mut self, trim_zeros: bool)
        ensures { self.new ≡ trim_turned trim_zeros self.old }
    {
        let device = with_trim_zeros(&self.device, trim_zeros);
        self.keep(device);
    }

    /// IDENTIFY DEVICE names the disk so from now on.
    pub fn set_identity(&mut self, identity: &Identity)
        ensures { self.new ≡ renamed identity.now self.old }
    {
        let device = named(&self.device, identity);
        self.keep(device);
    }
}
