//! What the device does by itself or when it is reset by software (AHCI 1.3.1, sections 10.1 and 10.4.1).

ghost use Rattle.std.specs.Prelude.{◌≡◌, ◌<◌, ◌^◌, true, false, IfErr, OnErr, OnOk, IfOk};
ghost use Rattle.ahci_hba.specs.Dropping.{handed_out, is_reset};
ghost use Rattle.hba_command.specs.Action.{action_of};
ghost use Rattle.hba_command.specs.Device.{after_signature};
ghost use Rattle.ahci_hba.specs.Failing.{ended_at, moves_before, refused_at};
ghost use Rattle.ahci_hba.specs.Queueing.{command_at, task_in};
ghost use Rattle.ahci_hba.specs.Stepping.{fault_if, may_control, may_refuse};
ghost use Rattle.ahci_hba.specs.Resetting.{IsControlled, comes_by_comreset, control_in, control_journal, control_of, held, is_due, may_sign, released, sent_by, signature, signing, signing_for};
ghost use Rattle.hba_regs.specs.declared.consequence.Consequence.TheVariants.{LinkReset};

use crate::command::Command;
use crate::ending::Ending;
use crate::fault::HbaFault;
use crate::hba::Hba;
use crate::hba::answer::REGISTER;
use crate::hba::fetch::is_off;
use crate::last_fis::LastFis;
use ahci_port::Journal;
use hba_command::{Action, Device, action_of, after_signature};
use hba_regs::{Consequence, DeviceKind, Signature, Slot, SoftReset};
use sata_fis::{D2h, Fis};
use sector_store::SectorStore;
use std::alloc::Allocator;

/// The FIS with the signature of a device (Serial ATA, "Signature").
fn signature(kind: DeviceKind) -> D2h
    ensures { result ≡ signature kind }
{
    let signature = kind.signature();
    D2h {
        i: false,
        status: kind.signed_status(),
        error: 0x01,
        lba: u64::from(signature / 256),
        device: 0,
        count: (signature % 256) as u16,
    }
}

/// The device whose signature is sent: one that was taken before is posted as it was.
fn sent_by(signature: Signature, kind: DeviceKind) -> DeviceKind
    ensures { result ≡ sent_by signature kind }
{
    match signature {
        Signature::Unposted(was) => was,
        Signature::Past | Signature::Due => kind,
    }
}

/// Whether a signature is sent now.
fn is_due(signature: Signature) -> bool
    ensures { result ≡ is_due signature }
{
    matches!(signature, Signature::Due)
}

/// What the device control register says of SRST; nothing of a command.
pub(super) fn control_of(action: &Action) -> Option<bool>
    ensures { result ≡ control_of action.now }
{
    match action {
        Action::Control { reset } => Some(*reset),
        _ => None, // it is a command
    }
}

impl<A: Allocator, S: SectorStore> Hba<A, S> {
    /// Whether the FIS of the device's signature can be taken, or posted, and nothing is read or written just now.
    pub fn may_sign(&self) -> bool
        ensures { result ≡ may_sign self.now }
    {
        self.is_idle() && self.registers.signature_moves()
    }

    /// Whether the signature is sent now, because of a COMRESET.
    fn comes_by_comreset(&self) -> bool
        ensures { result ≡ comes_by_comreset self.now.registers.port }
    {
        is_due(self.registers.signature()) && is_off(self.registers.soft_reset())
    }

    /// The disk once its signature is sent.
    fn device_signed(&self) -> Device
        ensures { result ≡ after_signature (comes_by_comreset self.now.registers.port) self.now.device }
    {
        after_signature(&self.device, self.comes_by_comreset())
    }

    /// The device whose signature is sent.
    fn sent_kind(&self, kind: DeviceKind) -> DeviceKind
        ensures { result ≡ sent_by self.now.registers.port.signature kind }
    {
        sent_by(self.registers.signature(), kind)
    }

    /// What the device control register of a slot's control FIS says of SRST; nothing if the slot has none that was read.
    pub fn control_in(&self, slot: Slot) -> Option<bool>
        ensures { result ≡ control_in (command_at self.now slot) }
    {
        match &self.slots[slot.index()] {
            Some(slot) => match &slot.command {
                Command::Fetched(task, _, _) => control_of(&action_of(task)),
                Command::Sent(_, _) => None,
            },
            None => None,
        }
    }

    /// Whether the device takes the control FIS of a slot now.
    pub fn may_control(&self, slot: Slot) -> bool
        ensures { result ≡ may_control self.now slot }
    {
        self.is_listening() && self.control_in(slot).is_some()
    }

    /// Whether the device can fail the command of a slot that is read and not queued.
    pub fn may_refuse(&self, slot: Slot) -> bool
        ensures { result ≡ may_refuse self.now slot }
    {
        self.is_ready() && self.is_alone_fetched(slot)
    }

    /// The device takes SRST 0, in the control FIS of a slot.
    fn release(&mut self, slot: Slot)
        ensures { self.new ≡ released self.old.registers.port.soft self.old slot }
    {
        match self.registers.soft_reset() {
            SoftReset::Held => {
                self.registers.clear_srst(slot);
                self.empty();
            }
            SoftReset::Off | SoftReset::Ending(_) => {
                self.registers.clear_srst(slot);
                self.slots[slot.index()] = None;
            }
        }
    }
}

impl<A: Allocator + Copy, S: SectorStore> Hba<A, S> {
    /// The FIS of the disk's signature is taken: PxSIG and PxTFD have it once it is written. While FRE is 0 it isn't written, and a later
    /// call writes it, once FRE is 1 (AHCI 1.3.1, sections 3.3.7, FRE, and 5.3.2).
    ///
    /// # Errors
    /// `NotReady` exactly if `may_sign` is false.
    pub fn sign(&mut self) -> Result<(), HbaFault>
        ensures ok { OnOk result ((may_sign self.old ≡ true) × (self.new ≡ signing self.old DeviceKind.Disk)) }
        ensures err { IfErr result (λ e. (e ≡ HbaFault.NotReady) × (may_sign self.old ≡ false) × (self.new ≡ self.old)) }
    {
        self.sign_as(DeviceKind::Disk)
    }

    /// The same with the signature of a device of another kind, as a driver finds it that meets what isn't a disk. What was taken before, while FRE was 0, is
    /// written as it was. Behind it is the disk, which answers commands as before.
    ///
    /// # Errors
    /// `NotReady` exactly if `may_sign` is false.
    pub fn sign_as(&mut self, kind: DeviceKind) -> Result<(), HbaFault>
        ensures ok { OnOk result ((may_sign self.old ≡ true) × (self.new ≡ signing self.old kind)) }
        ensures err { IfErr result (λ e. (e ≡ HbaFault.NotReady) × (may_sign self.old ≡ false) × (self.new ≡ self.old)) }
    {
        if !self.may_sign() {
            return Err(HbaFault::NotReady);
        }
        self.send_counted(kind);
        Ok(())
    }

    /// The signature of a device is sent, or posted as it was taken before; one because of a COMRESET is counted.
    fn send_counted(&mut self, kind: DeviceKind)
        ensures { self.new ≡ signing self.old kind }
    {
        let device = self.device_signed();
        let sent = self.sent_kind(kind);
        self.send_signature(sent);
        self.keep(device);
    }

    /// The FIS with the signature of a device is written, and taken.
    fn send_signature(&mut self, kind: DeviceKind)
        ensures { self.new ≡ signing_for self.old kind }
    {
        let put = self.received_put(REGISTER, Fis::D2h(signature(kind)).encode());
        let writes = self.only_after(put);
        self.answer(writes, Ending::of(true, LastFis::Signature(kind)));
    }

    /// The device takes the control FIS of a slot (AHCI 1.3.1, section 10.4.1). One with SRST holds it in a reset and drops all
    /// commands; if the port has requests, it is reset, and the journal that it hands out is the answer. The next one, without SRST, ends
    /// the reset, and the device sends its signature. One without SRST alone changes nothing.
    ///
    /// # Errors
    /// `NotReady` exactly if `may_control` is false.
    pub fn control(&mut self, slot: Slot) -> Result<Option<Journal<A>>, HbaFault>
        ensures ready { OnOk result (may_control self.old slot ≡ true) }
        ensures ok { OnOk result (IsControlled slot self.old self.new) }
        ensures journal { IfOk result (λ j. j ≡ control_journal self.old (control_in (command_at self.old slot))) }
        ensures err { IfErr result (λ e. (e ≡ HbaFault.NotReady) × (may_control self.old slot ≡ false) × (self.new ≡ self.old)) }
    {
        if !self.is_listening() {
            return Err(HbaFault::NotReady);
        }
        match self.control_in(slot) {
            Some(true) => Ok(self.hold()),
            Some(false) => {
                self.release(slot);
                Ok(None)
            }
            None => Err(HbaFault::NotReady),
        }
    }

    /// The device takes SRST 1.
    fn hold(&mut self) -> Option<Journal<A>>
        ensures state { self.new ≡ held self.old }
        ensures journal { result ≡ handed_out (is_reset LinkReset self.old) self.old.port }
    {
        let journal = self.reset_port(Consequence::LinkReset);
        self.settle_power(Consequence::LinkReset);
        self.settle_srst();
        self.registers.set_srst();
        self.empty();
        journal
    }

    /// The device fails the command of a slot that is read and not queued, with an error byte at an LBA below 2^48: a D2H Register
    /// FIS is written, and then the port halts. No sector has changed. A read has moved its sectors before the LBA; a write names its first one. If queued
    /// commands are outstanding the device aborts them too, as `execute` does.
    ///
    /// # Errors
    /// `NotReady` exactly if `may_refuse` is false; else `OutOfMemory` if a read has moved sectors and an allocation failed, and it can be tried again.
    /// Nothing has changed.
    pub fn refuse(&mut self, slot: Slot, error: u8, lba: u64) -> Result<(), HbaFault>
        requires lba { lba < 2 ^ 48 }
        ensures ready { OnOk result (may_refuse self.old slot ≡ true) }
        ensures ok { OnOk result (self.new ≡ refused_at self.old slot error lba) }
        ensures err { IfErr result (λ e. (e ≡ fault_if (may_refuse self.old slot)) × (self.new ≡ self.old)) }
        ensures lacking { IfErr result (λ e. e ≡ HbaFault.OutOfMemory → moves_before self.old.port (action_of (task_in (command_at self.old slot))) lba ≡ true) }
    {
        self.end(slot, 0x41, error, lba)
    }

    /// The same with any status in place of 41h (DRDY and ERR), which a driver may meet: 61h has DF, a device fault, beside ERR, and 60h has DF alone, for which
    /// the port doesn't halt (section 5.3, RegFIS:Entry); with 50h a read ends well that has moved fewer bytes than its list has room for, as
    /// PRDBC says (section 4.2.2), and a write that has stored nothing; with D0h the device stays busy (BSY).
    ///
    /// # Errors
    /// Those of `refuse`.
    pub fn end(&mut self, slot: Slot, status: u8, error: u8, lba: u64) -> Result<(), HbaFault>
        requires lba { lba < 2 ^ 48 }
        ensures ready { OnOk result (may_refuse self.old slot ≡ true) }
        ensures ok { OnOk result (self.new ≡ ended_at self.old slot status error lba) }
        ensures err { IfErr result (λ e. (e ≡ fault_if (may_refuse self.old slot)) × (self.new ≡ self.old)) }
        ensures lacking { IfErr result (λ e. e ≡ HbaFault.OutOfMemory → moves_before self.old.port (action_of (task_in (command_at self.old slot))) lba ≡ true) }
    {
        if !self.may_refuse(slot) {
            return Err(HbaFault::NotReady);
        }
        let action = action_of(&self.task_in(slot));
        let device = self.device_ended(slot, status, error);
        self.end_with(slot, &action, status, error, lba)?;
        self.wake_for(&action);
        self.keep(device);
        Ok(())
    }
}
