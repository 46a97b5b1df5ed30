//! What the link, the device and the interface do by themselves (AHCI 1.3.1, sections 6.1.2, 6.2.2 and chapter 7). Each may happen at any time.

ghost use Rattle.std.specs.Prelude.{◌≡◌, true, false, IfErr, OnOk};
ghost use Rattle.ahci_hba.specs.Events.{bits_fis, device_plugged, device_unplugged, failed_at_interface, link_found, link_lost, lost_journal, may_receive, may_receive_register, receiving_bits, receiving_register, receiving_unknown, unplugged_journal};

use crate::dma_state::DmaState;
use crate::ending::Ending;
use crate::fault::HbaFault;
use crate::hba::Hba;
use crate::hba::answer::{REGISTER, SET_BITS, UNKNOWN};
use crate::hba::deliver::d2h_fis;
use crate::last_fis::LastFis;
use ahci_port::Journal;
use arrayvec::ArrayVec;
use hba_regs::{Consequence, InterfaceError};
use sata_fis::Fis;
use sector_store::SectorStore;
use std::alloc::Allocator;

/// A Set Device Bits FIS with I, status 40h and error 00h that names no tag, and with N if it is a notification.
fn bits_fis(notification: bool) -> ArrayVec<u8, 28>
    ensures { result.items ≡ bits_fis notification }
{
    let flags = if notification { 0xC0 } else { 0x40 };
    let mut fis = ArrayVec::new();
    fis.try_extend_from_slice(&[0xA1, flags, 0x40, 0x00, 0, 0, 0, 0])
        .unwrap();
    fis
}

impl<A: Allocator, S: SectorStore> Hba<A, S> {
    /// The device that is plugged in makes itself known, as `HbaRegs::find_link` has it: the link comes up if the port listens and SUD is 1, and the
    /// signature is due, as after a COMRESET. A port that was halted stays so until ST is cleared.
    pub fn find_link(&mut self)
        ensures { self.new ≡ link_found self.old }
    {
        self.registers.find_link();
    }

    /// The disk is plugged in, with the sectors that it had, as `HbaRegs::plug` has it.
    pub fn plug(&mut self)
        ensures { self.new ≡ device_plugged self.old }
    {
        self.registers.plug();
    }

    /// The interface fails under a FIS, as `HbaRegs::fail_interface` has it. A fatal error stops the transfer: of what was read or written nothing
    /// more is. After one that isn't fatal the controller goes on.
    pub fn fail_interface(&mut self, error: InterfaceError, is_fatal: bool)
        ensures { self.new ≡ failed_at_interface self.old error is_fatal }
    {
        let stops = is_fatal && self.registers.link_is_up();
        self.registers.fail_interface(error, is_fatal);
        if stops {
            self.turn_to(DmaState::Idle);
        }
    }
}

impl<A: Allocator + Copy, S: SectorStore> Hba<A, S> {
    /// Whether a FIS that no command asks for can be received now: the port accepts it, and nothing is read or written just now.
    pub fn may_receive(&self) -> bool
        ensures { result ≡ may_receive self.now }
    {
        self.is_idle() && self.registers.accepts_fis()
    }

    /// The same of a D2H Register FIS: the device isn't busy with a command.
    pub fn may_receive_register(&self) -> bool
        ensures { result ≡ may_receive_register self.now }
    {
        self.may_receive() && self.registers.is_free()
    }

    /// The device sends a FIS of a type that isn't known: its bytes are written at 60h of the received FIS area, and then UFS and DIAG.F are set (AHCI
    /// 1.3.1, sections 3.3.5, UFS, and 4.2.1), and the port goes on. The bytes are the caller's, from the type on.
    ///
    /// # Errors
    /// `NotReady` exactly if `may_receive` is false.
    pub fn receive_unknown(&mut self, fis: ArrayVec<u8, 28>) -> Result<(), HbaFault>
        ensures ok { OnOk result ((may_receive self.old ≡ true) × (self.new ≡ receiving_unknown self.old fis.items)) }
        ensures err { IfErr result (λ e. (e ≡ HbaFault.NotReady) × (may_receive self.old ≡ false) × (self.new ≡ self.old)) }
    {
        if !self.may_receive() {
            return Err(HbaFault::NotReady);
        }
        let put = self.received_put(UNKNOWN, fis);
        let writes = self.only_after(put);
        self.answer(writes, Ending::of(true, LastFis::Unknown));
        Ok(())
    }

    /// The device sends a Set Device Bits FIS with I that no command asks for, and with N if it is a notification: it is written at 58h of the received FIS
    /// area, and then SDBS is set (sections 3.3.5, SDBS, and 4.2.1; Serial ATA, "Set Device Bits FIS - Device to Host"). It names no tag, so PxSACT stays.
    /// N is without effect, since CAP.SSNTF is 0.
    ///
    /// # Errors
    /// `NotReady` exactly if `may_receive` is false.
    pub fn receive_bits(&mut self, notification: bool) -> Result<(), HbaFault>
        ensures ok { OnOk result ((may_receive self.old ≡ true) × (self.new ≡ receiving_bits self.old notification)) }
        ensures err { IfErr result (λ e. (e ≡ HbaFault.NotReady) × (may_receive self.old ≡ false) × (self.new ≡ self.old)) }
    {
        if !self.may_receive() {
            return Err(HbaFault::NotReady);
        }
        let put = self.received_put(SET_BITS, bits_fis(notification));
        let writes = self.only_after(put);
        let bits = LastFis::Bits {
            status: 0x40,
            error: 0x00,
            sactive: 0,
        };
        self.answer(writes, Ending::of(true, bits));
        Ok(())
    }

    /// The device sends a D2H Register FIS with I that no command asks for, as `HbaRegs::receive_unsolicited` has it: it is written at 40h of the received
    /// FIS area, and then DHRS is set. PxCI and PxSACT stay.
    ///
    /// # Errors
    /// `NotReady` exactly if `may_receive_register` is false.
    pub fn receive_register(&mut self) -> Result<(), HbaFault>
        ensures ok { OnOk result ((may_receive_register self.old ≡ true) × (self.new ≡ receiving_register self.old)) }
        ensures err { IfErr result (λ e. (e ≡ HbaFault.NotReady) × (may_receive_register self.old ≡ false) × (self.new ≡ self.old)) }
    {
        if !self.may_receive_register() {
            return Err(HbaFault::NotReady);
        }
        let put = self.received_put(REGISTER, Fis::D2h(d2h_fis(0x50, 0x00, 0, 0)).encode());
        let writes = self.only_after(put);
        self.answer(writes, Ending::of(true, LastFis::Unsolicited));
        Ok(())
    }

    /// The link is lost, as `HbaRegs::lose_link` has it: a device whose link was up drops all commands, as by a reset of the link (profile). None of them
    /// changes a sector or the driver's memory any more. If the port has requests or a failure has halted it, it is reset, and the journal that it hands
    /// out is the answer; it goes on by number.
    pub fn lose_link(&mut self) -> Option<Journal<A>>
        ensures state { self.new ≡ link_lost self.old }
        ensures journal { result ≡ lost_journal self.old }
    {
        if !self.registers.link_is_up() {
            self.registers.lose_link();
            return None;
        }
        let journal = self.reset_port(Consequence::LinkReset);
        self.settle_power(Consequence::LinkReset);
        self.settle_device(Consequence::LinkReset);
        self.registers.lose_link();
        self.empty();
        journal
    }

    /// The disk is pulled out, as `HbaRegs::unplug` has it: nothing brings the link up until `plug`. All commands are dropped, as by `power_on`, whose
    /// answer it has. The disk keeps its sectors, and is Active once it is plugged in again.
    pub fn unplug(&mut self) -> Option<Journal<A>>
        ensures state { self.new ≡ device_unplugged self.old }
        ensures journal { result ≡ unplugged_journal self.old }
    {
        let journal = self.reset_port(Consequence::Reset);
        self.registers.unplug();
        self.wake();
        self.cycle_power();
        self.empty();
        journal
    }
}
