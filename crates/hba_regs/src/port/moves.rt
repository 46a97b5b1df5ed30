//! What the device's FISes and errors do to the registers of the port.

ghost use Rattle.std.specs.Prelude.{◌≡◌, ◌≢◌, ◌<◌};
ghost use Rattle.word_bits.specs.Places.{bits, minus, with_place, without_place};
ghost use Rattle.hba_regs.specs.Interrupts.{place_of, raised};
ghost use Rattle.hba_regs.specs.PortStates.{bsy_or_drq_of, cfis_success, dr_overflow, ended_by_signature, err_fatal, err_fatal_taskfile, err_of, p_reg_fis_update, p_select_cmd, pio_entry, pio_update, prd_set_intr, reg_fis_entry, reg_fis_unsolicited, sdb_entry, stuck};
ghost use Rattle.hba_regs.specs.Receiving.{after_srst_cleared, after_srst_set, signed};

use super::{DHRS, DPS, OFS, PSS, Port, SDBS, TFES, raised};
use crate::device_kind::DeviceKind;
use crate::fatal::Fatal;
use crate::signature::Signature;
use crate::slot::Slot;
use crate::soft_reset::SoftReset;
use word_bits::{is_set, with_bit, without_bit};

impl Port {
    /// A slot's command is the one to issue.
    pub fn select(&mut self, slot: Slot)
        ensures { self.new ≡ p_select_cmd slot self.old }
    {
        self.current = slot.number();
        self.first = (slot.number() + 1) % self.capabilities.ncs();
    }

    /// The command FIS of a slot is sent: with C, BSY and the slot's bit of PxCI are cleared.
    pub fn send(&mut self, slot: Slot, clears: bool)
        ensures { self.new ≡ cfis_success slot clears self.old }
    {
        if clears {
            self.status &= 0x7f;
            self.clear_issued(slot);
        } else {
            self.status |= 0x80;
        }
    }

    /// The command FIS of a slot's write is sent, and its list is too short to go on.
    pub fn stick(&mut self, slot: Slot, clears: bool)
        ensures { self.new ≡ stuck slot clears self.old }
    {
        self.send(slot, clears);
        self.halted = true;
    }

    /// RegFIS:Entry, of a D2H Register FIS for a slot.
    pub fn receive_register(&mut self, status: u8, error: u8, i: bool, slot: Slot)
        ensures { self.new ≡ reg_fis_entry status error i slot self.old }
    {
        self.status = status;
        self.error = error;
        self.raise(DHRS, i);
        if has_error(status) {
            self.fail_taskfile();
        } else if !is_busy(status) {
            self.clear_issued(slot);
        }
    }

    /// RegFIS:Entry, of a D2H Register FIS that no command asks for; or P:RegFisUpdate, while ST is 0.
    pub fn receive_unsolicited(&mut self)
        ensures { self.new ≡ reg_fis_unsolicited self.old }
    {
        self.status = 0x50;
        self.error = 0x00;
        if self.started {
            self.raise(DHRS, true);
        }
    }

    /// SDB:Entry, of a Set Device Bits FIS.
    pub fn receive_bits(&mut self, status: u8, error: u8, i: bool, sactive: u32)
        ensures { self.new ≡ sdb_entry status error i sactive self.old }
    {
        self.status = (self.status & 0x88) | (status & 0x77);
        self.error = error;
        self.complete(sactive);
        self.raise(SDBS, i);
        if has_error(status) {
            self.fail_taskfile();
        }
    }

    /// PIO:Entry, of a PIO Setup FIS.
    pub fn receive_pio(&mut self, status: u8)
        ensures { self.new ≡ pio_entry status self.old }
    {
        self.status = status;
    }

    /// PIO:Update, once its data have moved.
    pub fn end_pio(&mut self, e_status: u8, error: u8, i: bool, slot: Slot)
        ensures { self.new ≡ pio_update e_status error i slot self.old }
    {
        self.status = e_status;
        self.error = error;
        self.raise(PSS, i);
        if has_error(e_status) {
            self.fail_taskfile();
        } else if !is_busy(e_status) {
            self.clear_issued(slot);
        }
    }

    /// The list has no room for the data that the device sends.
    pub fn overflow(&mut self)
        ensures { self.new ≡ dr_overflow self.old }
    {
        self.raise(OFS, true);
    }

    /// An entry of a PRDT with I has transferred all of its data.
    pub fn process_descriptor(&mut self)
        ensures { self.new ≡ prd_set_intr self.old }
    {
        self.raise(DPS, true);
    }

    /// The commands of a Set Device Bits FIS are done: PxSACT loses their slots.
    fn complete(&mut self, sactive: u32)
        ensures { self.new ≡ record self.old { sact = minus self.old.sact (bits sactive) } }
    {
        self.sact = lost(self.sact, sactive);
    }

    /// ERR:FatalTaskfile: TFES, and the port halts.
    fn fail_taskfile(&mut self)
        ensures { self.new ≡ err_fatal_taskfile self.old }
    {
        self.raise(TFES, true);
        self.halted = true;
    }

    /// Sets a bit of PxIS other than UFS, PCS and PRCS, if it is raised.
    pub(super) fn raise(&mut self, place: u8, is_raised: bool)
        requires place { place < 32 }
        requires ufs { place ≢ 4 }
        requires pcs { place ≢ 6 }
        requires prcs { place ≢ 22 }
        ensures { self.new ≡ record self.old { is = raised is_raised place self.old.is } }
    {
        self.is = raised(self.is, place, is_raised);
    }

    /// CFIS:ClearCI, RegFIS:ClearCI and PIO:ClearCI: PxCI loses a slot.
    fn clear_issued(&mut self, slot: Slot)
        ensures { self.new ≡ record self.old { ci = without_place self.old.ci slot } }
    {
        self.ci = without_bit(self.ci, slot.number());
    }

    /// The FIS of the device's signature: it is taken, or posted if it was taken before.
    pub fn take_signature(&mut self, kind: DeviceKind)
        ensures { self.new ≡ signed kind self.old self.old.signature }
    {
        match self.first_fis {
            Signature::Due => self.become_ready(kind),
            Signature::Past | Signature::Unposted(_) => self.first_fis = Signature::Past,
        }
    }

    /// The signature of a device is taken.
    fn become_ready(&mut self, kind: DeviceKind)
        ensures { self.new ≡ p_reg_fis_update kind self.old }
    {
        self.status = kind.signed_status();
        self.error = 0x01;
        self.signature = kind.signature();
        self.ci = ended_by_signature(self.soft, self.ci);
        self.first_fis = if self.receiving {
            Signature::Past
        } else {
            Signature::Unposted(kind)
        };
        self.soft = SoftReset::Off;
    }

    /// A control FIS sets SRST.
    pub fn set_srst(&mut self)
        ensures { self.new ≡ after_srst_set self.old }
    {
        self.first_fis = Signature::Past;
        self.soft = SoftReset::Held;
    }

    /// The control FIS of a slot clears SRST, if it is set.
    pub fn clear_srst(&mut self, slot: Slot)
        ensures { self.new ≡ after_srst_cleared self.old slot self.old.soft }
    {
        match self.soft {
            SoftReset::Held => {
                self.first_fis = Signature::Due;
                self.soft = SoftReset::Ending(slot);
            }
            SoftReset::Off | SoftReset::Ending(_) => {}
        }
    }

    /// ERR:Fatal: a fatal error.
    pub fn fail_fatally(&mut self, fatal: Fatal)
        ensures { self.new ≡ err_fatal fatal self.old }
    {
        self.is = failed(self.is, fatal);
        self.halted = true;
    }
}

/// Whether a status reports an error: ERR.
fn has_error(status: u8) -> bool
    ensures { result ≡ err_of status }
{
    is_set(u32::from(status), 0)
}

/// Whether BSY or DRQ of a status is 1.
pub(super) fn is_busy(status: u8) -> bool
    ensures { result ≡ bsy_or_drq_of status }
{
    let word = u32::from(status);
    is_set(word, 7) || is_set(word, 3)
}

/// PxIS after a fatal error.
fn failed(is: u32, fatal: Fatal) -> u32
    ensures { bits result ≡ with_place (bits is) (place_of fatal) }
{
    with_bit(is, fatal.place())
}

/// PxCI after the signature: that of a software reset ends the command of its second control FIS.
fn ended_by_signature(soft: SoftReset, ci: u32) -> u32
    ensures { bits result ≡ ended_by_signature soft (bits ci) }
{
    match soft {
        SoftReset::Ending(slot) => without_bit(ci, slot.number()),
        SoftReset::Off | SoftReset::Held => ci,
    }
}

/// The slots of a word without those of another.
#[tactic(auto, using(word_bits::proofs::BitsLemmas::bits_and_not))]
fn lost(word: u32, other: u32) -> u32
    ensures { bits result ≡ minus (bits word) (bits other) }
{
    word & !other
}
