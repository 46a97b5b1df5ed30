//! What the device's FISes and errors do to the registers. Each ends as a write does: IS.IPS is set if an interrupt is pending.

ghost use Rattle.std.specs.Prelude.{◌≡◌, true};
ghost use Rattle.hba_regs.specs.PortStates.{cfis_success, dr_overflow, err_fatal, p_select_cmd, pio_entry, pio_update, prd_set_intr, reg_fis_entry, reg_fis_unsolicited, sdb_entry, stuck};
ghost use Rattle.hba_regs.specs.Receiving.{after_srst_cleared, after_srst_set, moved, signature_moves, signed};

use super::HbaRegs;
use crate::device_kind::DeviceKind;
use crate::fatal::Fatal;
use crate::slot::Slot;

impl HbaRegs {
    /// Selects the command of a slot, as the next one to issue (AHCI 1.3.1, section 5.3.2, P:SelectCmd): CCS is the slot.
    pub fn select(&mut self, slot: Slot)
        ensures { self.new ≡ moved self.old (p_select_cmd slot self.old.port) }
    {
        self.port.select(slot);
        self.pending = self.pending || self.port.is_pending();
    }

    /// Sends the command FIS of a slot (section 5.3.5): BSY is set; or, if C is 1 in its header, BSY and its bit of PxCI are
    /// cleared.
    pub fn send(&mut self, slot: Slot, clears: bool)
        ensures { self.new ≡ moved self.old (cfis_success slot clears self.old.port) }
    {
        self.port.send(slot, clears);
        self.pending = self.pending || self.port.is_pending();
    }

    /// Sends the command FIS of a slot's write, whose list names fewer bytes than it moves: the port is stuck until ST is cleared or
    /// the link is reset (profile).
    pub fn stick(&mut self, slot: Slot, clears: bool)
        ensures { self.new ≡ moved self.old (stuck slot clears self.old.port) }
    {
        self.port.stick(slot, clears);
        self.pending = self.pending || self.port.is_pending();
    }

    /// Takes a D2H Register FIS for the command of a slot (sections 3.3.8 and 3.3.14): its status and error, and its
    /// I bit. PxCI loses the slot if BSY, DRQ and ERR of the status are 0; a status with ERR halts the port.
    pub fn receive_register(&mut self, status: u8, error: u8, i: bool, slot: Slot)
        ensures { self.new ≡ moved self.old (reg_fis_entry status error i slot self.old.port) }
    {
        self.port.receive_register(status, error, i, slot);
        self.pending = self.pending || self.port.is_pending();
    }

    /// Takes a D2H Register FIS that no command asks for, with I, status 50h and error 00h (section 5.3, RegFIS:Entry): DHRS is set, and PxCI stays, since no
    /// command is being issued. While ST is 0 PxTFD alone is set (section 5.3.2, P:RegFisUpdate).
    pub fn receive_unsolicited(&mut self)
        ensures { self.new ≡ moved self.old (reg_fis_unsolicited self.old.port) }
    {
        self.port.receive_unsolicited();
        self.pending = self.pending || self.port.is_pending();
    }

    /// Takes a Set Device Bits FIS (section 3.3.13): PxSACT loses the slots in `sactive`. BSY and DRQ stay as they are; a
    /// status with ERR halts the port.
    pub fn receive_bits(&mut self, status: u8, error: u8, i: bool, sactive: u32)
        ensures { self.new ≡ moved self.old (sdb_entry status error i sactive self.old.port) }
    {
        self.port.receive_bits(status, error, i, sactive);
        self.pending = self.pending || self.port.is_pending();
    }

    /// Takes a PIO Setup FIS, before its data: its status (section 5.3, PIO:Entry). With ERR in it the data move as well.
    pub fn receive_pio(&mut self, status: u8)
        ensures { self.new ≡ moved self.old (pio_entry status self.old.port) }
    {
        self.port.receive_pio(status);
        self.pending = self.pending || self.port.is_pending();
    }

    /// Ends a PIO Setup FIS's data, for the command of a slot: the FIS's E_Status, its error and its I bit, which the caller has kept (pPioESts, pPioErr and
    /// pPioIbit). An E_Status with ERR halts the port.
    pub fn end_pio(&mut self, e_status: u8, error: u8, i: bool, slot: Slot)
        ensures { self.new ≡ moved self.old (pio_update e_status error i slot self.old.port) }
    {
        self.port.end_pio(e_status, error, i, slot);
        self.pending = self.pending || self.port.is_pending();
    }

    /// Takes that the device sends more data than the list of its command has room for (sections 3.3.5, OFS, and 6.1.5): OFS is set, and the port
    /// goes on.
    pub fn overflow(&mut self)
        ensures { self.new ≡ moved self.old (dr_overflow self.old.port) }
    {
        self.port.overflow();
        self.pending = self.pending || self.port.is_pending();
    }

    /// Takes that an entry of a PRDT whose I is 1 has transferred all of its data (sections 3.3.5, DPS, 4.2.3.3 and 5.4.2): DPS is set.
    pub fn process_descriptor(&mut self)
        ensures { self.new ≡ moved self.old (prd_set_intr self.old.port) }
    {
        self.port.process_descriptor();
        self.pending = self.pending || self.port.is_pending();
    }

    /// Takes the FIS of the signature of a device of some kind, a D2H Register FIS without I, or posts it if it was taken while FRE was 0
    /// (`signature_moves`): with the signature of a software reset, PxCI loses the slot of its second control FIS.
    pub fn take_signature(&mut self, kind: DeviceKind)
        requires { signature_moves self.old.port self.old.port.signature ≡ true }
        ensures { self.new ≡ moved self.old (signed kind self.old.port self.old.port.signature) }
    {
        self.port.take_signature(kind);
        self.pending = self.pending || self.port.is_pending();
    }

    /// Takes that a control FIS sets SRST, the first of the two of a software reset (section 10.4.1): the device is held in it.
    pub fn set_srst(&mut self)
        ensures { self.new ≡ moved self.old (after_srst_set self.old.port) }
    {
        self.port.set_srst();
        self.pending = self.pending || self.port.is_pending();
    }

    /// Takes that the control FIS of a slot, clears SRST, the second of the two: a device that is held in its reset then sends
    /// its signature, and any other one ignores it.
    pub fn clear_srst(&mut self, slot: Slot)
        ensures { self.new ≡ moved self.old (after_srst_cleared self.old.port slot self.old.port.soft) }
    {
        self.port.clear_srst(slot);
        self.pending = self.pending || self.port.is_pending();
    }

    /// Takes a fatal error (sections 6.1 and 6.2.1): its bit of PxIS is set, and the port halts.
    pub fn fail_fatally(&mut self, fatal: Fatal)
        ensures { self.new ≡ moved self.old (err_fatal fatal self.old.port) }
    {
        self.port.fail_fatally(fatal);
        self.pending = self.pending || self.port.is_pending();
    }
}
