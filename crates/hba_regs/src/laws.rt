//! What follows from the contracts of `HbaRegs`. The functions change nothing: each is there for its clauses. A write is one of a
//! word to a register (`written`), which `words_are_written_to_their_registers` finds at the register's offset.
ghost use Rattle.std.specs.Prelude.{◌≡◌, ◌≢◌, ◌+◌, ◌*◌, ◌/◌, ◌%◌, ◌^◌, ◌<◌, ◌≤◌, ℕ, Bool, true, false, not, ◌&&◌, ◌||◌};
ghost use Rattle.word_bits.specs.Places.{bits, has_place, no_places, union, with_place};
ghost use Rattle.hba_regs.specs.HbaState.{HbaPort, link_changed, powered_with};
ghost use Rattle.hba_regs.specs.InterfaceErrors.{accepts_fis, interface_failed, unknown_received};
ghost use Rattle.hba_regs.specs.Interrupts.{dhrs, interrupts, is_pending};
ghost use Rattle.hba_regs.specs.LinkEvents.{found, lost, plugged, unplugged};
ghost use Rattle.hba_regs.specs.Linking.{is_up};
ghost use Rattle.hba_regs.specs.PortStates.{err_of, pio_entry, pio_update, reg_fis_unsolicited};
ghost use Rattle.hba_regs.specs.RegisterTable.{offset_of, takes_ones};
ghost use Rattle.hba_regs.specs.Reading.{word_at};
ghost use Rattle.hba_regs.specs.Writing.{written, both};
ghost use Rattle.hba_regs.specs.Accessing.{part, read_of, with_part, write_of};
ghost use Rattle.hba_regs.specs.Receiving.{moved};
ghost use Rattle.hba_regs.specs.Settings.{settings};
ghost use Rattle.hba_regs.specs.declared.consequence.Consequence.TheVariants.{Nothing};
ghost use Rattle.hba_regs.specs.declared.link.Link.TheVariants.{Up, Listening};
ghost use Rattle.hba_regs.specs.declared.signature.Signature.TheVariants.{Due};
ghost use Rattle.hba_regs.specs.declared.soft_reset.SoftReset.TheVariants.{Off};

use crate::access_size::AccessSize;
use crate::hba_regs::HbaRegs;
use crate::interface_error::InterfaceError;
use crate::register::Register;
use crate::slot::Slot;

/// Reading changes nothing, at any offset and of any size.
pub fn reading_changes_nothing(regs: &mut HbaRegs, off: u32, size: AccessSize) -> u64
    ensures answer { result ≡ read_of regs.old off size }
    ensures same { regs.new ≡ regs.old }
{
    regs.read(off, size)
}

/// Four bytes at a register's offset read its word and write a word to it.
pub fn words_are_written_to_their_registers(regs: &HbaRegs, register: Register, value: u32)
    ensures read { read_of regs.now (offset_of register) AccessSize.Four ≡ word_at regs.now register }
    ensures write { write_of regs.now (offset_of register) AccessSize.Four value ≡ written regs.now value register }
{
    register.offset();
}

/// Eight bytes are two words, the lower first.
pub fn eight_bytes_are_two_words(regs: &HbaRegs, off: u32, lower: u32, upper: u32)
    requires { off % 8 ≡ 0 }
    ensures read { read_of regs.now off AccessSize.Eight
        ≡ read_of regs.now off AccessSize.Four + read_of regs.now (off + 4) AccessSize.Four * 2 ^ 32 }
    ensures write { let first = write_of regs.now off AccessSize.Four lower in
        let second = write_of first.state (off + 4) AccessSize.Four upper in
        let whole = write_of regs.now off AccessSize.Eight (lower + upper * 2 ^ 32) in
        (whole.state ≡ second.state) × (whole.consequence ≡ both first.consequence second.consequence) }
{}

/// A byte that is written beside others is read there, and the others read as before.
pub fn a_byte_is_written_alone(word: u32, place: u32, value: u64)
    requires { place < 4 }
    ensures here { part (with_part word (8 * place) 1 value) (8 * place) 1 ≡ value % 2 ^ 8 }
    ensures others { (other : ℕ) → other < 4 → other ≢ place
        → part (with_part word (8 * place) 1 value) (8 * other) 1 ≡ part word (8 * other) 1 }
{}

/// After GHC.HR the registers are as after power-on of the same HBA, with the same device or none, but for the bases, whatever was before.
pub fn a_reset_leaves_the_bases(regs: &HbaRegs, value: u32)
    requires { has_place (bits value) 0 ≡ true }
    ensures { (written regs.now value Register.Ghc).state
        ≡ (let first = powered_with regs.now.port.present regs.now.port.capabilities in
        record first { port = record first.port { clb = regs.now.port.clb; fb = regs.now.port.fb } }) }
{}

/// A write of PxCMD without ST leaves no command, and a port that was stopped or is stopped by it isn't halted.
pub fn stopping_leaves_no_command(regs: &HbaRegs, value: u32)
    requires { has_place (bits value) 0 ≡ false }
    ensures sact { (written regs.now value Register.PxCmd).state.port.sact ≡ no_places }
    ensures ci { (written regs.now value Register.PxCmd).state.port.ci ≡ no_places }
    ensures halted { (written regs.now value Register.PxCmd).state.port.halted ≡ false }
{
    regs.keeps_its_rules();
}

/// Writes drop commands exactly if they answer so: else each command stays.
pub fn commands_are_dropped_as_told(regs: &HbaRegs, register: Register, value: u32)
    ensures dropped { (written regs.now value register).consequence ≢ Nothing
        → ((written regs.now value register).state.port.sact ≡ no_places)
        × ((written regs.now value register).state.port.ci ≡ no_places) }
    ensures sact { (written regs.now value register).consequence ≡ Nothing → (i : ℕ)
        → has_place regs.now.port.sact i ≡ true → has_place (written regs.now value register).state.port.sact i ≡ true }
    ensures ci { (written regs.now value register).consequence ≡ Nothing → (i : ℕ)
        → has_place regs.now.port.ci i ≡ true → has_place (written regs.now value register).state.port.ci i ≡ true }
{}

/// While ST is 0, a write to PxSACT or PxCI changes nothing, as that of what was read there.
pub fn a_stopped_port_takes_no_command(regs: &HbaRegs, value: u32)
    requires { regs.now.port.st ≡ false }
    ensures sact { (written regs.now value Register.PxSact).state ≡ regs.now }
    ensures ci { (written regs.now value Register.PxCi).state ≡ regs.now }
{
    regs.keeps_its_rules();
}

/// What was read from a register of which no bit is cleared or set by writing 1 can be written back, and changes nothing: from
/// PxCMD while ST is 1 or the port isn't halted.
pub fn a_register_can_be_written_back(regs: &HbaRegs, register: Register)
    requires ones { takes_ones register ≡ false }
    requires halted { (regs.now.port.halted && not regs.now.port.st) ≡ false }
    ensures { (written regs.now (word_at regs.now register) register).state ≡ regs.now }
{
    regs.keeps_its_rules();
}

/// An interrupt is pending exactly if one bit is set both in PxIS and in PxIE, and then IS.IPS is 1.
pub fn pending_interrupts_are_reported(regs: &HbaRegs)
    ensures found { (i : ℕ) → has_place (interrupts regs.now.port) i ≡ true → has_place regs.now.port.ie i ≡ true
        → is_pending regs.now.port ≡ true }
    ensures none { ((i : ℕ) → (has_place (interrupts regs.now.port) i && has_place regs.now.port.ie i) ≡ false)
        → is_pending regs.now.port ≡ false }
    ensures reported { is_pending regs.now.port ≡ true → regs.now.ips ≡ true }
{
    regs.keeps_its_rules();
}

/// After a move of the device IS.IPS is 1 exactly if it was 1 or an interrupt is pending; writing 1 to it clears it, unless an
/// interrupt is pending.
pub fn ips_stays_until_it_is_cleared(regs: &HbaRegs)
    ensures moved { (p : HbaPort) → (moved regs.now p).ips ≡ (regs.now.ips || is_pending p) }
    ensures cleared { (written regs.now 1 Register.Is).state.ips ≡ is_pending regs.now.port }
{}

/// PCS, PRCS and UFS of PxIS are DIAG.X, DIAG.N and DIAG.F of PxSERR, and writing 1 to them in PxIS leaves them.
pub fn pcs_and_prcs_are_those_of_pxserr(regs: &HbaRegs, value: u32)
    ensures pcs { has_place (interrupts regs.now.port) 6 ≡ has_place regs.now.port.serr 26 }
    ensures prcs { has_place (interrupts regs.now.port) 22 ≡ has_place regs.now.port.serr 16 }
    ensures ufs { has_place (interrupts regs.now.port) 4 ≡ has_place regs.now.port.serr 25 }
    ensures left { (written regs.now value Register.PxIs).state.port.serr ≡ regs.now.port.serr }
{
    regs.keeps_its_rules();
}

/// COMRESET, by DET 1 and then 0 with SUD 1, drops the commands and makes the device send its signature; the driver's settings stay.
pub fn a_comreset_brings_the_device_back(regs: &HbaRegs)
    requires link { regs.now.port.link ≡ Up }
    requires spun { regs.now.port.sud ≡ true }
    ensures { (written (written regs.now 0x301 Register.PxSctl).state 0x300 Register.PxSctl).state.port
        ≡ record regs.now.port {
          sctl = 0x300;
          sact = no_places;
          ci = no_places;
          halted = false;
          sts = 0x80;
          err = 0;
          sig = 0xffffffff;
          serr = union (with_place regs.now.port.serr 16) link_changed;
          speed = regs.now.port.capabilities.iss;
          signature = Due;
          soft = Off;
        } }
{
    regs.keeps_its_rules();
}

/// No write changes what the HBA can do.
pub fn capabilities_stay(regs: &HbaRegs, register: Register, value: u32)
    ensures { (written regs.now value register).state.port.capabilities ≡ regs.now.port.capabilities }
{}

/// No slot that the command list has not is ever in PxSACT or PxCI.
pub fn commands_are_in_slots_of_the_list(regs: &HbaRegs, slot: u32)
    requires { regs.now.port.capabilities.ncs ≤ slot }
    ensures sact { has_place regs.now.port.sact slot ≡ false }
    ensures ci { has_place regs.now.port.ci slot ≡ false }
{
    regs.keeps_its_rules();
}

/// Without CAP.S64A the bases are below 4 GiB.
pub fn bases_are_in_reach(regs: &HbaRegs)
    requires { regs.now.port.capabilities.s64a ≡ false }
    ensures clb { regs.now.port.clb < 2 ^ 32 }
    ensures fb { regs.now.port.fb < 2 ^ 32 }
{
    regs.keeps_its_rules();
}

/// With staggered spin-up a device that waits goes on waiting while software writes 0 to SUD. With 1 the link comes up, and the signature
/// is due, if a device is plugged in.
pub fn a_device_waits_for_sud(regs: &HbaRegs, value: u32)
    requires sss { regs.now.port.capabilities.sss ≡ true }
    requires sud { regs.now.port.sud ≡ false }
    requires link { regs.now.port.link ≡ Listening }
    ensures waits { has_place (bits value) 1 ≡ false → (written regs.now value Register.PxCmd).state.port.link ≡ Listening }
    ensures up { regs.now.port.present ≡ true → has_place (bits value) 1 ≡ true → (written regs.now value Register.PxCmd).state.port.link ≡ Up }
    ensures due { regs.now.port.present ≡ true → has_place (bits value) 1 ≡ true → (written regs.now value Register.PxCmd).state.port.signature ≡ Due }
{}

/// Events leave what software has set, its commands too, and GHC.IE.
pub fn events_leave_what_software_has_set(regs: &HbaRegs, error: InterfaceError, is_fatal: bool)
    ensures lost { settings (lost regs.now.port regs.now.port.link) ≡ settings regs.now.port }
    ensures found { settings (found regs.now.port) ≡ settings regs.now.port }
    ensures unplugged { settings (unplugged regs.now.port) ≡ settings regs.now.port }
    ensures plugged { settings (plugged regs.now.port) ≡ settings regs.now.port }
    ensures failed { settings (interface_failed error is_fatal regs.now.port) ≡ settings regs.now.port }
    ensures unknown { settings (unknown_received regs.now.port) ≡ settings regs.now.port }
    ensures ie { (p : HbaPort) → (moved regs.now p).ghc_ie ≡ regs.now.ghc_ie }
{}

/// After an error from which the interface has recovered a port goes on as before; after a fatal one, a port with ST 1 processes no command.
pub fn a_fatal_error_alone_stops_the_port(regs: &HbaRegs, error: InterfaceError)
    ensures goes_on { (interface_failed error false regs.now.port).halted ≡ regs.now.port.halted }
    ensures stops { regs.now.port.link ≡ Up → regs.now.port.st ≡ true → (interface_failed error true regs.now.port).halted ≡ true }
{}

/// The commands that were in the list of a port with ST 1 when its link was lost aren't sent to the device that is found or plugged in
/// afterwards: the port processes none (AHCI 1.3.1, section 7.4).
pub fn a_found_device_gets_no_old_command(regs: &HbaRegs)
    requires link { regs.now.port.link ≡ Up }
    requires st { regs.now.port.st ≡ true }
    ensures found { (found (lost regs.now.port regs.now.port.link)).halted ≡ true }
    ensures plugged { (plugged (unplugged regs.now.port)).halted ≡ true }
{}

/// A link that is lost is down, and so is that of a device that is unplugged.
pub fn a_lost_link_is_down(regs: &HbaRegs)
    ensures lost { is_up (lost regs.now.port regs.now.port.link).link ≡ false }
    ensures unplugged { is_up (unplugged regs.now.port).link ≡ false }
{}

/// While no device is plugged in the link is down, and no write brings it up, or a device.
pub fn no_write_finds_an_unplugged_device(regs: &HbaRegs, register: Register, value: u32)
    requires { regs.now.port.present ≡ false }
    ensures down { is_up regs.now.port.link ≡ false }
    ensures absent { (written regs.now value register).state.port.present ≡ false }
    ensures stays { is_up (written regs.now value register).state.port.link ≡ false }
{
    regs.keeps_its_rules();
}

/// PRCS reports a link that is lost, PCS a device that is plugged in while the port listens, and UFS a FIS of a type that isn't known.
pub fn events_are_reported(regs: &HbaRegs)
    ensures lost { regs.now.port.link ≡ Up → has_place (interrupts (lost regs.now.port regs.now.port.link)) 22 ≡ true }
    ensures plugged { regs.now.port.link ≡ Listening → has_place (interrupts (plugged regs.now.port)) 6 ≡ true }
    ensures unknown { accepts_fis regs.now.port ≡ true → has_place (interrupts (unknown_received regs.now.port)) 4 ≡ true }
{
    regs.keeps_its_rules();
}

/// COMRESET, by DET 1 and then 0 with SUD 1, finds a device whose link was lost: the state is as after one whose link was up.
pub fn a_comreset_finds_a_lost_device(regs: &HbaRegs)
    requires link { regs.now.port.link ≡ Up }
    requires spun { regs.now.port.sud ≡ true }
    ensures { (written (written (moved regs.now (lost regs.now.port regs.now.port.link)) 0x301 Register.PxSctl).state 0x300 Register.PxSctl).state.port
        ≡ (written (written regs.now 0x301 Register.PxSctl).state 0x300 Register.PxSctl).state.port }
{}

/// A D2H Register FIS that no command asks for sets no bit of PxIS while ST is 0, and none but DHRS while ST is 1.
pub fn a_stopped_port_reports_no_register_fis(regs: &HbaRegs)
    ensures stopped { regs.now.port.st ≡ false → interrupts (reg_fis_unsolicited regs.now.port) ≡ interrupts regs.now.port }
    ensures started { regs.now.port.st ≡ true → (reg_fis_unsolicited regs.now.port).is ≡ with_place regs.now.port.is dhrs }
{}

/// The error of a PIO Setup FIS takes effect once its data have moved: PIO:Entry neither halts the port nor sets PxTFD.ERR or PxIS, and PIO:Update
/// with ERR in E_Status halts it, with the error in PxTFD.
pub fn an_error_of_pio_comes_after_its_data(
    regs: &HbaRegs,
    status: u8,
    e_status: u8,
    error: u8,
    i: bool,
    slot: Slot,
)
    ensures goes_on { (pio_entry status regs.now.port).halted ≡ regs.now.port.halted }
    ensures keeps { (pio_entry status regs.now.port).err ≡ regs.now.port.err }
    ensures reports { interrupts (pio_entry status regs.now.port) ≡ interrupts regs.now.port }
    ensures halts { err_of e_status ≡ true → (pio_update e_status error i slot regs.now.port).halted ≡ true }
    ensures tells { err_of e_status ≡ true → (pio_update e_status error i slot regs.now.port).err ≡ error }
{}
