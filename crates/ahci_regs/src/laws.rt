//! What follows from the contracts of `PortRegs`. The functions change nothing: each is there for its clauses.
ghost use Rattle.std.specs.Prelude.{◌≡◌, ◌≤◌, ℕ, Bool, true, false, bit_or, IfOk};
ghost use Rattle.word_bits.specs.Places.{bits, has_place, no_places};
ghost use Rattle.ahci_regs.specs.PortState.{PortState};
ghost use Rattle.ahci_regs.specs.Receiving.{after_bits};
ghost use Rattle.ahci_regs.specs.RegisterTable.{offset_of};
ghost use Rattle.ahci_regs.specs.Reading.{command_word, read_of};
ghost use Rattle.ahci_regs.specs.Writing.{write_of};

use crate::fault::RegFault;
use crate::port_regs::PortRegs;
use crate::register::Register;

/// PxSACT and PxCI have no bit at or above the number of slots.
pub fn no_slot_past_the_depth(regs: &PortRegs)
    ensures sact { (i : ℕ) → regs.now.depth ≤ i → has_place regs.now.sact i ≡ false }
    ensures ci { (i : ℕ) → regs.now.depth ≤ i → has_place regs.now.ci i ≡ false }
{
    regs.keeps_its_rules();
}

/// Reading changes nothing, at any offset.
pub fn reading_changes_nothing(regs: &mut PortRegs, off: u32) -> Result<u32, RegFault>
    ensures answer { result ≡ read_of regs.old off }
    ensures same { regs.new ≡ regs.old }
{
    regs.read(off)
}

/// A 0 written to PxIS, PxSACT or PxCI changes nothing.
pub fn writing_zero_changes_nothing(regs: &PortRegs)
    ensures is { write_of regs.now (offset_of Register.PxIs) 0 ≡ Ok regs.now }
    ensures sact { regs.now.st ≡ true → write_of regs.now (offset_of Register.PxSact) 0 ≡ Ok regs.now }
    ensures ci { regs.now.st ≡ true → write_of regs.now (offset_of Register.PxCi) 0 ≡ Ok regs.now }
{
    regs.keeps_its_rules();
}

/// A write that clears PxCMD.ST leaves no command in PxSACT and PxCI.
pub fn stopping_leaves_no_command(regs: &PortRegs, value: u32)
    requires { has_place (bits value) 0 ≡ false }
    ensures { IfOk
        (write_of regs.now (offset_of Register.PxCmd) value)
        (λ state. (state.sact ≡ no_places) × (state.ci ≡ no_places)) }
{
    regs.keeps_its_rules();
}

/// What was read from PxCMD can be written back, and changes nothing.
pub fn command_can_be_written_back(regs: &PortRegs)
    ensures read { read_of regs.now (offset_of Register.PxCmd) ≡ Ok (command_word regs.now.st regs.now.fre) }
    ensures write { write_of regs.now (offset_of Register.PxCmd) (command_word regs.now.st regs.now.fre)
        ≡ Ok regs.now }
{
    regs.keeps_its_rules();
}

/// One Set Device Bits FIS that names the commands of two does what the two do, one after the other, where status, error and
/// the I bit are the same.
pub fn one_fis_ends_the_commands_of_two()
    ensures { (s : PortState) → (status error : ℕ) → (i : Bool) → (first second : ℕ)
        → after_bits (after_bits s status error i first) status error i second ≡ after_bits s status error i (bit_or first second) }
{}
