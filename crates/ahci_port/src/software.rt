//! What software writes to the registers (AHCI 1.3.1, section 3.3): to start a port, to issue a command, and to recover.

ghost use Rattle.std.specs.Prelude.{◌≡◌, ◌<◌, ◌≤◌};
ghost use Rattle.ahci_regs.specs.RegisterTable.{offset_of};
ghost use Rattle.ahci_port.specs.Registers.{after_write, issued, restarted, started};

use ahci_regs::{PortRegs, Register};
use word_bits::place;

/// FRE of PxCMD.
const FRE: u32 = 0x10;

/// ST of PxCMD.
const ST: u32 = 0x01;

/// The address of the command list.
const COMMAND_LIST: u32 = 0x0001_0000;

/// The address of the received FIS area.
const RECEIVED_AREA: u32 = 0x0001_0400;

/// Every bit of a register in which a 1 clears.
const ALL: u32 = 0xFFFF_FFFF;

/// Software writes a word to a register. A port that refuses it stays as it is.
// The register is known at each call, and what the others take goes away.
#[inline(always)]
pub(crate) fn write(registers: &mut PortRegs, register: Register, value: u32)
    ensures { registers.new ≡ after_write registers.old (offset_of register) value }
{
    let _taken = registers.write(register.offset(), value);
}

/// The registers of a port that was started (sections 3.3.1, 3.3.3 and 3.3.7): its memory is named, then it receives FISes,
/// then it starts.
pub(crate) fn started(depth: u32) -> PortRegs
    requires low { 1 ≤ depth }
    requires high { depth ≤ 32 }
    ensures { result ≡ started depth }
{
    let mut registers = PortRegs::new(depth);
    write(&mut registers, Register::PxClb, COMMAND_LIST);
    write(&mut registers, Register::PxFb, RECEIVED_AREA);
    write(&mut registers, Register::PxCmd, FRE);
    write(&mut registers, Register::PxCmd, FRE | ST);
    registers
}

/// Software issues a tag's command: PxSACT before PxCI, since once PxCI is set the device may answer ("Building a
/// Command").
pub(crate) fn issue(registers: &mut PortRegs, tag: u8)
    requires { tag < 32 }
    ensures { registers.new ≡ issued registers.old tag }
{
    write(registers, Register::PxSact, place(tag));
    write(registers, Register::PxCi, place(tag));
}

/// Software stops the port, clears its errors and interrupts, and starts it again (section 6.2.2).
pub(crate) fn restart(registers: &mut PortRegs)
    ensures { registers.new ≡ restarted registers.old }
{
    write(registers, Register::PxCmd, FRE);
    write(registers, Register::PxSerr, ALL);
    write(registers, Register::PxIs, ALL);
    write(registers, Register::PxCmd, FRE | ST);
}
