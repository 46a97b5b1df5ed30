//! How the port receives the device's FISes: each goes to its place in the received FIS area (AHCI 1.3.1, section
//! 4.2.1), and its fields move the registers.

ghost use Rattle.std.specs.Prelude.{◌≡◌, ◌+◌, ◌<◌, ◌≤◌, length};
ghost use Rattle.ahci_regs.specs.Receiving.{after_register, after_bits, after_pio, after_pio_end};
ghost use Rattle.sata_fis.specs.declared.fis.Fis.TheVariants as fis_of;
ghost use Rattle.sata_fis.specs.Layout.{d2h_at, set_bits_at, pio_setup_at};
ghost use Rattle.sata_fis.specs.Spelling.{Spells};
ghost use Rattle.ahci_port.specs.PortView.{put_at, setup_place, pio_place, register_place, bits_place};

use ahci_regs::PortRegs;
use sata_fis::{D2h, d2h_at, pio_setup_at, set_bits_at};

/// The places of the FISes.
const SETUP: usize = 0x00;

const PIO: usize = 0x20;

const REGISTER: usize = 0x40;

const BITS: usize = 0x58;

/// Puts a FIS at a place of the area.
fn put(area: &mut [u8; 256], place: usize, fis: &[u8])
    requires { place + length fis.now ≤ 256 }
    ensures { area.new ≡ put_at place fis.now area.old }
{
    area[place..place + fis.len()].copy_from_slice(fis);
}

/// A DMA Setup FIS.
pub(crate) fn receive_setup(area: &mut [u8; 256], fis: &[u8; 28])
    ensures { area.new ≡ put_at setup_place fis.now area.old }
{
    put(area, SETUP, fis);
}

/// A Register FIS - Device to Host for a tag. The answer is what it says.
pub(crate) fn receive_register(
    registers: &mut PortRegs,
    area: &mut [u8; 256],
    fis: &[u8; 20],
    tag: u8,
) -> D2h
    requires tag { tag < 32 }
    requires spells { Spells fis.now (fis_of.D2h (d2h_at fis.now)) }
    ensures area { area.new ≡ put_at register_place fis.now area.old }
    ensures registers { registers.new ≡ after_register registers.old (d2h_at fis.now).status (d2h_at fis.now).error (d2h_at fis.now).i tag }
    ensures answer { result ≡ d2h_at fis.now }
{
    put(area, REGISTER, fis);
    let answer = d2h_at(fis);
    registers.receive_register(answer.status, answer.error, answer.i, tag);
    answer
}

/// A Set Device Bits FIS.
pub(crate) fn receive_bits(registers: &mut PortRegs, area: &mut [u8; 256], fis: &[u8; 8])
    requires spells { Spells fis.now (fis_of.SetBits (set_bits_at fis.now)) }
    ensures area { area.new ≡ put_at bits_place fis.now area.old }
    ensures registers { registers.new ≡ after_bits registers.old (set_bits_at fis.now).status (set_bits_at fis.now).error (set_bits_at fis.now).i (set_bits_at fis.now).sactive }
{
    put(area, BITS, fis);
    let bits = set_bits_at(fis);
    registers.receive_bits(bits.status, bits.error, bits.i, bits.sactive);
}

/// A PIO Setup FIS for slot 0, with its data after it.
pub(crate) fn receive_pio(registers: &mut PortRegs, area: &mut [u8; 256], fis: &[u8; 20])
    requires spells { Spells fis.now (fis_of.PioSetup (pio_setup_at fis.now)) }
    ensures area { area.new ≡ put_at pio_place fis.now area.old }
    ensures registers { registers.new ≡ after_pio_end (after_pio registers.old (pio_setup_at fis.now).status (pio_setup_at fis.now).error) (pio_setup_at fis.now).e_status (pio_setup_at fis.now).i 0 }
{
    put(area, PIO, fis);
    let setup = pio_setup_at(fis);
    registers.receive_pio(setup.status, setup.error);
    registers.end_pio(setup.e_status, setup.i, 0);
}
