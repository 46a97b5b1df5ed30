//! FIS bytes as values.

ghost use Rattle.std.specs.Prelude.{◌≡◌, List, length, ℕ, bit_and, Result, Ok, IfOk, IfErr};
ghost use Rattle.sata_fis.specs.declared.fis.Fis.{Fis};
ghost use Rattle.sata_fis.specs.declared.fault.FisFault.{FisFault};
ghost use Rattle.sata_fis.specs.Layout.{h2d_at, d2h_at, dma_setup_at, pio_setup_at, set_bits_at};
ghost use Rattle.sata_fis.specs.Spelling.{Spells};
ghost use Rattle.sata_fis.specs.Fault.{IsFault, Decodes};

use crate::d2h::D2h;
use crate::dma_setup::DmaSetup;
use crate::fault::FisFault;
use crate::fis::Fis;
use crate::h2d::H2d;
use crate::payload::Payload;
use crate::pio_setup::PioSetup;
use crate::places::{is_set, lba_of};
use crate::set_bits::SetBits;
use byteorder::{ByteOrder, LittleEndian};

/// Reads one FIS, which takes all of the bytes (Serial ATA, "FIS types"). Reserved bits and bytes are
/// ignored, among them the port multiplier port.
///
/// # Errors
/// `Empty` where there are no bytes; `UnknownType` where byte 0 is none of the seven types; else
/// `WrongLength` where the type doesn't have this many bytes.
pub fn decode(bytes: &[u8]) -> Result<Fis<'_>, FisFault>
    ensures ok { IfOk result (λ f. Spells bytes.now f) }
    ensures only { (f : Fis) → Spells bytes.now f → result ≡ Ok f }
    ensures err { IfErr result (λ e. IsFault bytes.now e) }
{
    let kind = *bytes.first().ok_or(FisFault::Empty)?;
    match (kind, bytes.len()) {
        (0x27, 20) => Ok(Fis::H2d(h2d_at(bytes))),
        (0x34, 20) => Ok(Fis::D2h(d2h_at(bytes))),
        (0x39, 4) => Ok(Fis::DmaActivate),
        (0x41, 28) => Ok(Fis::DmaSetup(dma_setup_at(bytes))),
        (0x5F, 20) => Ok(Fis::PioSetup(pio_setup_at(bytes))),
        (0xA1, 8) => Ok(Fis::SetBits(set_bits_at(bytes))),
        (0x46, 8..=8196) if bytes.len() % 4 == 0 => Ok(Fis::Data(Payload { bytes: &bytes[4..] })),
        (0x27 | 0x34 | 0x39 | 0x41 | 0x46 | 0x5F | 0xA1, len) => Err(FisFault::WrongLength(len)),
        _ => Err(FisFault::UnknownType(kind)),
    }
}

/// A law, and no work: two values that the same bytes spell are equal, and the contract of `decode`
/// allows one answer for each byte string.
pub fn one_answer()
    ensures spelling { (bytes : List ℕ) (f g : Fis) → Spells bytes f → Spells bytes g → f ≡ g }
    ensures answer { (bytes : List ℕ) (r s : Result Fis FisFault) → Decodes bytes r → Decodes bytes s → r ≡ s }
{}

// What the bytes of each type say, by their places.

fn h2d_at(bytes: &[u8]) -> H2d
    requires { length bytes.now ≡ 20 }
    ensures { result ≡ h2d_at bytes.now }
{
    H2d {
        c: is_set(bytes[1], 7),
        command: bytes[2],
        features: u16::from_le_bytes([bytes[3], bytes[11]]),
        lba: lba_of(bytes),
        device: bytes[7],
        count: LittleEndian::read_u16(&bytes[12..]),
        control: bytes[15],
    }
}

/// What the 20 bytes of a Register FIS - Device to Host say. Its type is not looked at.
pub fn d2h_at(bytes: &[u8]) -> D2h
    requires { length bytes.now ≡ 20 }
    ensures { result ≡ d2h_at bytes.now }
{
    D2h {
        i: is_set(bytes[1], 6),
        status: bytes[2],
        error: bytes[3],
        lba: lba_of(bytes),
        device: bytes[7],
        count: LittleEndian::read_u16(&bytes[12..]),
    }
}

fn dma_setup_at(bytes: &[u8]) -> DmaSetup
    requires { length bytes.now ≡ 28 }
    ensures { result ≡ dma_setup_at bytes.now }
{
    DmaSetup {
        a: is_set(bytes[1], 7),
        i: is_set(bytes[1], 6),
        d: is_set(bytes[1], 5),
        tag: bytes[4] & 31,
        offset: LittleEndian::read_u32(&bytes[16..]),
        count: LittleEndian::read_u32(&bytes[20..]),
    }
}

/// What the 20 bytes of a PIO Setup FIS say. Its type is not looked at.
pub fn pio_setup_at(bytes: &[u8]) -> PioSetup
    requires { length bytes.now ≡ 20 }
    ensures { result ≡ pio_setup_at bytes.now }
{
    PioSetup {
        i: is_set(bytes[1], 6),
        d: is_set(bytes[1], 5),
        status: bytes[2],
        error: bytes[3],
        lba: lba_of(bytes),
        device: bytes[7],
        count: LittleEndian::read_u16(&bytes[12..]),
        e_status: bytes[15],
        bytes: LittleEndian::read_u16(&bytes[16..]),
    }
}

/// What the 8 bytes of a Set Device Bits FIS say. Its type is not looked at.
pub fn set_bits_at(bytes: &[u8]) -> SetBits
    requires { length bytes.now ≡ 8 }
    ensures { result ≡ set_bits_at bytes.now }
{
    SetBits {
        i: is_set(bytes[1], 6),
        status: without_bsy_and_drq(bytes[2]),
        error: bytes[3],
        sactive: LittleEndian::read_u32(&bytes[4..]),
    }
}

/// The bits 6:4 and 2:0 of a status at their places.
#[tactic(auto, using(crate::proofs::FieldLemmas::kept_twice))]
fn without_bsy_and_drq(status: u8) -> u8
    ensures value { result ≡ bit_and status 0x77 }
    ensures kept { bit_and result 0x77 ≡ result }
{
    status & 0x77
}
