//! A register's bits by the standard's names (AHCI 1.3.1, sections 3.1 and 3.3; ACS-3 for the bits of status and error).

ghost use Rattle.std.specs.Prelude.{◌≡◌, ◌++◌, ◌||◌, false, map, IfOk, OnOk};
ghost use Rattle.word_bits.specs.Places.{bits, has_place};
ghost use Rattle.ahci_trace.specs.Names.{bits_of, bits_text, name_text, named, names_text};

use ahci_regs::Register;
use std::alloc::{AllocError, Allocator};
use streams::TextBuffer;
use word_bits::is_set;

/// A register's bit: its place, and its name.
#[derive(Clone, Copy, Debug)]
pub(crate) struct NamedBit(pub(crate) u8, pub(crate) &'static str);

/// The bit of CAP.
static CAP: [NamedBit; 1] = [NamedBit(30, "SNCQ")];

/// The bit of GHC.
static GHC: [NamedBit; 1] = [NamedBit(31, "AE")];

/// The interrupts of PxIS and PxIE.
static INTERRUPTS: [NamedBit; 5] = [
    NamedBit(0, "DHRS"),
    NamedBit(1, "PSS"),
    NamedBit(2, "DSS"),
    NamedBit(3, "SDBS"),
    NamedBit(30, "TFES"),
];

/// The bits of PxCMD.
static COMMAND: [NamedBit; 4] = [
    NamedBit(0, "ST"),
    NamedBit(4, "FRE"),
    NamedBit(14, "FR"),
    NamedBit(15, "CR"),
];

/// The bits of PxTFD: the status, and above it the error, whose bits without a name in the standard (ACS-3, "Error field") have
/// their number.
static TASK_FILE: [NamedBit; 12] = [
    NamedBit(0, "ERR"),
    NamedBit(3, "DRQ"),
    NamedBit(6, "DRDY"),
    NamedBit(7, "BSY"),
    NamedBit(8, "error bit 0"),
    NamedBit(9, "error bit 1"),
    NamedBit(10, "error ABRT"),
    NamedBit(11, "error bit 3"),
    NamedBit(12, "error IDNF"),
    NamedBit(13, "error bit 5"),
    NamedBit(14, "error UNC"),
    NamedBit(15, "error ICRC"),
];

/// The bits of a register that have names, rising.
pub(crate) fn bits_of(register: Register) -> &'static [NamedBit]
    ensures { map named result.now ≡ bits_of register }
{
    match register {
        Register::Cap => &CAP,
        Register::Ghc => &GHC,
        Register::PxIs | Register::PxIe => &INTERRUPTS,
        Register::PxCmd => &COMMAND,
        Register::PxTfd => &TASK_FILE,
        _ => &[],
    }
}

/// Appends the name of a bit that is set, after the names that came before it, if there were any. The answer says whether
/// there are any now.
fn push_name<A: Allocator>(
    text: &mut TextBuffer<A>,
    any: bool,
    word: u32,
    bit: NamedBit,
) -> Result<bool, AllocError>
    ensures items { OnOk result (text.new.bytes ≡ text.old.bytes ++ name_text any (bits word) bit.0 bit.1.now) }
    ensures more { IfOk result (λ more. more ≡ (any || has_place (bits word) bit.0)) }
{
    let NamedBit(place, name) = bit;
    if !is_set(word, place) {
        return Ok(any);
    }
    if any {
        text.push(b", ")?;
    } else {
        text.push(b"  ")?;
    }
    text.push(name.as_bytes())?;
    Ok(true)
}

/// Appends the names of those of some bits that are set.
fn push_names<A: Allocator>(
    text: &mut TextBuffer<A>,
    word: u32,
    some: &[NamedBit],
) -> Result<(), AllocError>
    ensures { OnOk result (text.new.bytes ≡ text.old.bytes ++ names_text false (bits word) (map named some.now)) }
{
    let mut any = false;
    for bit in some {
        any = push_name(text, any, word, *bit)?;
    }
    Ok(())
}

/// Appends the names of a register's bits that are set, where they have names.
pub(crate) fn push_bits<A: Allocator>(
    text: &mut TextBuffer<A>,
    register: Register,
    word: u32,
) -> Result<(), AllocError>
    ensures { OnOk result (text.new.bytes ≡ text.old.bytes ++ bits_text register word) }
{
    push_names(text, word, bits_of(register))
}
