//! The registers that a command has changed.

ghost use Rattle.std.specs.Prelude.{◌≡◌, IfOk};
ghost use Rattle.ahci_trace.specs.Changes.{change_of, changes, changes_among, is_word};

use crate::mark::{Mark, word};
use ahci_port::Port;
use ahci_regs::Register;
use std::alloc::{AllocError, Allocator};

/// A register whose word a command has changed.
#[derive(Clone, Copy, Debug)]
pub struct Change {
    pub register: Register,
    /// The word before; `None` where the command made the disk.
    pub before: Option<u32>,
    pub word: u32,
}

/// Whether there was a word, and it is this one.
fn is_word(before: Option<u32>, word: u32) -> bool
    ensures { result ≡ is_word before word }
{
    match before {
        Some(old) => old == word,
        None => false,
    }
}

/// The change of a register, where its word is not the one before.
fn change_of<A: Allocator>(
    port: &Port<A>,
    register: Register,
    before: Option<u32>,
) -> Option<Change>
    ensures { result ≡ change_of port.now.registers register before }
{
    let word = word(port, register);
    if is_word(before, word) {
        return None;
    }
    Some(Change {
        register,
        before,
        word,
    })
}

/// The registers whose words are not those of the mark, in the order of their offsets.
pub(crate) fn changes<A: Allocator, B: Allocator>(
    alloc: B,
    mark: &Mark,
    port: &Port<A>,
) -> Result<Vec<Change, B>, AllocError>
    ensures { IfOk result (λ changed. changed.items ≡ changes mark.now.words port.now.registers) }
{
    changes_among(alloc, &Register::all(), &mark.words, port)
}

/// Those of these registers whose words are not the ones before.
fn changes_among<A: Allocator, B: Allocator>(
    alloc: B,
    registers: &[Register],
    before: &[Option<u32>],
    port: &Port<A>,
) -> Result<Vec<Change, B>, AllocError>
    ensures { IfOk result (λ changed. changed.items ≡ changes_among registers.now before.now port.now.registers) }
{
    registers
        .iter()
        .copied()
        .zip(before.iter().copied())
        .filter_map(|(register, before)| change_of(port, register, before))
        .collect(alloc)
}
