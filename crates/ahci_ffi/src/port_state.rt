//! All that can be seen of a port at once.

ghost use Rattle.std.specs.{Prelude.{◌≡◌, ◌<◌, ℕ, slice_index_or}, Option.{unwrap_or}};
ghost use Rattle.ahci_port.specs.PortView.{owner_of};
ghost use Rattle.ahci_regs.specs.Reading.{word_at};
ghost use Rattle.ncq_journal.specs.Phase.{phase};
ghost use Rattle.ahci_ffi.specs.{Flat.{phase_number}, Seen.{IsState}};

use crate::flat::FlatState;
use crate::query::phase_number;
use crate::status::Status;
use ahci_port::Port;
use ahci_regs::Register;
use sector_store::SectorStore;
use std::alloc::Allocator;

/// All that can be seen of a port at once.
pub fn state<A: Allocator, S: SectorStore>(port: &Port<A, S>, state: &mut FlatState) -> Status
    ensures done { result ≡ Status.Done }
    ensures state { IsState port.now state.new }
{
    *state = state_of(port);
    Status::Done
}

/// The same as a struct.
fn state_of<A: Allocator, S: SectorStore>(port: &Port<A, S>) -> FlatState
    ensures { IsState port.now result }
{
    let sets = port.tag_sets();
    FlatState {
        first: port.journal().first(),
        next: port.journal().end(),
        numbers: numbers_of(port),
        depth: port.depth(),
        sectors: port.sectors(),
        halted: u32::from(port.halted()),
        issued: sets.issued,
        accepted: sets.accepted,
        held: sets.held,
        cap: word(port, Register::Cap),
        ghc: word(port, Register::Ghc),
        pi: word(port, Register::Pi),
        vs: word(port, Register::Vs),
        px_clb: word(port, Register::PxClb),
        px_clbu: word(port, Register::PxClbu),
        px_fb: word(port, Register::PxFb),
        px_fbu: word(port, Register::PxFbu),
        px_is: word(port, Register::PxIs),
        px_ie: word(port, Register::PxIe),
        px_cmd: word(port, Register::PxCmd),
        px_tfd: word(port, Register::PxTfd),
        px_sig: word(port, Register::PxSig),
        px_ssts: word(port, Register::PxSsts),
        px_sctl: word(port, Register::PxSctl),
        px_serr: word(port, Register::PxSerr),
        px_sact: word(port, Register::PxSact),
        px_ci: word(port, Register::PxCi),
        received: *port.received(),
        phases: phases_of(port),
    }
}

/// The word of a register.
fn word<A: Allocator, S: SectorStore>(port: &Port<A, S>, register: Register) -> u32
    ensures { result ≡ word_at port.now.registers register }
{
    match port.register(register.offset()) {
        Ok(word) => word,
        // It is at its offset.
        Err(_) => unreachable!(),
    }
}

/// By tag, the number of the request that owns the slot, and 0 for a free one.
fn numbers_of<A: Allocator, S: SectorStore>(port: &Port<A, S>) -> [u64; 32]
    ensures { (tag : ℕ) → tag < 32 → slice_index_or result tag 0 ≡ unwrap_or (owner_of port.now tag) 0 }
{
    let mut numbers = [0; 32];
    for tag in 0..32u8 {
        numbers[usize::from(tag)] = port.owner(tag).unwrap_or(0);
    }
    numbers
}

/// By tag, the number of the phase.
fn phases_of<A: Allocator, S: SectorStore>(port: &Port<A, S>) -> [u8; 32]
    ensures { (tag : ℕ) → tag < 32 → slice_index_or result tag 0 ≡ phase_number (phase port.now.past tag) }
{
    let mut phases = [0; 32];
    for tag in 0..32u8 {
        phases[usize::from(tag)] = phase_number(port.phase(tag)) as u8;
    }
    phases
}
