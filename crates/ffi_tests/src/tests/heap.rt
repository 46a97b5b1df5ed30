//! An allocator that refuses, and ports in its memory.
use ahci_ffi::{FlatState, Status, make_zeros, state};
use ahci_port::Port;
use refusing_allocator::{Refusals, Refusing};
use sector_store::Sectors;
use std::alloc::Global;
use std::test::Fail;

/// What the calls that are tried take their memory from.
pub type Heap = Refusing<Global>;

/// A port in that memory.
pub type HeapPort<'a> = Port<&'a Heap, Sectors<&'a Heap>>;

/// How many sectors the disk of a port has.
pub const SECTORS: u32 = 8;

/// How many slots a port has.
pub const DEPTH: u32 = 4;

/// All requests from this one on are refused.
pub fn refuse_from(heap: &Heap, growth: u64) {
    heap.refuse(Refusals::From(growth));
}

/// A port over zeros.
pub fn port_of<'a>(heap: &'a Heap) -> Result<Box<HeapPort<'a>, &'a Heap>, Fail> {
    match make_zeros(heap, SECTORS, DEPTH) {
        Ok(port) => Ok(port),
        Err(_) => Err(Fail::new("no port")),
    }
}

/// All that can be seen of a port.
pub fn look_at(port: &HeapPort<'_>) -> FlatState {
    let mut seen = nothing_seen();
    let Status::Done = state(port, &mut seen) else {
        return nothing_seen();
    };
    seen
}

/// A state of zeros.
pub fn nothing_seen() -> FlatState {
    FlatState {
        first: 0,
        next: 0,
        numbers: [0; 32],
        depth: 0,
        sectors: 0,
        halted: 0,
        issued: 0,
        accepted: 0,
        held: 0,
        cap: 0,
        ghc: 0,
        pi: 0,
        vs: 0,
        px_clb: 0,
        px_clbu: 0,
        px_fb: 0,
        px_fbu: 0,
        px_is: 0,
        px_ie: 0,
        px_cmd: 0,
        px_tfd: 0,
        px_sig: 0,
        px_ssts: 0,
        px_sctl: 0,
        px_serr: 0,
        px_sact: 0,
        px_ci: 0,
        received: [0; 256],
        phases: [0; 32],
    }
}
