//! Each export that may ask for memory does what was asked where there is enough; its clause lets it lack memory at any time. No
//! crate can use a static library, so these tests are here.
use crate::alone::ahci_window_check;
use crate::create::{ahci_port_free, ahci_port_new, ahci_port_new_zeros, ahci_port_resume};
use crate::device::{ahci_port_accept, ahci_port_fail};
use crate::registers::ahci_port_write_register;
use crate::software::{
    ahci_port_flush, ahci_port_identify, ahci_port_issue, ahci_port_recover, ahci_port_submit,
};
use ahci_ffi::{FlatCommand, FlatStep, FlatWritten, Place};
use ahci_port::Pending;
use std::alloc::Global;
use std::test::Fail;

/// The header of slot 0: CFL 5, W, one entry, and the table at the base of tag 0, 10000000h (AHCI 1.3.1, "Building a Command").
const HEADER: [u8; 32] = [
    0x45, 0, 1, 0, 0, 0, 0, 0, 0, 0, 0, 0x10, 0, 0, 0, 0, 0, 0, 0, 0, 0, 0, 0, 0, 0, 0, 0, 0, 0, 0,
    0, 0,
];

/// CFIS: WRITE FPDMA QUEUED of one sector from sector 5 on, with tag 0.
const COMMAND: [u8; 9] = [0x27, 0x80, 0x61, 1, 5, 0, 0, 0x40, 0];

/// The entry of the PRDT: 512 bytes at 10000090h.
const ENTRY: [u8; 16] = [0x90, 0, 0, 0x10, 0, 0, 0, 0, 0, 0, 0, 0, 0xFF, 0x01, 0, 0];

/// The memory from the tag's base on.
fn window() -> [u8; 0x290] {
    let mut memory = [0; 0x290];
    memory[..9].copy_from_slice(&COMMAND);
    memory[0x80..0x90].copy_from_slice(&ENTRY);
    memory
}

/// The command list.
fn list() -> [u8; 1024] {
    let mut list = [0; 1024];
    list[..32].copy_from_slice(&HEADER);
    list
}

/// The windows of 32 slots, one after the other, of which slot 0's is laid out.
fn windows() -> [u8; 0x5200] {
    let mut windows = [0; 0x5200];
    windows[..0x290].copy_from_slice(&window());
    windows
}

/// A place with a port over 8 sectors of zeros, with four slots, or an empty one where none was made.
fn place_of(heap: Global) -> Place {
    let mut place = Place::without(heap, Pending::nothing());
    ahci_port_new_zeros(&mut place, heap, 8, 4);
    place
}

/// A driver's write of a register.
fn writes(place: &mut Place, heap: Global, offset: u32, word: u32) -> u32 {
    let mut done = FlatWritten {
        did: 0,
        slots: 0,
        tag: 0,
    };
    ahci_port_write_register(place, heap, offset, word, &list(), &windows(), &mut done)
}

#[test]
fn a_port_is_made_in_three_ways(rt: HostRuntime) -> Result<(), Fail> {
    let heap = rt.alloc();
    let mut place = Place::without(heap, Pending::nothing());
    let said = [
        ahci_port_new(&mut place, heap, &[0x5A; 1024], 4),
        ahci_port_free(&mut place, heap),
        ahci_port_resume(&mut place, heap, &[0x5A; 1024], 4, 7),
        ahci_port_free(&mut place, heap),
        ahci_port_new_zeros(&mut place, heap, 8, 4),
        ahci_port_free(&mut place, heap),
    ];
    assert_eq!(rt; said, [0; 6]);
    Ok(())
}

#[test]
fn a_command_is_issued_in_three_ways(rt: HostRuntime) -> Result<(), Fail> {
    let heap = rt.alloc();
    let mut one = place_of(heap);
    let mut two = place_of(heap);
    let mut three = place_of(heap);
    let said = [
        ahci_port_submit(&mut one, heap, 0, 1, 5, 1, &[0; 512], &mut 0),
        ahci_port_issue(&mut two, heap, 0, &HEADER, &window(), &mut 0),
        writes(&mut three, heap, 0x134, 1),
        writes(&mut three, heap, 0x138, 1),
        ahci_window_check(heap, 0, &HEADER, &window(), &mut FlatCommand::default()),
    ];
    assert_eq!(rt; said, [0; 5]);
    Ok(())
}

#[test]
fn a_port_without_a_queue_is_asked_and_a_failed_one_recovers(rt: HostRuntime) -> Result<(), Fail> {
    let heap = rt.alloc();
    let mut place = place_of(heap);
    let mut tag = 9;
    let said = [
        ahci_port_identify(&mut place, heap, &mut [0; 512]),
        ahci_port_flush(&mut place, heap),
        ahci_port_submit(&mut place, heap, 2, 0, 5, 1, &[], &mut 0),
        ahci_port_accept(&mut place, heap, 2, &mut FlatStep::default()),
        ahci_port_fail(&mut place, heap, 2, 0x40, 5, &mut FlatStep::default()),
        ahci_port_recover(&mut place, heap, &mut tag),
    ];
    assert_eq!(rt; (said, tag), ([0; 6], 2));
    Ok(())
}
