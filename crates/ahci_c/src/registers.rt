//! The registers of a port.

ghost use Rattle.std.specs.Prelude.{◌≡◌, ⊤};
ghost use Rattle.ahci_port.specs.{Registers.{acknowledged}, Writes.{shown}};
ghost use Rattle.ahci_regs.specs.Reading.{read_of};
ghost use Rattle.ahci_ffi.specs.{Done.{AnswersRegister}, Over.{Changes, Reads, Writes}, PlaceView.{view_of}, Writing.{AnswersWrite}};

use ahci_ffi::{FlatWritten, Place, Status};
use std::alloc::Global;

/// Reads the register at an offset.
#[unsafe(no_mangle)]
pub extern "C" fn ahci_port_register(
    port: &mut Place,
    heap: Global,
    offset: u32,
    word: &mut u32,
) -> u32
    ensures { Reads result (view_of port.old) (view_of port.new) (word.new ≡ word.old)
        (λ answer port. AnswersRegister (read_of port.registers offset) answer word.old word.new) }
{
    over!(port, heap, |held| ahci_ffi::register(&held, offset, word))
}

/// Software acknowledges interrupts.
#[unsafe(no_mangle)]
pub extern "C" fn ahci_port_acknowledge(port: &mut Place, heap: Global, mask: u32) -> u32
    ensures { Changes result (view_of port.old) (view_of port.new) ⊤
        (λ answer old new. (answer ≡ Status.Done) × (new ≡ record old { registers = acknowledged old.registers mask })) }
{
    over!(port, heap, |held| ahci_ffi::acknowledge(&mut held, mask))
}

/// Takes a word that a driver writes to the register at an offset.
#[unsafe(no_mangle)]
pub extern "C" fn ahci_port_write_register(
    port: &mut Place,
    heap: Global,
    offset: u32,
    word: u32,
    list: &[u8],
    windows: &[u8],
    done: &mut FlatWritten,
) -> u32
    ensures { Writes result (view_of port.old) (view_of port.new) (done.new ≡ done.old)
        (λ answer old new before after. AnswersWrite offset word list.now windows.now answer old new before after done.old done.new) }
{
    let Some(mut held) = port.take(heap) else {
        return Status::NoPort.code();
    };
    let mut pending = port.pending();
    let answer = ahci_ffi::write_register(
        &mut held,
        &mut pending,
        offset,
        word,
        list,
        windows,
        done,
    );
    port.back_with(held, pending, answer)
}

/// Reads the register at an offset, as a driver finds it between its writes.
#[unsafe(no_mangle)]
pub extern "C" fn ahci_port_read_register(
    port: &mut Place,
    heap: Global,
    offset: u32,
    word: &mut u32,
) -> u32
    ensures { Reads result (view_of port.old) (view_of port.new) (word.new ≡ word.old)
        (λ answer held. AnswersRegister (read_of (shown held (view_of port.old).pending) offset) answer word.old word.new) }
{
    over!(
        port,
        heap,
        |held| ahci_ffi::read_register(&held, &port.pending(), offset, word)
    )
}
