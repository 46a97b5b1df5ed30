//! What the device does.

ghost use Rattle.std.specs.Prelude.{◌≡◌};
ghost use Rattle.ahci_ffi.specs.{Calls.{AnswersAccept, AnswersFail, AnswersServe}, Over.{Changes}, PlaceView.{view_of}};

use ahci_ffi::{FlatStep, Place, Status};
use std::alloc::Global;

/// The device takes a tag's command.
#[unsafe(no_mangle)]
pub extern "C" fn ahci_port_accept(
    port: &mut Place,
    heap: Global,
    tag: u32,
    done: &mut FlatStep,
) -> u32
    ensures { Changes result (view_of port.old) (view_of port.new) (done.new ≡ done.old)
        (λ answer old new. AnswersAccept tag answer old new done.old done.new) }
{
    over!(port, heap, |held| ahci_ffi::accept(&mut held, tag, done))
}

/// The device serves the commands of some tags, in the list's order.
#[unsafe(no_mangle)]
pub extern "C" fn ahci_port_serve(
    port: &mut Place,
    heap: Global,
    tags: &[u8],
    done: &mut FlatStep,
) -> u32
    ensures { Changes result (view_of port.old) (view_of port.new) (done.new ≡ done.old)
        (λ answer old new. AnswersServe tags.now answer old new done.old done.new) }
{
    over!(port, heap, |held| ahci_ffi::serve(&mut held, tags, done))
}

/// The device fails a tag's accepted command.
#[unsafe(no_mangle)]
pub extern "C" fn ahci_port_fail(
    port: &mut Place,
    heap: Global,
    tag: u32,
    error: u8,
    lba: u64,
    done: &mut FlatStep,
) -> u32
    ensures { Changes result (view_of port.old) (view_of port.new) (done.new ≡ done.old)
        (λ answer old new. AnswersFail tag error lba answer old new done.old done.new) }
{
    over!(
        port,
        heap,
        |held| ahci_ffi::fail(&mut held, tag, error, lba, done)
    )
}
