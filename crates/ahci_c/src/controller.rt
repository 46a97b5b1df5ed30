//! The controller for C: how one is made and freed, a driver's accesses, and what the controller reads and writes.
#![tactic(auto, using(hba_ffi::proofs::OverLemmas::none_changes, hba_ffi::proofs::OverLemmas::none_reads, hba_ffi::proofs::OverLemmas::some_changes, hba_ffi::proofs::OverLemmas::some_reads))]

ghost use Rattle.std.specs.Prelude.{◌≡◌, length, true, ⊤};
ghost use Rattle.ahci_ffi.specs.Making.{size_refusal};
ghost use Rattle.sector_store.specs.Shown.{buffer_sector, joined};
ghost use Rattle.ahci_hba.specs.{Moving.{put_done, spoiled, unmapped}, States.{hba_over, hba_with, new_hba}};
ghost use Rattle.hba_ffi.specs.{
  Calls.{AnswersBytes, AnswersPowerOn, AnswersRead, AnswersSupply, AnswersWrite},
  Capable.{capabilities_for, making_refusal, over_making_refusal},
  Looking.{IsLook},
  Over.{Changes, Empties, Fills, Reads},
  PlaceView.{view_of},
};

use ahci_ffi::Status;
use hba_ffi::{FlatCapabilities, FlatHba, HbaPlace};
use std::alloc::Global;

/// Makes a controller in front of a disk with a copy of an image, in an empty place.
#[unsafe(no_mangle)]
pub extern "C" fn ahci_hba_new(hba: &mut HbaPlace, heap: Global, image: &[u8], depth: u32) -> u32
    ensures { Fills result (view_of hba.old) (view_of hba.new) (size_refusal (length image.now) depth 0) (new_hba image.now depth) }
{
    if hba.is_full() {
        return Status::PortThere.code();
    }
    hba.fill(hba_ffi::make(heap, image, depth))
}

/// The same with these capabilities.
#[unsafe(no_mangle)]
pub extern "C" fn ahci_hba_new_with(
    hba: &mut HbaPlace,
    heap: Global,
    image: &[u8],
    depth: u32,
    capabilities: &FlatCapabilities,
) -> u32
    ensures { Fills result (view_of hba.old) (view_of hba.new) (making_refusal (length image.now) depth capabilities.now)
        (hba_with image.now depth (capabilities_for capabilities.now)) }
{
    if hba.is_full() {
        return Status::PortThere.code();
    }
    hba.fill(hba_ffi::make_with(heap, image, depth, capabilities))
}

/// The same in front of a disk of so many sectors, which are those of `base`, and zeros after them, until they are written. The bytes of `base`
/// never change and live as long as the controller.
#[unsafe(no_mangle)]
pub extern "C" fn ahci_hba_over(
    hba: &mut HbaPlace,
    heap: Global,
    base: &'static [u8],
    sectors: u32,
    depth: u32,
    capabilities: &FlatCapabilities,
) -> u32
    ensures { Fills result (view_of hba.old) (view_of hba.new) (over_making_refusal sectors depth capabilities.now)
        (hba_over true (joined (buffer_sector base.now) sectors) depth (capabilities_for capabilities.now)) }
{
    if hba.is_full() {
        return Status::PortThere.code();
    }
    hba.fill(hba_ffi::make_over(heap, base, sectors, depth, capabilities))
}

/// Frees a controller, and leaves its place empty.
#[unsafe(no_mangle)]
pub extern "C" fn ahci_hba_free(hba: &mut HbaPlace, heap: Global) -> u32
    ensures { Empties result (view_of hba.old) (view_of hba.new) }
{
    hba.empty(heap)
}

/// What a driver reads at an offset, in so many bytes.
#[unsafe(no_mangle)]
pub extern "C" fn ahci_hba_read(
    hba: &mut HbaPlace,
    heap: Global,
    offset: u32,
    bytes: u32,
    value: &mut u64,
) -> u32
    ensures { Reads result (view_of hba.old) (view_of hba.new) (value.new ≡ value.old)
        (λ answer h. AnswersRead offset bytes answer h value.old value.new) }
{
    over!(hba, heap, |held| hba_ffi::read(&held, offset, bytes, value))
}

/// Takes what a driver writes at an offset, in so many bytes.
#[unsafe(no_mangle)]
pub extern "C" fn ahci_hba_write(
    hba: &mut HbaPlace,
    heap: Global,
    offset: u32,
    bytes: u32,
    value: u64,
    entries: &mut u64,
) -> u32
    ensures { Changes result (view_of hba.old) (view_of hba.new) (entries.new ≡ entries.old)
        (λ answer old new. AnswersWrite offset bytes value answer old new entries.old entries.new) }
{
    over!(
        hba,
        heap,
        |held| hba_ffi::write(&mut held, offset, bytes, value, entries)
    )
}

/// Power-on.
#[unsafe(no_mangle)]
pub extern "C" fn ahci_hba_power_on(hba: &mut HbaPlace, heap: Global, entries: &mut u64) -> u32
    ensures { Changes result (view_of hba.old) (view_of hba.new) (entries.new ≡ entries.old)
        (λ answer old new. AnswersPowerOn answer old new entries.new) }
{
    over!(hba, heap, |held| hba_ffi::power_on(&mut held, entries))
}

/// What the controller does next.
#[unsafe(no_mangle)]
pub extern "C" fn ahci_hba_look(hba: &mut HbaPlace, heap: Global, state: &mut FlatHba) -> u32
    ensures { Reads result (view_of hba.old) (view_of hba.new) (state.new ≡ state.old)
        (λ answer h. (answer ≡ Status.Done) × IsLook h state.new) }
{
    over!(hba, heap, |held| hba_ffi::look(&held, state))
}

/// Supplies the bytes that the controller reads.
#[unsafe(no_mangle)]
pub extern "C" fn ahci_hba_supply(hba: &mut HbaPlace, heap: Global, bytes: &[u8]) -> u32
    ensures { Changes result (view_of hba.old) (view_of hba.new) ⊤ (λ answer old new. AnswersSupply bytes.now answer old new) }
{
    over!(hba, heap, |held| hba_ffi::supply(&mut held, bytes))
}

/// Copies the bytes that the controller writes.
#[unsafe(no_mangle)]
pub extern "C" fn ahci_hba_bytes(hba: &mut HbaPlace, heap: Global, out: &mut [u8]) -> u32
    ensures { Reads result (view_of hba.old) (view_of hba.new) (out.new ≡ out.old) (λ answer h. AnswersBytes answer h out.old out.new) }
{
    over!(hba, heap, |held| hba_ffi::bytes(&held, out))
}

/// The bytes that the controller writes are written.
#[unsafe(no_mangle)]
pub extern "C" fn ahci_hba_written(hba: &mut HbaPlace, heap: Global) -> u32
    ensures { Changes result (view_of hba.old) (view_of hba.new) ⊤
        (λ answer old new. (answer ≡ Status.Done) × (new ≡ put_done old old.dma)) }
{
    over!(hba, heap, |held| hba_ffi::written(&mut held))
}

/// The address that the controller reads or writes is no memory.
#[unsafe(no_mangle)]
pub extern "C" fn ahci_hba_unmapped(hba: &mut HbaPlace, heap: Global) -> u32
    ensures { Changes result (view_of hba.old) (view_of hba.new) ⊤
        (λ answer old new. (answer ≡ Status.Done) × (new ≡ unmapped old old.dma)) }
{
    over!(hba, heap, |held| hba_ffi::unmapped(&mut held))
}

/// The memory that the controller reads or writes gives or takes wrong data.
#[unsafe(no_mangle)]
pub extern "C" fn ahci_hba_spoiled(hba: &mut HbaPlace, heap: Global) -> u32
    ensures { Changes result (view_of hba.old) (view_of hba.new) ⊤
        (λ answer old new. (answer ≡ Status.Done) × (new ≡ spoiled old old.dma)) }
{
    over!(hba, heap, |held| hba_ffi::spoiled(&mut held))
}
