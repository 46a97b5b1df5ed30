//! The controller for C: what names its disk, and whether that has a volatile write cache and trimmed sectors that read as zeros.
#![tactic(auto, using(hba_ffi::proofs::OverLemmas::none_changes, hba_ffi::proofs::OverLemmas::none_reads, hba_ffi::proofs::OverLemmas::some_changes, hba_ffi::proofs::OverLemmas::some_reads))]

ghost use Rattle.std.specs.Prelude.{◌≡◌, ◌==◌, not, ⊤};
ghost use Rattle.ahci_ffi.specs.Flat.{number_if};
ghost use Rattle.ahci_hba.specs.Keeping.{cached, trim_turned};
ghost use Rattle.hba_ffi.specs.{Naming.{AnswersNaming, is_identity}, Over.{Changes, Reads}, PlaceView.{view_of}};

use ahci_ffi::Status;
use hba_ffi::{FlatIdentity, HbaPlace};
use std::alloc::Global;

/// IDENTIFY DEVICE names the disk so from now on.
#[unsafe(no_mangle)]
pub extern "C" fn ahci_hba_identity(
    hba: &mut HbaPlace,
    heap: Global,
    identity: &FlatIdentity,
) -> u32
    ensures { Changes result (view_of hba.old) (view_of hba.new) ⊤
        (λ answer old new. AnswersNaming (is_identity identity.now) identity.now answer old new) }
{
    over!(hba, heap, |held| hba_ffi::identity(&mut held, identity))
}

/// The disk has a volatile write cache, which is enabled from now on, unless `supported` is 0.
#[unsafe(no_mangle)]
pub extern "C" fn ahci_hba_write_cache(hba: &mut HbaPlace, heap: Global, supported: u32) -> u32
    ensures { Changes result (view_of hba.old) (view_of hba.new) ⊤
        (λ answer old new. (answer ≡ Status.Done) × (new ≡ cached (not (supported == 0)) old)) }
{
    over!(
        hba,
        heap,
        |held| hba_ffi::write_cache(&mut held, supported != 0)
    )
}

/// Trimmed sectors read as zeros from now on, unless `supported` is 0.
#[unsafe(no_mangle)]
pub extern "C" fn ahci_hba_trim_zeros(hba: &mut HbaPlace, heap: Global, supported: u32) -> u32
    ensures { Changes result (view_of hba.old) (view_of hba.new) ⊤
        (λ answer old new. (answer ≡ Status.Done) × (new ≡ trim_turned (not (supported == 0)) old)) }
{
    over!(
        hba,
        heap,
        |held| hba_ffi::trim_zeros(&mut held, supported != 0)
    )
}

/// Whether the disk has a volatile write cache that is enabled.
#[unsafe(no_mangle)]
pub extern "C" fn ahci_hba_write_cache_enabled(
    hba: &mut HbaPlace,
    heap: Global,
    enabled: &mut u32,
) -> u32
    ensures { Reads result (view_of hba.old) (view_of hba.new) (enabled.new ≡ enabled.old)
        (λ answer now. (answer ≡ Status.Done) × (enabled.new ≡ number_if now.device.cache)) }
{
    over!(
        hba,
        heap,
        |held| hba_ffi::write_cache_enabled(&held, enabled)
    )
}
