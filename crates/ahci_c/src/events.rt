//! The controller for C: what the link, the disk and the interface do by themselves.
#![tactic(auto, using(hba_ffi::proofs::OverLemmas::none_changes, hba_ffi::proofs::OverLemmas::none_reads, hba_ffi::proofs::OverLemmas::some_changes, hba_ffi::proofs::OverLemmas::some_reads))]

ghost use Rattle.std.specs.Prelude.{◌≡◌, ◌==◌, not, ⊤};
ghost use Rattle.ahci_hba.specs.Events.{device_plugged, device_unplugged, link_found, link_lost, lost_journal, unplugged_journal};
ghost use Rattle.hba_ffi.specs.{
  Events.{AnswersBits, AnswersInterface, AnswersRegister, AnswersSignAs, AnswersUnknown, HasHandedOut, error_numbered, kind_numbered},
  Over.{Changes},
  PlaceView.{view_of},
  Plugging.{AnswersOther},
};

use ahci_ffi::Status;
use hba_ffi::{FlatIdentity, HbaPlace};
use std::alloc::Global;

/// The link is lost.
#[unsafe(no_mangle)]
pub extern "C" fn ahci_hba_lose_link(hba: &mut HbaPlace, heap: Global, entries: &mut u64) -> u32
    ensures { Changes result (view_of hba.old) (view_of hba.new) (entries.new ≡ entries.old)
        (λ answer old new. (answer ≡ Status.Done) × (new ≡ link_lost old) × HasHandedOut (lost_journal old) entries.new) }
{
    over!(hba, heap, |held| hba_ffi::lose_link(&mut held, entries))
}

/// The device makes itself known.
#[unsafe(no_mangle)]
pub extern "C" fn ahci_hba_find_link(hba: &mut HbaPlace, heap: Global) -> u32
    ensures { Changes result (view_of hba.old) (view_of hba.new) ⊤ (λ answer old new. (answer ≡ Status.Done) × (new ≡ link_found old)) }
{
    over!(hba, heap, |held| hba_ffi::find_link(&mut held))
}

/// The disk is pulled out.
#[unsafe(no_mangle)]
pub extern "C" fn ahci_hba_unplug(hba: &mut HbaPlace, heap: Global, entries: &mut u64) -> u32
    ensures { Changes result (view_of hba.old) (view_of hba.new) (entries.new ≡ entries.old)
        (λ answer old new. (answer ≡ Status.Done) × (new ≡ device_unplugged old) × HasHandedOut (unplugged_journal old) entries.new) }
{
    over!(hba, heap, |held| hba_ffi::unplug(&mut held, entries))
}

/// The disk is plugged in.
#[unsafe(no_mangle)]
pub extern "C" fn ahci_hba_plug(hba: &mut HbaPlace, heap: Global) -> u32
    ensures { Changes result (view_of hba.old) (view_of hba.new) ⊤ (λ answer old new. (answer ≡ Status.Done) × (new ≡ device_plugged old)) }
{
    over!(hba, heap, |held| hba_ffi::plug(&mut held))
}

/// Another disk of so many sectors is plugged in where one was pulled out. Its sectors are those of `base`, and zeros after them, until they are written; the
/// bytes of `base` never change and live as long as the disk is there.
#[unsafe(no_mangle)]
pub extern "C" fn ahci_hba_plug_other(
    hba: &mut HbaPlace,
    heap: Global,
    base: &'static [u8],
    sectors: u32,
    depth: u32,
    identity: &FlatIdentity,
    entries: &mut u64,
) -> u32
    ensures { Changes result (view_of hba.old) (view_of hba.new) (entries.new ≡ entries.old)
        (λ answer old new. AnswersOther base.now sectors depth identity.now answer old new entries.old entries.new) }
{
    over!(
        hba,
        heap,
        |held| hba_ffi::plug_other(&mut held, heap, base, sectors, depth, identity, entries)
    )
}

/// The interface fails under a FIS; the error is fatal unless `is_fatal` is 0.
#[unsafe(no_mangle)]
pub extern "C" fn ahci_hba_fail_interface(
    hba: &mut HbaPlace,
    heap: Global,
    error: u32,
    is_fatal: u32,
) -> u32
    ensures { Changes result (view_of hba.old) (view_of hba.new) ⊤ (λ answer old new. AnswersInterface (error_numbered error) (not (is_fatal == 0)) answer old new) }
{
    over!(
        hba,
        heap,
        |held| hba_ffi::fail_interface(&mut held, error, is_fatal != 0)
    )
}

/// The device sends the signature of a device of another kind.
#[unsafe(no_mangle)]
pub extern "C" fn ahci_hba_sign_as(hba: &mut HbaPlace, heap: Global, kind: u32) -> u32
    ensures { Changes result (view_of hba.old) (view_of hba.new) ⊤ (λ answer old new. AnswersSignAs (kind_numbered kind) answer old new) }
{
    over!(hba, heap, |held| hba_ffi::sign_as(&mut held, kind))
}

/// The device sends a Set Device Bits FIS that no command asks for, with N unless `notification` is 0.
#[unsafe(no_mangle)]
pub extern "C" fn ahci_hba_receive_bits(hba: &mut HbaPlace, heap: Global, notification: u32) -> u32
    ensures { Changes result (view_of hba.old) (view_of hba.new) ⊤ (λ answer old new. AnswersBits (not (notification == 0)) answer old new) }
{
    over!(
        hba,
        heap,
        |held| hba_ffi::receive_bits(&mut held, notification != 0)
    )
}

/// The device sends a D2H Register FIS that no command asks for.
#[unsafe(no_mangle)]
pub extern "C" fn ahci_hba_receive_register(hba: &mut HbaPlace, heap: Global) -> u32
    ensures { Changes result (view_of hba.old) (view_of hba.new) ⊤ (λ answer old new. AnswersRegister answer old new) }
{
    over!(hba, heap, |held| hba_ffi::receive_register(&mut held))
}

/// The device sends a FIS of a type that isn't known.
#[unsafe(no_mangle)]
pub extern "C" fn ahci_hba_receive_unknown(hba: &mut HbaPlace, heap: Global, fis: &[u8]) -> u32
    ensures { Changes result (view_of hba.old) (view_of hba.new) ⊤ (λ answer old new. AnswersUnknown fis.now answer old new) }
{
    over!(hba, heap, |held| hba_ffi::receive_unknown(&mut held, fis))
}
