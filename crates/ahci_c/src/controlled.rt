//! The controller for C: the device's steps, and what can be seen of the queue behind it.
#![tactic(auto, using(hba_ffi::proofs::OverLemmas::none_changes, hba_ffi::proofs::OverLemmas::none_reads, hba_ffi::proofs::OverLemmas::some_changes, hba_ffi::proofs::OverLemmas::some_reads))]

ghost use Rattle.std.specs.Prelude.{◌≡◌, length, ⊤};
ghost use Rattle.ncq_journal.specs.{Numbering.{entry_numbered}, Sector.{sector}};
ghost use Rattle.ahci_ffi.specs.{Refusals.{copy_refusal}, Seen.{AnswersBytes, AnswersEntry, AnswersTouched, IsState, written_by}, Told.{Told}};
ghost use Rattle.hba_ffi.specs.{
  Calls.{AnswersEnd, AnswersFail, AnswersRefuse, AnswersSign, AnswersStep, AnswersTrim, AnswersTrimRange},
  Looking.{AnswersLeft},
  Over.{Changes, Reads},
  PlaceView.{view_of},
};

use ahci_ffi::{FlatEntry, FlatState, Status};
use hba_ffi::HbaPlace;
use std::alloc::Global;

/// Takes the next step with the command of a slot.
#[unsafe(no_mangle)]
pub extern "C" fn ahci_hba_step(
    hba: &mut HbaPlace,
    heap: Global,
    slot: u32,
    entries: &mut u64,
) -> u32
    ensures { Changes result (view_of hba.old) (view_of hba.new) (entries.new ≡ entries.old)
        (λ answer old new. AnswersStep slot answer old new entries.old entries.new) }
{
    over!(hba, heap, |held| hba_ffi::step(&mut held, slot, entries))
}

/// The sectors that the next step of a slot's command makes zeros.
#[unsafe(no_mangle)]
pub extern "C" fn ahci_hba_trim_range(
    hba: &mut HbaPlace,
    heap: Global,
    slot: u32,
    lba: &mut u64,
    sectors: &mut u32,
) -> u32
    ensures { Reads result (view_of hba.old) (view_of hba.new) ((lba.new ≡ lba.old) × (sectors.new ≡ sectors.old))
        (λ answer h. AnswersTrimRange slot answer h lba.old lba.new sectors.old sectors.new) }
{
    over!(
        hba,
        heap,
        |held| hba_ffi::trim_range(&held, slot, lba, sectors)
    )
}

/// The device fails a queued command that it has taken.
#[unsafe(no_mangle)]
pub extern "C" fn ahci_hba_fail(
    hba: &mut HbaPlace,
    heap: Global,
    slot: u32,
    error: u8,
    lba: u64,
) -> u32
    ensures { Changes result (view_of hba.old) (view_of hba.new) ⊤ (λ answer old new. AnswersFail slot error lba answer old new) }
{
    over!(hba, heap, |held| hba_ffi::fail(&mut held, slot, error, lba))
}

/// The device fails a command that is read and not queued.
#[unsafe(no_mangle)]
pub extern "C" fn ahci_hba_refuse(
    hba: &mut HbaPlace,
    heap: Global,
    slot: u32,
    error: u8,
    lba: u64,
) -> u32
    ensures { Changes result (view_of hba.old) (view_of hba.new) ⊤ (λ answer old new. AnswersRefuse slot error lba answer old new) }
{
    over!(
        hba,
        heap,
        |held| hba_ffi::refuse(&mut held, slot, error, lba)
    )
}

/// The device ends a command that is read and not queued with any status.
#[unsafe(no_mangle)]
pub extern "C" fn ahci_hba_end(
    hba: &mut HbaPlace,
    heap: Global,
    slot: u32,
    status: u8,
    error: u8,
    lba: u64,
) -> u32
    ensures { Changes result (view_of hba.old) (view_of hba.new) ⊤ (λ answer old new. AnswersEnd slot status error lba answer old new) }
{
    over!(
        hba,
        heap,
        |held| hba_ffi::end(&mut held, slot, status, error, lba)
    )
}

/// The device sends its signature.
#[unsafe(no_mangle)]
pub extern "C" fn ahci_hba_sign(hba: &mut HbaPlace, heap: Global) -> u32
    ensures { Changes result (view_of hba.old) (view_of hba.new) ⊤ (λ answer old new. AnswersSign answer old new) }
{
    over!(hba, heap, |held| hba_ffi::sign(&mut held))
}

/// Throws the journal away if the queue has no request.
#[unsafe(no_mangle)]
pub extern "C" fn ahci_hba_trim(hba: &mut HbaPlace, heap: Global, entries: &mut u64) -> u32
    ensures { Changes result (view_of hba.old) (view_of hba.new) (entries.new ≡ entries.old)
        (λ answer old new. AnswersTrim answer old new entries.old entries.new) }
{
    over!(hba, heap, |held| hba_ffi::trim(&mut held, entries))
}

/// Copies a sector as it is now.
#[unsafe(no_mangle)]
pub extern "C" fn ahci_hba_copy(hba: &mut HbaPlace, heap: Global, lba: u64, out: &mut [u8]) -> u32
    ensures { Reads result (view_of hba.old) (view_of hba.new) (out.new ≡ out.old)
        (λ answer h. Told answer (copy_refusal h.port lba (length out.old)) (out.new ≡ sector h.port.starting h.port.past lba) (out.new ≡ out.old)) }
{
    over!(hba, heap, |held| hba_ffi::copy(&held, lba, out))
}

/// Copies the numbers of the pages of eight sectors that may have changed since the journal began.
#[unsafe(no_mangle)]
pub extern "C" fn ahci_hba_touched(
    hba: &mut HbaPlace,
    heap: Global,
    pages: &mut [u32],
    touched: &mut u64,
) -> u32
    ensures { Reads result (view_of hba.old) (view_of hba.new) ((pages.new ≡ pages.old) × (touched.new ≡ touched.old))
        (λ answer h. AnswersTouched h.port answer touched.new pages.old pages.new) }
{
    over!(hba, heap, |held| hba_ffi::touched(&held, pages, touched))
}

/// The entry of a number of the journal.
#[unsafe(no_mangle)]
pub extern "C" fn ahci_hba_entry(
    hba: &mut HbaPlace,
    heap: Global,
    number: u64,
    entry: &mut FlatEntry,
) -> u32
    ensures { Reads result (view_of hba.old) (view_of hba.new) (entry.new ≡ entry.old)
        (λ answer h. AnswersEntry (entry_numbered h.port.first h.port.past number) answer entry.old entry.new) }
{
    over!(hba, heap, |held| hba_ffi::entry(&held, number, entry))
}

/// Copies the bytes of the write that the entry of a number has issued.
#[unsafe(no_mangle)]
pub extern "C" fn ahci_hba_entry_bytes(
    hba: &mut HbaPlace,
    heap: Global,
    number: u64,
    out: &mut [u8],
) -> u32
    ensures { Reads result (view_of hba.old) (view_of hba.new) (out.new ≡ out.old)
        (λ answer h. AnswersBytes (written_by (entry_numbered h.port.first h.port.past number)) answer out.old out.new) }
{
    over!(hba, heap, |held| hba_ffi::entry_bytes(&held, number, out))
}

/// Whether a sector may have these bytes after a loss of power.
#[unsafe(no_mangle)]
pub extern "C" fn ahci_hba_may_be_left(
    hba: &mut HbaPlace,
    heap: Global,
    was: &[u8],
    lba: u64,
    bytes: &[u8],
    may: &mut u32,
) -> u32
    ensures { Reads result (view_of hba.old) (view_of hba.new) (may.new ≡ may.old)
        (λ answer h. AnswersLeft h.port was.now lba bytes.now answer may.old may.new) }
{
    over!(
        hba,
        heap,
        |held| hba_ffi::may_be_left(&held, was, lba, bytes, may)
    )
}

/// All that can be seen of the queue behind the controller.
#[unsafe(no_mangle)]
pub extern "C" fn ahci_hba_port(hba: &mut HbaPlace, heap: Global, state: &mut FlatState) -> u32
    ensures { Reads result (view_of hba.old) (view_of hba.new) (state.new ≡ state.old)
        (λ answer h. (answer ≡ Status.Done) × IsState h.port state.new) }
{
    over!(hba, heap, |held| hba_ffi::port(&held, state))
}
