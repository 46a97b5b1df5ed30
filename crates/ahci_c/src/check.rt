//! The rules for drivers, for C: which of them an access or a command breaks.
#![tactic(auto, using(hba_ffi::proofs::OverLemmas::none_reads, hba_ffi::proofs::OverLemmas::some_reads))]

ghost use Rattle.std.specs.Prelude.{◌≡◌};
ghost use Rattle.ahci_ffi.specs.Over.{Numbered};
ghost use Rattle.hba_ffi.specs.{
  Judging.{AnswersCommandBreaks, AnswersEntryBreaks, AnswersLengthBreaks, AnswersWriteBreaks},
  Over.{Reads},
  PlaceView.{view_of},
};

use ahci_ffi::Status;
use hba_ffi::HbaPlace;
use std::alloc::Global;

/// Whether a word that a driver is about to write at an offset breaks the rule of a number.
#[unsafe(no_mangle)]
pub extern "C" fn ahci_hba_write_breaks(
    hba: &mut HbaPlace,
    heap: Global,
    rule: u32,
    offset: u32,
    word: u32,
    broken: &mut u32,
) -> u32
    ensures { Reads result (view_of hba.old) (view_of hba.new) (broken.new ≡ broken.old)
        (λ answer h. AnswersWriteBreaks rule offset word answer h broken.old broken.new) }
{
    over!(
        hba,
        heap,
        |held| hba_ffi::write_breaks(&held, rule, offset, word, broken)
    )
}

/// Whether the command of a slot breaks the rule of a number.
#[unsafe(no_mangle)]
pub extern "C" fn ahci_command_breaks(
    rule: u32,
    slot: u32,
    active: u32,
    header: &[u8],
    fis: &[u8],
    broken: &mut u32,
) -> u32
    ensures { Numbered result (λ answer. AnswersCommandBreaks rule slot active header.now fis.now answer broken.old broken.new) }
{
    hba_ffi::command_breaks(rule, slot, active, header, fis, broken).code()
}

/// Whether an entry of a PRDT breaks the rule of a number.
#[unsafe(no_mangle)]
pub extern "C" fn ahci_entry_breaks(rule: u32, entry: &[u8], broken: &mut u32) -> u32
    ensures { Numbered result (λ answer. AnswersEntryBreaks rule entry.now answer broken.old broken.new) }
{
    hba_ffi::entry_breaks(rule, entry, broken).code()
}

/// Whether a PRDT of so many bytes in all breaks the rule of a number, for the command of a command FIS.
#[unsafe(no_mangle)]
pub extern "C" fn ahci_length_breaks(rule: u32, fis: &[u8], total: u64, broken: &mut u32) -> u32
    ensures { Numbered result (λ answer. AnswersLengthBreaks rule fis.now total answer broken.old broken.new) }
{
    hba_ffi::length_breaks(rule, fis, total, broken).code()
}
