//! The calls that need no port.

ghost use Rattle.std.specs.Prelude.{◌≡◌, length};
ghost use Rattle.ncq_core.specs.{Identify.{identify_page}, Log.{log_page}};
ghost use Rattle.ahci_ffi.specs.{
  Alone.{AnswersCheck, log_refusal, page_refusal},
  Choosing.{AnswersTag, AnswersTurn},
  Fises.{AnswersDecode, AnswersEncode, fis_named},
  Judging.{AnswersJournal},
  Names.{AnswersText},
  Over.{Numbered},
  Told.{Told},
};

use ahci_ffi::{FlatCommand, FlatEntry, FlatFis};
use std::alloc::Global;

/// Reads a FIS.
#[unsafe(no_mangle)]
pub extern "C" fn ahci_fis_decode(bytes: &[u8], fis: &mut FlatFis) -> u32
    ensures { Numbered result (λ answer. AnswersDecode bytes.now answer fis.old fis.new) }
{
    ahci_ffi::fis_decode(bytes, fis).code()
}

/// Writes a FIS, with this payload where it is Data.
#[unsafe(no_mangle)]
pub extern "C" fn ahci_fis_encode(
    fis: &FlatFis,
    payload: &[u8],
    out: &mut [u8],
    length: &mut usize,
) -> u32
    ensures { Numbered result (λ answer. AnswersEncode (fis_named fis.now payload.now) answer out.old out.new length.old length.new) }
{
    ahci_ffi::fis_encode(fis, payload, out, length).code()
}

/// Whether a port would take a window, and what it asks for then.
#[unsafe(no_mangle)]
pub extern "C" fn ahci_window_check(
    heap: Global,
    tag: u32,
    header: &[u8],
    memory: &[u8],
    command: &mut FlatCommand,
) -> u32
    ensures { Numbered result (λ answer. AnswersCheck tag header.now memory.now answer command.old command.new) }
{
    ahci_ffi::window_check(heap, tag, header, memory, command).code()
}

/// Copies the page of IDENTIFY DEVICE of a disk.
#[unsafe(no_mangle)]
pub extern "C" fn ahci_identify_page(sectors: u32, depth: u32, out: &mut [u8]) -> u32
    ensures { Numbered result (λ answer. Told answer (page_refusal depth (length out.old)) (out.new ≡ identify_page sectors depth) (out.new ≡ out.old)) }
{
    ahci_ffi::identify_page(sectors, depth, out).code()
}

/// Copies page 0 of log 10h after an error.
#[unsafe(no_mangle)]
pub extern "C" fn ahci_log_page(tag: u32, error: u8, lba: u64, out: &mut [u8]) -> u32
    ensures { Numbered result (λ answer. Told answer (log_refusal tag lba (length out.old)) (out.new ≡ log_page (record { tag = tag; error = error; lba = lba })) (out.new ≡ out.old)) }
{
    ahci_ffi::log_page(tag, error, lba, out).code()
}

/// Looks at events as a journal from its beginning on: which may follow which.
#[unsafe(no_mangle)]
pub extern "C" fn ahci_journal_check(
    sectors: u32,
    depth: u32,
    events: &[FlatEntry],
    first_bad: &mut usize,
) -> u32
    ensures { Numbered result (λ answer. AnswersJournal sectors depth events.now answer first_bad.old first_bad.new) }
{
    ahci_ffi::journal_check(sectors, depth, events, first_bad).code()
}

/// The tag of a set that an order names.
#[unsafe(no_mangle)]
pub extern "C" fn ahci_choose_tag(order: u32, set: u32, draw: u64, tag: &mut u32) -> u32
    ensures { Numbered result (λ answer. AnswersTag order set draw answer tag.old tag.new) }
{
    ahci_ffi::choose_tag(order, set, draw, tag).code()
}

/// The tags of a set that the device completes next, or the one that it fails.
#[unsafe(no_mangle)]
pub extern "C" fn ahci_choose_tags(
    order: u32,
    set: u32,
    failing: u32,
    most: u32,
    draws: &[u64],
    tags: &mut [u8],
    length: &mut usize,
) -> u32
    ensures { Numbered result (λ answer. AnswersTurn order set failing most draws.now answer tags.old tags.new length.old length.new) }
{
    ahci_ffi::choose_tags(order, set, failing, most, draws, tags, length).code()
}

/// The name of the status of a number.
#[unsafe(no_mangle)]
pub extern "C" fn ahci_status_text(status: u32, out: &mut [u8], length: &mut usize) -> u32
    ensures { Numbered result (λ answer. AnswersText status answer out.old out.new length.old length.new) }
{
    ahci_ffi::status_text(status, out, length).code()
}
