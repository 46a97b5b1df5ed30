//! What can be seen of a port.

ghost use Rattle.std.specs.Prelude.{◌≡◌, None, length};
ghost use Rattle.ahci_port.specs.PortView.{sectors_in};
ghost use Rattle.ncq_journal.specs.{Numbering.{entry_numbered}, Sector.{sector}};
ghost use Rattle.ahci_ffi.specs.{
  Done.{IsSets},
  Flat.{flat_slot},
  Over.{Reads},
  PlaceView.{view_of},
  Refusals.{copy_refusal, received_refusal, with_tag},
  Seen.{AnswersBytes, AnswersEntry, AnswersTouched, IsState, written_by},
  Told.{Told},
};

use ahci_ffi::{FlatEntry, FlatSets, FlatSlot, FlatState, Place, Status};
use std::alloc::Global;

/// How many slots there are.
#[unsafe(no_mangle)]
pub extern "C" fn ahci_port_depth(port: &mut Place, heap: Global, depth: &mut u32) -> u32
    ensures { Reads result (view_of port.old) (view_of port.new) (depth.new ≡ depth.old)
        (λ answer port. (answer ≡ Status.Done) × (depth.new ≡ port.depth)) }
{
    over!(port, heap, |held| ahci_ffi::depth(&held, depth))
}

/// How many sectors the disk has.
#[unsafe(no_mangle)]
pub extern "C" fn ahci_port_sectors(port: &mut Place, heap: Global, sectors: &mut u32) -> u32
    ensures { Reads result (view_of port.old) (view_of port.new) (sectors.new ≡ sectors.old)
        (λ answer port. (answer ≡ Status.Done) × (sectors.new ≡ sectors_in port)) }
{
    over!(port, heap, |held| ahci_ffi::sectors(&held, sectors))
}

/// Copies the received FIS area.
#[unsafe(no_mangle)]
pub extern "C" fn ahci_port_received(port: &mut Place, heap: Global, out: &mut [u8]) -> u32
    ensures { Reads result (view_of port.old) (view_of port.new) (out.new ≡ out.old)
        (λ answer port. Told answer (received_refusal (length out.old)) (out.new ≡ port.area) (out.new ≡ out.old)) }
{
    over!(port, heap, |held| ahci_ffi::received(&held, out))
}

/// Which tags wait for what.
#[unsafe(no_mangle)]
pub extern "C" fn ahci_port_tag_sets(port: &mut Place, heap: Global, sets: &mut FlatSets) -> u32
    ensures { Reads result (view_of port.old) (view_of port.new) (sets.new ≡ sets.old)
        (λ answer port. (answer ≡ Status.Done) × IsSets port sets.new) }
{
    over!(port, heap, |held| ahci_ffi::tag_sets(&held, sets))
}

/// One slot.
#[unsafe(no_mangle)]
pub extern "C" fn ahci_port_slot(
    port: &mut Place,
    heap: Global,
    tag: u32,
    slot: &mut FlatSlot,
) -> u32
    ensures { Reads result (view_of port.old) (view_of port.new) (slot.new ≡ slot.old)
        (λ answer port. Told answer (with_tag tag None) (slot.new ≡ flat_slot port tag) (slot.new ≡ slot.old)) }
{
    over!(port, heap, |held| ahci_ffi::slot(&held, tag, slot))
}

/// Copies a sector as it is now.
#[unsafe(no_mangle)]
pub extern "C" fn ahci_port_copy(port: &mut Place, heap: Global, lba: u64, out: &mut [u8]) -> u32
    ensures { Reads result (view_of port.old) (view_of port.new) (out.new ≡ out.old)
        (λ answer port. Told answer (copy_refusal port lba (length out.old)) (out.new ≡ sector port.starting port.past lba) (out.new ≡ out.old)) }
{
    over!(port, heap, |held| ahci_ffi::copy(&held, lba, out))
}

/// Copies the numbers of the pages of eight sectors that may have changed since the journal began.
#[unsafe(no_mangle)]
pub extern "C" fn ahci_port_touched(
    port: &mut Place,
    heap: Global,
    pages: &mut [u32],
    touched: &mut u64,
) -> u32
    ensures { Reads result (view_of port.old) (view_of port.new) ((pages.new ≡ pages.old) × (touched.new ≡ touched.old))
        (λ answer port. AnswersTouched port answer touched.new pages.old pages.new) }
{
    over!(port, heap, |held| ahci_ffi::touched(&held, pages, touched))
}

/// The entry of a number of the journal.
#[unsafe(no_mangle)]
pub extern "C" fn ahci_port_entry(
    port: &mut Place,
    heap: Global,
    number: u64,
    entry: &mut FlatEntry,
) -> u32
    ensures { Reads result (view_of port.old) (view_of port.new) (entry.new ≡ entry.old)
        (λ answer port. AnswersEntry (entry_numbered port.first port.past number) answer entry.old entry.new) }
{
    over!(port, heap, |held| ahci_ffi::entry(&held, number, entry))
}

/// Copies the bytes of the write that the entry of a number has issued.
#[unsafe(no_mangle)]
pub extern "C" fn ahci_port_entry_bytes(
    port: &mut Place,
    heap: Global,
    number: u64,
    out: &mut [u8],
) -> u32
    ensures { Reads result (view_of port.old) (view_of port.new) (out.new ≡ out.old)
        (λ answer port. AnswersBytes (written_by (entry_numbered port.first port.past number)) answer out.old out.new) }
{
    over!(port, heap, |held| ahci_ffi::entry_bytes(&held, number, out))
}

/// All that can be seen of a port at once.
#[unsafe(no_mangle)]
pub extern "C" fn ahci_port_state(port: &mut Place, heap: Global, state: &mut FlatState) -> u32
    ensures { Reads result (view_of port.old) (view_of port.new) (state.new ≡ state.old)
        (λ answer port. (answer ≡ Status.Done) × IsState port state.new) }
{
    over!(port, heap, |held| ahci_ffi::state(&held, state))
}
