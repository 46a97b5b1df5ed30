//! How ports are made and freed.

ghost use Rattle.std.specs.Prelude.{◌*◌, length, replicate, true};
ghost use Rattle.ahci_port.specs.PortView.{port_from, port_over};
ghost use Rattle.sector_store.specs.Shown.{buffer_sector, joined};
ghost use Rattle.ahci_ffi.specs.{Making.{over_refusal, size_refusal}, Over.{Empties, Fills}, PlaceView.{view_of}};

use ahci_ffi::{Place, Status};
use std::alloc::Global;

/// Makes a port over a copy of an image, in an empty place.
#[unsafe(no_mangle)]
pub extern "C" fn ahci_port_new(port: &mut Place, heap: Global, image: &[u8], depth: u32) -> u32
    ensures { Fills result (view_of port.old) (view_of port.new) (size_refusal (length image.now) depth 0) (port_from 0 image.now depth) }
{
    if port.is_full() {
        return Status::PortThere.code();
    }
    port.fill(ahci_ffi::make(heap, image, depth, 0))
}

/// The same over a disk of zeros.
#[unsafe(no_mangle)]
pub extern "C" fn ahci_port_new_zeros(
    port: &mut Place,
    heap: Global,
    sectors: u32,
    depth: u32,
) -> u32
    ensures { Fills result (view_of port.old) (view_of port.new) (size_refusal (512 * sectors) depth 0) (port_from 0 (replicate (512 * sectors) 0) depth) }
{
    if port.is_full() {
        return Status::PortThere.code();
    }
    port.fill(ahci_ffi::make_zeros(heap, sectors, depth))
}

/// The same over a copy of an image, where the journal's first entry has the number `first`.
#[unsafe(no_mangle)]
pub extern "C" fn ahci_port_resume(
    port: &mut Place,
    heap: Global,
    image: &[u8],
    depth: u32,
    first: u64,
) -> u32
    ensures { Fills result (view_of port.old) (view_of port.new) (size_refusal (length image.now) depth first) (port_from first image.now depth) }
{
    if port.is_full() {
        return Status::PortThere.code();
    }
    port.fill(ahci_ffi::make(heap, image, depth, first))
}

/// Makes a port over a disk of so many sectors, in an empty place: its sectors are those of `base`, and zeros after them, until they are
/// written. The journal's first entry has the number `first`. The bytes of `base` never change and live as long as the port.
#[unsafe(no_mangle)]
pub extern "C" fn ahci_port_over(
    port: &mut Place,
    heap: Global,
    base: &'static [u8],
    sectors: u32,
    depth: u32,
    first: u64,
) -> u32
    ensures { Fills result (view_of port.old) (view_of port.new) (over_refusal sectors depth first) (port_over true first (joined (buffer_sector base.now) sectors) depth) }
{
    if port.is_full() {
        return Status::PortThere.code();
    }
    port.fill(ahci_ffi::make_over(heap, base, sectors, depth, first))
}

/// Frees a port, and leaves its place empty.
#[unsafe(no_mangle)]
pub extern "C" fn ahci_port_free(port: &mut Place, heap: Global) -> u32
    ensures { Empties result (view_of port.old) (view_of port.new) }
{
    port.empty(heap)
}
