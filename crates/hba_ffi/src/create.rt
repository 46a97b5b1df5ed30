//! How a controller is made.

ghost use Rattle.std.specs.Prelude.{◌≡◌, ◌/◌, length, true, None};
ghost use Rattle.sector_store.specs.Shown.{buffer_sector, joined};
ghost use Rattle.ncq_core.specs.DiskState.{over_fault};
ghost use Rattle.ahci_ffi.specs.Making.{Makes, over_refusal, size_refusal};
ghost use Rattle.ahci_hba.specs.States.{hba_over, hba_with, new_hba};
ghost use Rattle.hba_ffi.specs.Capable.{capabilities_for, making_refusal, or_kind, over_making_refusal};

use crate::capable::capabilities_of;
use crate::flat::FlatCapabilities;
use crate::held::CHba;
use ahci_ffi::{Status, over_refusal, size_refusal};
use ahci_hba::Hba;
use hba_regs::Capabilities;
use ncq_core::DiskFault;
use port_refusal::Refusal;
use sector_store::{SectorStore, Sectors};
use std::alloc::{AllocError, Allocator, Global};

/// A controller after power-on, in front of a disk with a copy of an image. Size and depth are looked at before memory is asked for.
pub fn make<A: Allocator + Copy>(
    alloc: A,
    image: &[u8],
    depth: u32,
) -> Result<Box<Hba<A, Sectors<A>>, A>, Status>
    ensures { Makes (size_refusal (length image.now) depth 0) result (λ box. box.value ≡ new_hba image.now depth) }
{
    if let Some(refusal) = size_refusal(image.len(), depth, 0) {
        return Err(refusal);
    }
    whole(alloc, image, depth, Capabilities::new())
}

/// The same with these capabilities.
pub fn make_with<A: Allocator + Copy>(
    alloc: A,
    image: &[u8],
    depth: u32,
    capabilities: &FlatCapabilities,
) -> Result<Box<Hba<A, Sectors<A>>, A>, Status>
    ensures { Makes (making_refusal (length image.now) depth capabilities.now) result
        (λ box. box.value ≡ hba_with image.now depth (capabilities_for capabilities.now)) }
{
    if let Some(refusal) = size_refusal(image.len(), depth, 0) {
        return Err(refusal);
    }
    let Some(capabilities) = capabilities_of(capabilities) else {
        return Err(Status::BadKind);
    };
    whole(alloc, image, depth, capabilities)
}

/// The same in front of a disk of so many sectors, which are those of these bytes, and zeros after them, until they are written. The bytes
/// never change. Memory is taken for the pages that are written.
pub fn make_over(
    heap: Global,
    base: &'static [u8],
    sectors: u32,
    depth: u32,
    capabilities: &FlatCapabilities,
) -> Result<Box<CHba>, Status>
    ensures { Makes (over_making_refusal sectors depth capabilities.now) result
        (λ box. box.value ≡ hba_over true (joined (buffer_sector base.now) sectors) depth (capabilities_for capabilities.now)) }
{
    if let Some(refusal) = over_refusal(sectors, depth, 0) {
        return Err(refusal);
    }
    let Some(capabilities) = capabilities_of(capabilities) else {
        return Err(Status::BadKind);
    };
    let store = Sectors::over(heap, base, u64::from(sectors))?;
    boxed(heap, store, depth, capabilities)
}

/// The same of a size and a depth that nothing is wrong with.
#[tactic(auto, using(ahci_ffi::proofs::MakingLemmas::image_is_whole, ahci_ffi::proofs::MakingLemmas::image_fits))]
fn whole<A: Allocator + Copy>(
    alloc: A,
    image: &[u8],
    depth: u32,
    capabilities: Capabilities,
) -> Result<Box<Hba<A, Sectors<A>>, A>, Status>
    requires { size_refusal (length image.now) depth 0 ≡ None }
    ensures { Makes None result (λ box. box.value ≡ hba_with image.now depth capabilities) }
{
    let bytes = Vec::from_slice(alloc, image)?;
    let store = Sectors::whole(alloc, bytes)?;
    boxed(alloc, store, depth, capabilities)
}

/// A controller in front of a disk over a store, in a box of its own.
fn boxed<A: Allocator + Copy>(
    alloc: A,
    store: Sectors<A>,
    depth: u32,
    capabilities: Capabilities,
) -> Result<Box<Hba<A, Sectors<A>>, A>, Status>
    requires kept { length (⟦<Sectors<A> as SectorStore>⟧.starting store) ≡ length (⟦<Sectors<A> as SectorStore>⟧.image store) }
    requires sizes { over_fault (length (⟦<Sectors<A> as SectorStore>⟧.image store) / 512) depth ≡ None }
    ensures { Makes None result (λ box. box.value ≡ hba_over (⟦<Sectors<A> as SectorStore>⟧.grows store) (⟦<Sectors<A> as SectorStore>⟧.image store) depth capabilities) }
{
    let hba = match Hba::over(alloc, store, depth, capabilities) {
        Ok(hba) => hba,
        Err(DiskFault::OutOfMemory) => return Err(Status::Refused(Refusal::OutOfMemory)),
        Err(_) => unreachable!(), // the sizes are a disk's
    };
    match Box::new(alloc, hba) {
        Ok(hba) => Ok(hba),
        Err(failed) => Err(AllocError::from(failed).into()),
    }
}
