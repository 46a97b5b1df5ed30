//! How ports are made.

ghost use Rattle.std.specs.Prelude.{◌≡◌, ◌*◌, ◌/◌, ◌<◌, length, replicate, true, None};
ghost use Rattle.sector_store.specs.Shown.{buffer_sector, joined};
ghost use Rattle.ahci_port.specs.Faults as port;
ghost use Rattle.ahci_port.specs.PortView.{port_from, port_over};
ghost use Rattle.ahci_ffi.specs.Making.{Makes, number_refusal, over_refusal, size_refusal};

use crate::held::CPort;
use crate::status::Status;
use ahci_port::{MOST_FIRST, Port, ResumeFault};
use ncq_core::{MAX_DEPTH, MAX_SECTORS, SECTOR};
use port_refusal::Refusal;
use sector_store::{SectorStore, Sectors};
use std::alloc::{AllocError, Allocator, Global};

/// A port over a copy of an image, whose journal's first entry has the number `first`. Size, depth and number are looked at
/// before memory is asked for.
pub fn make<A: Allocator + Copy>(
    alloc: A,
    image: &[u8],
    depth: u32,
    first: u64,
) -> Result<Box<Port<A, Sectors<A>>, A>, Status>
    ensures { Makes (size_refusal (length image.now) depth first) result (λ box. box.value ≡ port_from first image.now depth) }
{
    if let Some(refusal) = size_refusal(image.len(), depth, first) {
        return Err(refusal);
    }
    let bytes = Vec::from_slice(alloc, image)?;
    whole(alloc, bytes, depth, first)
}

/// A port over a disk of zeros.
pub fn make_zeros<A: Allocator + Copy>(
    alloc: A,
    sectors: u32,
    depth: u32,
) -> Result<Box<Port<A, Sectors<A>>, A>, Status>
    ensures { Makes (size_refusal (512 * sectors) depth 0) result (λ box. box.value ≡ port_from 0 (replicate (512 * sectors) 0) depth) }
{
    let size = SECTOR * sectors as usize;
    if let Some(refusal) = size_refusal(size, depth, 0) {
        return Err(refusal);
    }
    let bytes = vec![in alloc; 0u8; size]?;
    whole(alloc, bytes, depth, 0)
}

/// A port over a disk of so many sectors, which are those of these bytes, and zeros after them, until they are written. The bytes never
/// change. Memory is taken for the pages that are written.
pub fn make_over(
    heap: Global,
    base: &'static [u8],
    sectors: u32,
    depth: u32,
    first: u64,
) -> Result<Box<CPort>, Status>
    ensures { Makes (over_refusal sectors depth first) result (λ box. box.value ≡ port_over true first (joined (buffer_sector base.now) sectors) depth) }
{
    if let Some(refusal) = over_refusal(sectors, depth, first) {
        return Err(refusal);
    }
    let store = Sectors::over(heap, base, u64::from(sectors))?;
    boxed(heap, store, depth, first)
}

/// Why no port is made of so many bytes, with so many slots, and from this number on.
pub fn size_refusal(bytes: usize, depth: u32, first: u64) -> Option<Status>
    ensures { result ≡ size_refusal bytes depth first }
{
    if bytes == 0 || bytes % SECTOR != 0 || bytes / SECTOR > MAX_SECTORS as usize {
        return Some(Status::Refused(Refusal::BadSize));
    }
    number_refusal(depth, first)
}

/// Why no port is made over a base, of so many sectors, with so many slots, and from this number on.
pub fn over_refusal(sectors: u32, depth: u32, first: u64) -> Option<Status>
    ensures { result ≡ over_refusal sectors depth first }
{
    if sectors == 0 {
        return Some(Status::Refused(Refusal::BadSize));
    }
    number_refusal(depth, first)
}

/// Why no port is made with so many slots, and from this number on.
fn number_refusal(depth: u32, first: u64) -> Option<Status>
    ensures { result ≡ number_refusal depth first }
{
    if depth == 0 || depth > MAX_DEPTH {
        return Some(Status::Refused(Refusal::BadDepth));
    }
    if first > MOST_FIRST {
        return Some(Status::Refused(Refusal::BadFirst));
    }
    None
}

/// A port over this image, in a box of its own.
#[tactic(auto, using(crate::proofs::MakingLemmas::image_is_whole, crate::proofs::MakingLemmas::image_may))]
fn whole<A: Allocator + Copy>(
    alloc: A,
    image: Vec<u8, A>,
    depth: u32,
    first: u64,
) -> Result<Box<Port<A, Sectors<A>>, A>, Status>
    requires { size_refusal (length image.items) depth first ≡ None }
    ensures { Makes None result (λ box. box.value ≡ port_from first image.items depth) }
{
    let store = Sectors::whole(alloc, image)?;
    boxed(alloc, store, depth, first)
}

/// A port over a store, in a box of its own.
fn boxed<A: Allocator + Copy>(
    alloc: A,
    store: Sectors<A>,
    depth: u32,
    first: u64,
) -> Result<Box<Port<A, Sectors<A>>, A>, Status>
    requires kept { length (⟦<Sectors<A> as SectorStore>⟧.starting store) ≡ length (⟦<Sectors<A> as SectorStore>⟧.image store) }
    requires sizes { port.over_refusal (length (⟦<Sectors<A> as SectorStore>⟧.image store) / 512) depth first ≡ None }
    ensures { Makes None result (λ box. box.value ≡ port_over (⟦<Sectors<A> as SectorStore>⟧.grows store) first (⟦<Sectors<A> as SectorStore>⟧.image store) depth) }
{
    let port = match Port::resume_over(alloc, store, depth, first) {
        Ok(port) => port,
        Err(ResumeFault::OutOfMemory) => return Err(Status::Refused(Refusal::OutOfMemory)),
        Err(_) => unreachable!(), // the sizes are a port's
    };
    match Box::new(alloc, port) {
        Ok(port) => Ok(port),
        Err(failed) => Err(AllocError::from(failed).into()),
    }
}
