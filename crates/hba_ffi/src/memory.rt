//! What the controller reads and writes in the driver's memory.

ghost use Rattle.std.specs.Prelude.{◌≡◌};
ghost use Rattle.ahci_hba.specs.Moving.{put_done, spoiled, unmapped};
ghost use Rattle.hba_ffi.specs.Calls.{AnswersBytes, AnswersSupply};

use ahci_ffi::Status;
use ahci_hba::Hba;
use sector_store::SectorStore;
use std::alloc::Allocator;

/// Supplies the bytes that the controller reads.
pub fn supply<A: Allocator + Copy, S: SectorStore>(hba: &mut Hba<A, S>, bytes: &[u8]) -> Status
    ensures { AnswersSupply bytes.now result hba.old hba.new }
{
    if bytes.len() != hba.read_length() {
        return Status::WrongLength;
    }
    match hba.supply(bytes) {
        Ok(()) => Status::Done,
        Err(refused) => refused.into(),
    }
}

/// Copies the bytes that the controller writes.
pub fn bytes<A: Allocator, S: SectorStore>(hba: &Hba<A, S>, out: &mut [u8]) -> Status
    ensures { AnswersBytes result hba.now out.old out.new }
{
    let bytes = hba.bytes();
    if out.len() != bytes.len() {
        return Status::WrongLength;
    }
    out.copy_from_slice(bytes);
    Status::Done
}

/// The bytes that the controller writes are written.
pub fn written<A: Allocator, S: SectorStore>(hba: &mut Hba<A, S>) -> Status
    ensures done { result ≡ Status.Done }
    ensures state { hba.new ≡ put_done hba.old hba.old.dma }
{
    hba.written();
    Status::Done
}

/// The address that the controller reads or writes is no memory.
pub fn unmapped<A: Allocator, S: SectorStore>(hba: &mut Hba<A, S>) -> Status
    ensures done { result ≡ Status.Done }
    ensures state { hba.new ≡ unmapped hba.old hba.old.dma }
{
    hba.fail_memory();
    Status::Done
}

/// The memory that the controller reads or writes gives or takes wrong data.
pub fn spoiled<A: Allocator, S: SectorStore>(hba: &mut Hba<A, S>) -> Status
    ensures done { result ≡ Status.Done }
    ensures state { hba.new ≡ spoiled hba.old hba.old.dma }
{
    hba.fail_data();
    Status::Done
}
