//! How the journal is thrown away.

ghost use Rattle.std.specs.Prelude.{◌≡◌};
ghost use Rattle.hba_ffi.specs.Calls.{AnswersTrim};

use ahci_ffi::Status;
use ahci_hba::Hba;
use sector_store::SectorStore;
use std::alloc::Allocator;

/// Throws the journal away, with its memory: `entries` is how many it had.
pub fn trim<A: Allocator + Copy, S: SectorStore>(hba: &mut Hba<A, S>, entries: &mut u64) -> Status
    ensures { AnswersTrim result hba.old hba.new entries.old entries.new }
{
    match hba.trim() {
        Ok(journal) => {
            *entries = journal.len();
            Status::Done
        }
        Err(fault) => Status::Refused(fault.into()),
    }
}
