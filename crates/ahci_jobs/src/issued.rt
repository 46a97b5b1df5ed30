use ncq_journal::Op;
use std::alloc::Allocator;

/// What is kept of the request of a tag while a journal is written as a script.
#[derive(Clone, Copy, Debug, PartialEq, Eq)]
pub(crate) struct Issued {
    /// The place of its Issue entry.
    pub number: u64,
    /// It passes the disk's last sector, so that it fails as it is accepted.
    pub is_outside: bool,
}

/// One for each number that a tag's byte can be.
pub(crate) const TAGS: usize = 256;

impl Issued {
    ghost use Rattle.std.specs.Prelude.{◌≡◌, Some};
    ghost use Rattle.ncq_journal.specs.Work.{work_of};
    ghost use Rattle.ahci_jobs.specs.Scripts.{issued_by, nothing_issued};

    /// Of a tag that was never issued.
    pub(crate) fn none() -> Issued
        ensures { result ≡ nothing_issued }
    {
        Issued {
            number: 0,
            is_outside: false,
        }
    }

    /// Of a request at a place of the journal, on a disk of so many sectors.
    pub(crate) fn of<A: Allocator>(sectors: u32, place: u64, op: &Op<A>) -> Issued
        ensures { result ≡ issued_by sectors (Some (record { number = place; work = work_of op.now })) }
    {
        Issued {
            number: place,
            is_outside: op.lba() > u64::from(sectors)
                || op.sectors() > u64::from(sectors) - op.lba(),
        }
    }
}
