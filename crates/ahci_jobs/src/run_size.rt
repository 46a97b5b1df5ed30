//! How large a run is.

ghost use Rattle.std.specs.Prelude.{◌≡◌, ◌≤◌};
ghost use Rattle.ahci_jobs.specs.Size.{size_of};

use ncq_core::MAX_SECTORS;
use std::marker::Model;

/// How large a run is: 1 to 32 workers, a port with 1 to 32 slots, and a disk of 1 to 131,072 sectors.
#[derive(Clone, Copy, Debug)]
pub struct RunSize {
    workers: u32,
    depth: u32,
    sectors: u32,
}

impl Model for RunSize {
    ghost use Rattle.ahci_jobs.specs.Size.{IsSize, Size};

    ghost Value = { Size };

    ghost view = { λ s. record { workers = s.workers; depth = s.depth; sectors = s.sectors } };

    ghost inverse = { λ d. record { workers = d.workers; depth = d.depth; sectors = d.sectors } };

    ghost invariant = { λ s. IsSize (record { workers = s.workers; depth = s.depth; sectors = s.sectors }) };
}

impl RunSize {
    /// So many workers, slots and sectors.
    pub fn new(workers: u32, depth: u32, sectors: u32) -> RunSize
        requires some { 1 ≤ workers }
        requires most { workers ≤ 32 }
        requires slots { 1 ≤ depth }
        requires deep { depth ≤ 32 }
        requires room { 1 ≤ sectors }
        requires limit { sectors ≤ MAX_SECTORS }
        ensures { result ≡ size_of workers depth sectors }
    {
        RunSize {
            workers,
            depth,
            sectors,
        }
    }

    /// How many workers there are.
    pub fn workers(&self) -> u32
        ensures is { result ≡ self.now.workers }
        ensures some { 1 ≤ result }
        ensures most { result ≤ 32 }
    {
        self.workers
    }

    /// How many slots the port has.
    pub fn depth(&self) -> u32
        ensures is { result ≡ self.now.depth }
        ensures some { 1 ≤ result }
        ensures most { result ≤ 32 }
    {
        self.depth
    }

    /// How many sectors of 512 bytes the disk has.
    pub fn sectors(&self) -> u32
        ensures is { result ≡ self.now.sectors }
        ensures some { 1 ≤ result }
        ensures most { result ≤ MAX_SECTORS }
    {
        self.sectors
    }
}
