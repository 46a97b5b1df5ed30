//! The sectors that WRITE UNCORRECTABLE EXT has marked (ACS-3, "WRITE UNCORRECTABLE EXT").

ghost use Rattle.std.specs.Prelude.{◌≡◌, ◌<◌, ◌+◌, ◌^◌, ◌≤◌, ◌++◌, [], true, IfSome};
ghost use Rattle.std.specs.List.{range_with_len};
ghost use Rattle.arrayvec.specs.ArrayVec.{array_vec_len};
ghost use Rattle.hba_command.specs.Uncorrectable.{first_marked, has_room, is_among, marked_with, without};

use arrayvec::ArrayVec;
use std::marker::Model;

/// How many sectors the disk marks at most.
const MOST: usize = 64;

/// The marked sectors by their LBAs, at most 64. A contract sees the list.
#[derive(Drop)]
pub struct Uncorrectable {
    marks: ArrayVec<u64, MOST>,
}

impl Model for Uncorrectable {
    ghost use Rattle.std.specs.Prelude.{ℕ, List};

    ghost Value = { List ℕ };

    ghost view = { λ u. u.marks.items };
}

/// Whether an LBA is one of so many sectors from a first one on.
fn is_among(first: u64, sectors: u32, lba: u64) -> bool
    ensures { result ≡ is_among first sectors lba }
{
    first <= lba && lba - first < u64::from(sectors)
}

impl Uncorrectable {
    /// No sector is marked.
    pub fn new() -> Self
        ensures { result ≡ [] }
    {
        Uncorrectable {
            marks: ArrayVec::new(),
        }
    }

    /// The marked sector with the least LBA, of so many from a first one on.
    pub fn first_marked(&self, first: u64, sectors: u32) -> Option<u64>
        ensures value { result ≡ first_marked first sectors self.now }
        ensures among { IfSome result (λ lba. (first ≤ lba) × (lba < first + sectors)) }
    {
        self.least(first, sectors)
    }

    /// The least LBA of those marks.
    fn least(&self, first: u64, sectors: u32) -> Option<u64>
        ensures { result ≡ first_marked first sectors self.now }
    {
        self.marks
            .iter()
            .copied()
            .filter(|lba| is_among(first, sectors, *lba))
            .min()
    }

    /// Some sectors are written, and have no mark any more.
    pub fn clear(&mut self, first: u64, sectors: u32)
        ensures { self.new ≡ without first sectors self.old }
    {
        self.marks.retain(|lba| !is_among(first, sectors, *lba));
    }

    /// Whether there is room for the marks of so many sectors.
    pub fn has_room(&self, first: u64, sectors: u32) -> bool
        ensures { result ≡ has_room first sectors self.now }
    {
        let others = self
            .marks
            .iter()
            .copied()
            .filter(|lba| !is_among(first, sectors, *lba))
            .count();
        others + sectors as usize <= MOST
    }

    /// Marks some sectors, for which there is room.
    pub fn mark(&mut self, first: u64, sectors: u32)
        requires room { has_room first sectors self.old ≡ true }
        requires fits { first + sectors < 2 ^ 64 }
        ensures { self.new ≡ marked_with first sectors self.old }
    {
        self.clear(first, sectors);
        append(&mut self.marks, first, sectors);
    }
}

/// Appends so many LBAs from a first one on, for which there is room.
fn append(marks: &mut ArrayVec<u64, MOST>, first: u64, sectors: u32)
    requires room { array_vec_len marks.old + sectors ≤ 64 }
    requires fits { first + sectors < 2 ^ 64 }
    ensures { marks.new.items ≡ marks.old.items ++ range_with_len first sectors }
{
    for index in 0..sectors {
        marks.push(first + u64::from(index));
    }
}
