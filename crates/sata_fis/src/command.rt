use std::marker::Model;

/// READ or WRITE FPDMA QUEUED (ACS-3), with a tag below 32, an LBA below 2^48, 1 to 65,536 sectors.
#[derive(Clone, Copy, Debug, PartialEq, Eq)]
pub struct Queued {
    /// WRITE FPDMA QUEUED, rather than READ.
    pub write: bool,
    pub tag: u8,
    /// The first sector.
    pub lba: u64,
    /// How many sectors of 512 bytes.
    pub sectors: u32,
    /// Forced unit access.
    pub fua: bool,
}

impl Model for Queued {
    ghost use Rattle.std.specs.Prelude.{◌<◌, ◌≤◌, ◌^◌};
    ghost use Rattle.sata_fis.specs.Fields.{QueuedFields};

    ghost Value = { QueuedFields };

    ghost view = { λ q. q };

    ghost invariant = { λ q. (q.tag < 32) × (q.lba < 2 ^ 48) × (1 ≤ q.sectors) × (q.sectors ≤ 65536) };

    ghost inverse = { λ q. q };
}
