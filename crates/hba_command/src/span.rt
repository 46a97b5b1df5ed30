use crate::addressing::Addressing;
use std::marker::Model;

/// Some sectors of the disk, one after the other: 1 to 65,536 of them, from an LBA below 2^48 on.
#[derive(Clone, Copy, Debug, PartialEq, Eq)]
pub struct Span {
    /// The first sector.
    pub lba: u64,
    /// How many sectors of 512 bytes.
    pub sectors: u32,
    /// How the command named them.
    pub addressing: Addressing,
}

impl Model for Span {
    ghost use Rattle.std.specs.Prelude.{◌<◌, ◌≤◌, ◌^◌};
    ghost use Rattle.hba_command.specs.Span.{SpanFields};

    ghost Value = { SpanFields };

    ghost view = { λ s. s };

    ghost invariant = { λ s. (s.lba < 2 ^ 48) × (1 ≤ s.sectors) × (s.sectors ≤ 65536) };

    ghost inverse = { λ s. s };
}
