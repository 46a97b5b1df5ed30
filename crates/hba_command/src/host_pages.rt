use crate::addressing::Addressing;
use std::marker::Model;

/// Some pages of a log of the host's, one after the other: at least one, of pages 00h to 0Fh of logs 80h to 9Fh (ACS-3, "Host Specific logs").
#[derive(Clone, Copy, Debug, PartialEq, Eq)]
pub struct HostPages {
    /// The log.
    pub log: u8,
    /// The first page.
    pub first: u32,
    /// How many pages of 512 bytes.
    pub count: u32,
    /// How the command named them: SMART READ LOG and SMART WRITE LOG are of 28 bits.
    pub addressing: Addressing,
}

impl Model for HostPages {
    ghost use Rattle.std.specs.Prelude.{◌+◌, ◌≤◌};
    ghost use Rattle.hba_command.specs.HostPages.{HostPagesFields};

    ghost Value = { HostPagesFields };

    ghost view = { λ p. p };

    ghost invariant = { λ p. (0x80 ≤ p.log) × (p.log ≤ 0x9F) × (1 ≤ p.count) × (p.first + p.count ≤ 16) };

    ghost inverse = { λ p. p };
}
