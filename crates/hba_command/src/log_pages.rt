use std::marker::Model;

/// Some pages of a log, one after the other: at least one, of pages 00h to 06h.
#[derive(Clone, Copy, Debug, PartialEq, Eq)]
pub struct LogPages {
    /// The first page.
    pub first: u32,
    /// How many pages of 512 bytes.
    pub count: u32,
}

impl Model for LogPages {
    ghost use Rattle.std.specs.Prelude.{◌+◌, ◌≤◌};
    ghost use Rattle.hba_command.specs.LogPages.{LogPagesFields};

    ghost Value = { LogPagesFields };

    ghost view = { λ p. p };

    ghost invariant = { λ p. (1 ≤ p.count) × (p.first + p.count ≤ 7) };

    ghost inverse = { λ p. p };
}
