use std::marker::Model;

/// The error that stopped a disk. The tag is below 32, the LBA below 2^48.
#[derive(Clone, Copy, Debug)]
pub(crate) struct DiskError {
    /// The tag of the command that failed.
    pub(crate) tag: u8,
    /// The error byte (ACS-3, "Error field").
    pub(crate) error: u8,
    /// The sector at which it failed.
    pub(crate) lba: u64,
}

impl Model for DiskError {
    ghost use Rattle.std.specs.Prelude.{◌<◌, ◌^◌};
    ghost use Rattle.ncq_core.specs.DiskState.{DiskError};

    ghost Value = { DiskError };

    ghost view = { λ e. e };

    ghost invariant = { λ e. (e.tag < 32) × (e.error < 256) × (e.lba < 2 ^ 48) };

    ghost inverse = { λ e. e };
}
