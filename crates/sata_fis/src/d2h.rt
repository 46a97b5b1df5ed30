use std::marker::Model;

/// Register FIS - Device to Host (Serial ATA): the device's status. The LBA is below 2^48.
#[derive(Clone, Copy, Debug, PartialEq, Eq)]
pub struct D2h {
    /// Bit I: the FIS asks for an interrupt.
    pub i: bool,
    pub status: u8,
    pub error: u8,
    pub lba: u64,
    pub device: u8,
    pub count: u16,
}

impl Model for D2h {
    ghost use Rattle.std.specs.Prelude.{◌<◌, ◌^◌};
    ghost use Rattle.sata_fis.specs.Fields.{D2hFields};

    ghost Value = { D2hFields };

    ghost view = { λ f. f };

    ghost invariant = { λ f. f.lba < 2 ^ 48 };

    ghost inverse = { λ f. f };
}
