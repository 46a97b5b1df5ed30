use std::marker::Model;

/// Register FIS - Host to Device (Serial ATA): a command or a control of the device. The LBA is below 2^48.
#[derive(Clone, Copy, Debug, PartialEq, Eq)]
pub struct H2d {
    /// Bit C: the FIS carries a command, rather than a device control.
    pub c: bool,
    pub command: u8,
    pub features: u16,
    pub lba: u64,
    pub device: u8,
    pub count: u16,
    pub control: u8,
}

impl Model for H2d {
    ghost use Rattle.std.specs.Prelude.{◌<◌, ◌^◌};
    ghost use Rattle.sata_fis.specs.Fields.{H2dFields};

    ghost Value = { H2dFields };

    ghost view = { λ f. f };

    ghost invariant = { λ f. f.lba < 2 ^ 48 };

    ghost inverse = { λ f. f };
}
