use std::marker::Model;

/// DMA Setup FIS (Serial ATA): the command whose data comes next. The tag is below 32.
#[derive(Clone, Copy, Debug, PartialEq, Eq)]
pub struct DmaSetup {
    /// Bit A: auto-activate.
    pub a: bool,
    /// Bit I: the FIS asks for an interrupt.
    pub i: bool,
    /// Bit D: the data goes from the device to the host.
    pub d: bool,
    pub tag: u8,
    /// The buffer offset, in bytes.
    pub offset: u32,
    /// The transfer count, in bytes.
    pub count: u32,
}

impl Model for DmaSetup {
    ghost use Rattle.std.specs.Prelude.{◌<◌};
    ghost use Rattle.sata_fis.specs.Fields.{DmaSetupFields};

    ghost Value = { DmaSetupFields };

    ghost view = { λ f. f };

    ghost invariant = { λ f. f.tag < 32 };

    ghost inverse = { λ f. f };
}
