use std::marker::Model;

/// PIO Setup FIS - Device to Host (Serial ATA): a transfer by PIO, and the status before and after it. The LBA is
/// below 2^48.
#[derive(Clone, Copy, Debug, PartialEq, Eq)]
pub struct PioSetup {
    /// Bit I: the FIS asks for an interrupt.
    pub i: bool,
    /// Bit D: the data goes from the device to the host.
    pub d: bool,
    pub status: u8,
    pub error: u8,
    pub lba: u64,
    pub device: u8,
    pub count: u16,
    /// The status after the transfer.
    pub e_status: u8,
    /// The transfer count, in bytes.
    pub bytes: u16,
}

impl Model for PioSetup {
    ghost use Rattle.std.specs.Prelude.{◌<◌, ◌^◌};
    ghost use Rattle.sata_fis.specs.Fields.{PioSetupFields};

    ghost Value = { PioSetupFields };

    ghost view = { λ f. f };

    ghost invariant = { λ f. f.lba < 2 ^ 48 };

    ghost inverse = { λ f. f };
}
