use std::marker::Model;

/// Set Device Bits FIS - Device to Host (Serial ATA): the tags that are done. Bits 7 and 3 of the status, BSY and
/// DRQ, aren't in the FIS and are 0.
#[derive(Clone, Copy, Debug, PartialEq, Eq)]
pub struct SetBits {
    /// Bit I: the FIS asks for an interrupt.
    pub i: bool,
    pub status: u8,
    pub error: u8,
    /// SActive: a 1 for each tag that is done.
    pub sactive: u32,
}

impl Model for SetBits {
    ghost use Rattle.std.specs.Prelude.{◌≡◌, bit_and};
    ghost use Rattle.sata_fis.specs.Fields.{SetBitsFields};

    ghost Value = { SetBitsFields };

    ghost view = { λ f. f };

    ghost invariant = { λ f. bit_and f.status 0x77 ≡ f.status };

    ghost inverse = { λ f. f };
}
