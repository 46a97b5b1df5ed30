use byteorder::{ByteOrder, LittleEndian};
use sata_fis::is_set;
use std::marker::Model;

/// The fields of a command header (AHCI 1.3.1, section 4.2.2).
#[derive(Clone, Copy)]
pub(crate) struct Header {
    /// The command FIS's length in dwords.
    pub(crate) cfl: u8,
    /// ATAPI.
    pub(crate) a: bool,
    /// Write: the data goes to the device.
    pub(crate) w: bool,
    /// Reset.
    pub(crate) r: bool,
    /// BIST.
    pub(crate) b: bool,
    /// Clear busy upon R_OK.
    pub(crate) c: bool,
    /// The entries of the PRDT.
    pub(crate) prdtl: u16,
    /// The command table's address, its low seven bits 0.
    pub(crate) ctba: u32,
    pub(crate) ctbau: u32,
}

impl Model for Header {
    ghost use Rattle.ahci_table.specs.Header.{HeaderFields};

    ghost Value = { HeaderFields };

    ghost view = { λ h. h };

    ghost inverse = { λ h. h };
}

impl Header {
    ghost use Rattle.std.specs.Prelude.{◌≡◌};
    ghost use Rattle.ahci_table.specs.Header.{header_at};

    /// What the 32 bytes of a header say.
    pub(crate) fn at(bytes: &[u8; 32]) -> Header
        ensures { result ≡ header_at bytes.now }
    {
        Header {
            cfl: bytes[0] % 32,
            a: is_set(bytes[0], 5),
            w: is_set(bytes[0], 6),
            r: is_set(bytes[1], 0),
            b: is_set(bytes[1], 1),
            c: is_set(bytes[1], 2),
            prdtl: LittleEndian::read_u16(&bytes[2..]),
            ctba: LittleEndian::read_u32(&bytes[8..]) / 128 * 128,
            ctbau: LittleEndian::read_u32(&bytes[12..]),
        }
    }
}
