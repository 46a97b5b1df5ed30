use byteorder::{ByteOrder, LittleEndian};
use sata_fis::is_set;

/// A command header, of 32 bytes in the command list (AHCI 1.3.1, section 4.2.2). P, the port multiplier port and the reserved
/// bits have no effect, and PRDBC is the controller's to write.
#[derive(Clone, Copy, Debug, PartialEq, Eq)]
pub struct CommandHeader {
    /// CFL: how many dwords of the command FIS there are.
    pub fis_dwords: u8,
    /// A: an ATAPI command comes with it.
    pub atapi: bool,
    /// W: the data goes to the device.
    pub write: bool,
    /// R: the command is part of a software reset.
    pub reset: bool,
    /// B: the command is for a BIST FIS.
    pub bist: bool,
    /// C: BSY is cleared once the device has the FIS, and no other FIS answers.
    pub clears_busy: bool,
    /// PRDTL: how many entries the PRDT has.
    pub entries: u16,
    /// CTBA and CTBAU: the address of the command table, a multiple of 128.
    pub table: u64,
}

impl CommandHeader {
    ghost use Rattle.std.specs.Prelude.{◌≡◌};
    ghost use Rattle.hba_command.specs.CommandHeader.{header_at};

    /// What the 32 bytes of a header say.
    pub fn at(bytes: &[u8; 32]) -> Self
        ensures { result ≡ header_at bytes.now }
    {
        let low = LittleEndian::read_u32(&bytes[8..]) / 128 * 128;
        let high = LittleEndian::read_u32(&bytes[12..]);
        CommandHeader {
            fis_dwords: bytes[0] % 32,
            atapi: is_set(bytes[0], 5),
            write: is_set(bytes[0], 6),
            reset: is_set(bytes[1], 0),
            bist: is_set(bytes[1], 1),
            clears_busy: is_set(bytes[1], 2),
            entries: LittleEndian::read_u16(&bytes[2..]),
            table: u64::from(low) + (u64::from(high) << 32),
        }
    }
}
