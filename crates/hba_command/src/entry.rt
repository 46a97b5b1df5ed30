use byteorder::{ByteOrder, LittleEndian};

/// An entry of a PRDT: a run of bytes in the driver's memory (AHCI 1.3.1, section 4.2.3).
#[derive(Clone, Copy, Debug, PartialEq, Eq)]
pub struct PrdEntry {
    /// DBA and DBAU: where the run begins, at an even address. Bit 0 is reserved, and taken as 0.
    pub address: u64,
    /// DBC and one: how many bytes it has, an even number from 2 to 4 MiB. Bit 0 of DBC is always 1, and taken so.
    pub length: u32,
    /// I: DPS is set once all of these bytes have moved (sections 3.3.5 and 4.2.3.3).
    pub interrupt: bool,
}

impl PrdEntry {
    ghost use Rattle.std.specs.Prelude.{◌≡◌};
    ghost use Rattle.hba_command.specs.PrdEntry.{entry_at};

    /// What the 16 bytes of an entry say.
    pub fn at(bytes: &[u8; 16]) -> Self
        ensures { result ≡ entry_at bytes.now }
    {
        let low = LittleEndian::read_u32(&bytes[..]) / 2 * 2;
        let high = LittleEndian::read_u32(&bytes[4..]);
        let word = LittleEndian::read_u32(&bytes[12..]);
        let count = word % (1 << 22);
        PrdEntry {
            address: u64::from(low) + (u64::from(high) << 32),
            length: count / 2 * 2 + 2,
            interrupt: word >= 1 << 31,
        }
    }
}
