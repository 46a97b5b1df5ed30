//! The tests for values of unknown origin, before a literal of a type that keeps its ranges.

ghost use Rattle.std.specs.Prelude.{◌≡◌, ◌<◌, ◌≤◌, ◌^◌, ◌↔◌, IsTrue, bit_and};

/// Whether a number has 48 bits, as each `lba` of this crate.
pub fn is_lba(lba: u64) -> bool
    ensures { IsTrue result ↔ (lba < 2 ^ 48) }
{
    lba < 1 << 48
}

/// Whether a number is below 32, as each `tag` of this crate.
pub fn is_tag(tag: u8) -> bool
    ensures { IsTrue result ↔ (tag < 32) }
{
    tag < 32
}

/// Whether a number of sectors fits a queued command: 1 to 65,536.
pub fn is_sector_count(sectors: u32) -> bool
    ensures { IsTrue result ↔ ((1 ≤ sectors) × (sectors ≤ 65536)) }
{
    (1..=65_536).contains(&sectors)
}

/// Whether a status fits Set Device Bits: its bits 7 and 3 (BSY and DRQ) are 0.
pub fn is_set_bits_status(status: u8) -> bool
    ensures { IsTrue result ↔ (bit_and status 0x77 ≡ status) }
{
    status & 0x77 == status
}
