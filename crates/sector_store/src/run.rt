//! Sectors as they lie in memory.

ghost use Rattle.std.specs.Prelude.{◌≡◌, ◌+◌, ◌*◌, ◌≤◌, length, take, drop};

/// So many of these bytes from the sector `lba` on.
pub(crate) fn run_at(bytes: &[u8], lba: u64, len: usize) -> &[u8]
    requires { 512 * lba + len ≤ length bytes.now }
    ensures { result.now ≡ take len (drop (512 * lba) bytes.now) }
{
    let start = lba as usize * 512;
    &bytes[start..start + len]
}
