//! How sectors of a buffer become zeros.

ghost use Rattle.std.specs.Prelude.{◌≡◌, ◌+◌, ◌*◌, ◌≤◌, length};
ghost use Rattle.ncq_journal.specs.Image.{IsZeroedOver};

/// Makes so many sectors of an image zeros, from `lba` on.
pub fn zero_sectors(image: &mut [u8], lba: u64, sectors: u64)
    requires { 512 * (lba + sectors) ≤ length image.old }
    ensures zeroed { IsZeroedOver lba sectors image.old image.new }
    ensures len { length image.new ≡ length image.old }
{
    let start = lba as usize * 512;
    let end = start + sectors as usize * 512;
    image[start..end].fill(0);
}
