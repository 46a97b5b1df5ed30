//! Page 0 of log 10h (ACS-3, "NCQ Command Error log").

ghost use Rattle.std.specs.Prelude.{◌≡◌, ◌<◌, ◌^◌};
ghost use Rattle.ncq_core.specs.Log.{log_head, log_page, checksum};

/// The byte that makes the sum of these and itself 0 modulo 256.
fn checksum(bytes: &[u8]) -> u8
    ensures { result ≡ checksum bytes.now }
{
    let mut sum = 0u8;
    for byte in bytes {
        sum = sum.wrapping_add(*byte);
    }
    sum.wrapping_neg()
}

/// Bytes 0 to 10: the tag, the status and the error, then the LBA's halves.
fn log_head(tag: u8, error: u8, lba: u64) -> [u8; 11]
    ensures { result ≡ log_head (record { tag = tag; error = error; lba = lba }) }
{
    let [lba_0, lba_1, lba_2, lba_3, lba_4, lba_5, _, _] = lba.to_le_bytes();
    [
        tag, 0, 0x41, error, lba_0, lba_1, lba_2, 0, lba_3, lba_4, lba_5,
    ]
}

/// Page 0 of log 10h after an error (ACS-3, "NCQ Command Error log"): the tag of the command that failed, below 32, the
/// error byte, and the LBA of the failing sector, below 2^48.
pub fn log_page(tag: u8, error: u8, lba: u64) -> [u8; 512]
    requires tag { tag < 32 }
    requires lba { lba < 2 ^ 48 }
    ensures { result ≡ log_page (record { tag = tag; error = error; lba = lba }) }
{
    let mut page = [0; 512];
    page[..11].copy_from_slice(&log_head(tag, error, lba));
    page[511] = checksum(&page[..511]);
    page
}
