//! What log 10h says of a command that is not queued (ACS-3, "NCQ Command Error log").

ghost use Rattle.std.specs.Prelude.{◌≡◌};
ghost use Rattle.hba_command.specs.NotQueued.{collided_page, unfailed_page};

use crate::pages::not_queued_page;
use crate::words::{put_checksum, put_word};

/// Log 10h after a command that is not queued came while queued ones were outstanding, and ended with this error: NQ is 1.
fn collided_page(error: u8) -> [u8; 512]
    ensures { result ≡ collided_page error }
{
    let mut page = [0; 512];
    put_word(&mut page, 0, 0x0080); // NQ
    put_word(&mut page, 1, 0x41 + 256 * u16::from(error)); // DRDY and ERR, and the error
    put_checksum(&mut page);
    page
}

/// Log 10h while no queued command has failed: with the error of such a command, or with none.
pub fn unfailed_page(error: Option<u8>) -> [u8; 512]
    ensures { result ≡ unfailed_page error }
{
    match error {
        None => not_queued_page(),
        Some(error) => collided_page(error),
    }
}
