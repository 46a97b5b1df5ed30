ghost use Rattle.std.specs.Prelude.{◌≡◌};
ghost use Rattle.hba_command.specs.CommandFis.{command_fis};

use sata_fis::{Fis, H2d, decode};

/// The Register FIS - Host to Device that the first 20 bytes of CFIS spell, if they spell one (Serial ATA, "Register FIS - Host to
/// Device").
pub fn command_fis(bytes: &[u8; 20]) -> Option<H2d>
    ensures { result ≡ command_fis bytes.now }
{
    match &decode(bytes) {
        Ok(Fis::H2d(h2d)) => Some(*h2d),
        _ => None,
    }
}
