ghost use Rattle.std.specs.Prelude.{◌≡◌, Some};
ghost use Rattle.ata_pages.specs.LogText.{lba_of, log_text};

use crate::byte_lines::ByteLines;
use std::fmt;

/// Page 0 of log 10h (ACS-3, "NCQ Command Error log"), as text: the flags and the tag of its first byte, the LBA, and then a
/// line for each byte of a field, with its number, its value and what the standard calls it. Each line ends in a line feed.
#[derive(Clone, Copy, Debug, PartialEq, Eq)]
pub struct LogText(pub [u8; 512]);

impl fmt::Display for LogText {
    ghost output = { λ t. Some (log_text t.0) };

    fn fmt<W: fmt::Write>(&self, f: &mut fmt::Formatter<W>) -> fmt::Result {
        let page = &self.0;
        let first = page[0];
        let (nq, unl, tag) = (first / 128, first / 64 % 2, first % 32);
        let lba = lba(page);
        let bytes = ByteLines { page };
        writeln!(f, "NQ {nq}, UNL {unl}, NCQ TAG {tag}")?;
        writeln!(f, "LBA {lba}")?;
        write!(f, "{bytes}")?;
        f.write_str("all other bytes are 00\n")
    }
}

/// The LBA of the failing sector, whose halves are apart.
fn lba(page: &[u8; 512]) -> u64
    ensures { result ≡ lba_of page.now }
{
    let [_, _, _, _, a, b, c, _, d, e, g, ..] = page;
    u64::from_le_bytes([*a, *b, *c, *d, *e, *g, 0, 0])
}
