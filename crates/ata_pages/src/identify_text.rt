ghost use Rattle.std.specs.Prelude.{Some};
ghost use Rattle.ata_pages.specs.IdentifyText.{identify_text};

use crate::characters::Characters;
use crate::word_lines::WordLines;
use std::fmt;

/// The page that IDENTIFY DEVICE reads (ACS-3, "IDENTIFY DEVICE"), as text: the serial number, the firmware revision and the
/// model number in quotes, and then a line for each word that isn't 0, with its number, its value and what the standard calls
/// it. Each line ends in a line feed.
#[derive(Clone, Copy, Debug, PartialEq, Eq)]
pub struct IdentifyText(pub [u8; 512]);

impl fmt::Display for IdentifyText {
    ghost output = { λ t. Some (identify_text t.0) };

    fn fmt<W: fmt::Write>(&self, f: &mut fmt::Formatter<W>) -> fmt::Result {
        let page = &self.0;
        let serial = Characters {
            page,
            first: 10,
            count: 10,
        };
        let firmware = Characters {
            page,
            first: 23,
            count: 4,
        };
        let model = Characters {
            page,
            first: 27,
            count: 20,
        };
        let words = WordLines { page };
        writeln!(f, "serial number \"{serial}\"")?;
        writeln!(f, "firmware revision \"{firmware}\"")?;
        writeln!(f, "model number \"{model}\"")?;
        write!(f, "{words}")?;
        f.write_str("all other words are 0000\n")
    }
}
