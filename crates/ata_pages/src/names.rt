//! What the standard calls the words and the bytes of the pages.

ghost use Rattle.std.specs.Prelude.{◌≡◌};
ghost use Rattle.ata_pages.specs.{IdentifyText.{word_name}, LogText.{byte_name, is_field}};

/// The name of a word (ACS-3, "IDENTIFY DEVICE"). Words that every disk of this model leaves 0 have none here.
pub(crate) fn word_name(number: usize) -> &'static str
    ensures { result.now ≡ word_name number }
{
    match number {
        10..=19 => "Serial number",
        23..=26 => "Firmware revision",
        27..=46 => "Model number",
        49 => "Capabilities",
        60..=61 => "Total number of user addressable logical sectors for 28-bit commands",
        75 => "Queue depth",
        76 => "Serial ATA Capabilities",
        80 => "Major version number",
        83..=84 => "Commands and feature sets supported",
        86..=87 => "Commands and feature sets supported or enabled",
        100..=103 => "Number of User Addressable Logical Sectors",
        _ => "not set by this model",
    }
}

/// Whether a byte is of a field of the log's page.
pub(crate) fn is_field(number: usize) -> bool
    ensures { result ≡ is_field number }
{
    matches!(number, 0 | 2..=10 | 12..=13 | 511)
}

/// The name of a byte (ACS-3, "NCQ Command Error log"). Bytes of no field that this model has have none here.
pub(crate) fn byte_name(number: usize) -> &'static str
    ensures { result.now ≡ byte_name number }
{
    match number {
        0 => "NQ, UNL, NCQ TAG",
        2 => "Status",
        3 => "Error",
        4 => "LBA 7:0",
        5 => "LBA 15:8",
        6 => "LBA 23:16",
        7 => "Device",
        8 => "LBA 31:24",
        9 => "LBA 39:32",
        10 => "LBA 47:40",
        12 => "Count 7:0",
        13 => "Count 15:8",
        511 => "Data structure checksum",
        _ => "not set by this model",
    }
}
