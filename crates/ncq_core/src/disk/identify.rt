//! The page that IDENTIFY DEVICE reads (ACS-3, "IDENTIFY DEVICE").

ghost use Rattle.std.specs.Prelude.{◌≡◌, ◌<◌, ◌≤◌};
ghost use Rattle.ncq_core.specs.Identify.{text_word, number_word, identify_word, identify_page};

/// The most sectors that words 60 and 61 can say (ACS-3, "IDENTIFY DEVICE", words 60 and 61).
const MOST_28_BITS: u32 = 0x0FFF_FFFF;

/// Word `number` of a text, which spaces follow. The first of its two characters is the high byte.
fn text_word(text: &[u8], number: usize) -> u16
    requires { number < 256 }
    ensures { result ≡ text_word text.now number }
{
    let high = text.get(2 * number).copied().unwrap_or(b' ');
    let low = text.get(2 * number + 1).copied().unwrap_or(b' ');
    u16::from_be_bytes([high, low])
}

/// 16 bits of a number, counted from the low ones.
fn number_word(number: u64, place: usize) -> u16
    requires { place < 4 }
    ensures { result ≡ number_word number place }
{
    (number >> (16 * place) & 0xFFFF) as u16
}

/// A word of the page of a disk with so many sectors and tags.
fn identify_word(sectors: u32, depth: u32, number: usize) -> u16
    requires deep { 1 ≤ depth }
    requires shallow { depth ≤ 32 }
    requires word { number < 256 }
    ensures { result ≡ identify_word sectors depth number }
{
    match number {
        10..=19 => text_word(b"00000001", number - 10), // serial number
        23..=26 => text_word(b"1.0", number - 23), // firmware revision
        27..=46 => text_word(b"SOFTWARE NCQ DISK", number - 27), // model number
        49 => 0x0300, // capabilities: DMA, LBA
        60..=61 => number_word(u64::from(sectors.min(MOST_28_BITS)), number - 60), // sectors that 28-bit commands reach
        75 => (depth - 1) as u16, // queue depth
        76 => 0x0106, // Serial ATA capabilities: NCQ, Gen2, Gen1
        80 => 0x0400, // major version: ACS-3
        83 => 0x6400, // command sets supported: FLUSH CACHE EXT, 48-bit addresses
        84 | 87 => 0x4020, // general purpose logging supported, enabled
        86 => 0x2400, // command sets enabled
        100..=103 => number_word(u64::from(sectors), number - 100), // sectors that 48-bit commands reach
        _ => 0,
    }
}

/// The page that IDENTIFY DEVICE reads of a disk with so many sectors, and 1 to 32 tags (ACS-3, "IDENTIFY DEVICE"): 256 words,
/// each with its low byte first.
pub fn identify_page(sectors: u32, depth: u32) -> [u8; 512]
    requires deep { 1 ≤ depth }
    requires shallow { depth ≤ 32 }
    ensures { result ≡ identify_page sectors depth }
{
    let mut page = [0; 512];
    for number in 0..256 {
        let bytes = identify_word(sectors, depth, number).to_le_bytes();
        page[2 * number..2 * number + 2].copy_from_slice(&bytes);
    }
    page
}
