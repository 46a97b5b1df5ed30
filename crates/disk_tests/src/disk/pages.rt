//! The identify page, word by word.
ghost use Rattle.std.specs.Prelude.{◌<◌};

use super::rig::disk_of;
use crate::table::equal;
use std::test::Fail;

/// The words of a disk of 1,000 sectors and 32 tags (ACS-3, "IDENTIFY DEVICE"); all others are 0.
static WORDS: [(usize, u16); 44] = [
    // serial number
    (10, 0x3030),
    (11, 0x3030),
    (12, 0x3030),
    (13, 0x3031),
    (14, 0x2020),
    (15, 0x2020),
    (16, 0x2020),
    (17, 0x2020),
    (18, 0x2020),
    (19, 0x2020),
    // firmware revision
    (23, 0x312E),
    (24, 0x3020),
    (25, 0x2020),
    (26, 0x2020),
    // model number
    (27, 0x534F),
    (28, 0x4654),
    (29, 0x5741),
    (30, 0x5245),
    (31, 0x204E),
    (32, 0x4351),
    (33, 0x2044),
    (34, 0x4953),
    (35, 0x4B20),
    (36, 0x2020),
    (37, 0x2020),
    (38, 0x2020),
    (39, 0x2020),
    (40, 0x2020),
    (41, 0x2020),
    (42, 0x2020),
    (43, 0x2020),
    (44, 0x2020),
    (45, 0x2020),
    (46, 0x2020),
    // capabilities, sectors, depth
    (49, 0x0300),
    (60, 0x03E8),
    (75, 0x001F),
    (76, 0x0106),
    (80, 0x0400),
    (83, 0x6400),
    (84, 0x4020),
    (86, 0x2400),
    (87, 0x4020),
    (100, 0x03E8),
];

/// Word `number` of a page, whose low byte is the first.
fn word(page: &[u8; 512], number: usize) -> u16
    requires { number < 256 }
{
    u16::from_le_bytes([page[2 * number], page[2 * number + 1]])
}

/// The word of the table at this number; 0 where it has none.
fn wanted(number: usize) -> u16 {
    for (place, word) in &WORDS {
        if *place == number {
            return *word;
        }
    }
    0
}

#[test]
fn identify_tells_the_words_of_the_table(rt: HostRuntime) -> Result<(), Fail> {
    let page = disk_of(rt.alloc(), 0, 1000, 32)?.identify();
    for number in 0..256 {
        equal(&rt, number, &word(&page, number), &wanted(number));
    }
    Ok(())
}

#[test]
fn the_number_of_sectors_has_its_low_word_first(rt: HostRuntime) -> Result<(), Fail> {
    let page = disk_of(rt.alloc(), 0, 131_072, 1)?.identify();
    for (number, wanted) in [
        (60, 0),
        (61, 2),
        (75, 0),
        (100, 0),
        (101, 2),
        (102, 0),
        (103, 0),
    ] {
        equal(&rt, number, &word(&page, number), &wanted);
    }
    Ok(())
}
