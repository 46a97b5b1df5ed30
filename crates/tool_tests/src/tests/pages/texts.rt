//! The texts of worked pages. Their words and bytes are those of the tables of ACS-3 ("IDENTIFY DEVICE", "NCQ Command Error
//! log") as a disk of this model fills them, worked out by hand. The whole identify page of 1,000 sectors and 32 tags is in
//! the stored run of `ahci_examples`.
use ata_pages::{IdentifyText, LogText};
use ncq_core::{identify_page, log_page};
use std::process::Abort;
use std::test::Fail;

/// Page 0 of log 10h: tag 3 failed with error 40h at sector 7.
pub static TAG_3: &str = "\
NQ 0, UNL 0, NCQ TAG 3
LBA 7
byte 000  03  NQ, UNL, NCQ TAG
byte 002  41  Status
byte 003  40  Error
byte 004  07  LBA 7:0
byte 005  00  LBA 15:8
byte 006  00  LBA 23:16
byte 007  00  Device
byte 008  00  LBA 31:24
byte 009  00  LBA 39:32
byte 010  00  LBA 47:40
byte 012  00  Count 7:0
byte 013  00  Count 15:8
byte 511  75  Data structure checksum
all other bytes are 00
";

/// Tag 31 failed with error 10h at sector 123456789Ah.
static FAR: &str = "\
NQ 0, UNL 0, NCQ TAG 31
LBA 78187493530
byte 000  1f  NQ, UNL, NCQ TAG
byte 002  41  Status
byte 003  10  Error
byte 004  9a  LBA 7:0
byte 005  78  LBA 15:8
byte 006  56  LBA 23:16
byte 007  00  Device
byte 008  34  LBA 31:24
byte 009  12  LBA 39:32
byte 010  00  LBA 47:40
byte 012  00  Count 7:0
byte 013  00  Count 15:8
byte 511  e2  Data structure checksum
all other bytes are 00
";

/// The lines of 131,072 sectors and one tag that differ.
static LARGEST: [&str; 3] = [
    "\nword 049  0300  Capabilities\nword 061  0002  Total number of user addressable logical sectors for 28-bit commands\n",
    "28-bit commands\nword 076  0106  Serial ATA Capabilities\n",
    "\nword 087  4020  Commands and feature sets supported or enabled\nword 101  0002  Number of User Addressable Logical Sectors\nall",
];

fn same(rt: &impl Abort, found: &str, wanted: &str) {
    assert_eq!(rt; found, wanted);
}

#[test]
fn a_number_of_sectors_is_told_by_the_words_that_are_set(rt: HostRuntime) -> Result<(), Fail> {
    let text = IdentifyText(identify_page(131_072, 1)).to_string(rt.alloc())?;
    for part in LARGEST {
        assert!(rt; text.contains(part), "no {part}");
    }
    Ok(())
}

#[test]
fn an_error_is_told_by_the_bytes_of_its_fields(rt: HostRuntime) -> Result<(), Fail> {
    let near = LogText(log_page(3, 0x40, 7)).to_string(rt.alloc())?;
    same(&rt, near.as_str(), TAG_3);
    let far = LogText(log_page(31, 0x10, 0x12_3456_789A)).to_string(rt.alloc())?;
    same(&rt, far.as_str(), FAR);
    Ok(())
}

/// The page of a disk of another make: its firmware revision has bytes that can't be read, and words 0 and 255 are set.
fn foreign_page() -> [u8; 512] {
    let mut page = [0; 512];
    page[0] = 0x5A;
    page[46] = 0x7F;
    page[47] = b'A';
    page[48] = b'~';
    page[511] = 0xA5;
    page
}

#[test]
fn a_page_from_elsewhere_is_told_too(rt: HostRuntime) -> Result<(), Fail> {
    let text = IdentifyText(foreign_page()).to_string(rt.alloc())?;
    same(
        &rt,
        text.as_str(),
        "\
serial number \"....................\"
firmware revision \"A..~....\"
model number \"........................................\"
word 000  005a  not set by this model
word 023  417f  Firmware revision
word 024  007e  Firmware revision
word 255  a500  not set by this model
all other words are 0000
",
    );
    Ok(())
}

#[test]
fn flags_and_bytes_of_no_field_are_told_where_they_are_set(rt: HostRuntime) -> Result<(), Fail> {
    let mut page = log_page(0, 0, 0);
    page[0] = 0b1110_0001;
    page[1] = 2;
    page[7] = 0x40;
    page[510] = 1;
    let text = LogText(page).to_string(rt.alloc())?;
    same(
        &rt,
        text.as_str(),
        "\
NQ 1, UNL 1, NCQ TAG 1
LBA 0
byte 000  e1  NQ, UNL, NCQ TAG
byte 001  02  not set by this model
byte 002  41  Status
byte 003  00  Error
byte 004  00  LBA 7:0
byte 005  00  LBA 15:8
byte 006  00  LBA 23:16
byte 007  40  Device
byte 008  00  LBA 31:24
byte 009  00  LBA 39:32
byte 010  00  LBA 47:40
byte 012  00  Count 7:0
byte 013  00  Count 15:8
byte 510  01  not set by this model
byte 511  bf  Data structure checksum
all other bytes are 00
",
    );
    Ok(())
}
