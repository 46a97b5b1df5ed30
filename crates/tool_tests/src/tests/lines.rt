//! Lines, each with what is said of it.
use ahci_check::{Place, complaint_of};
use std::process::Abort;
use std::test::Fail;

/// Lines after a disk of 8 sectors and 4 slots, each as the third of its script, and the text of its complaint; empty where there is
/// none.
static BEHIND: [(&str, &str); 85] = [
    ("", ""),
    ("# Any comment.", ""),
    ("recover", ""),
    ("write 3 281474976710655 65536 Ff", ""),
    ("serve 3 1 0 2", ""),
    ("reg 118", ""),
    ("show 7", ""),
    ("fail 0 40 7", ""),
    ("# A tab\tand a carriage return\r", ""),
    ("sleep", "line 3, column 1: no such command"),
    ("sleep 3", "line 3, column 1: no such command"),
    ("Write 0 0 1 11", "line 3, column 1: no such command"),
    ("\twrite 0 0 1 11", "line 3, column 1: a tab"),
    ("write\t0 0 1 11", "line 3, column 6: a tab"),
    ("\r", "line 3, column 1: a carriage return"),
    ("recover\r", "line 3, column 8: a carriage return"),
    ("sleep\r", "line 3, column 6: a carriage return"),
    ("read 0 0\r\t1", "line 3, column 9: a carriage return"),
    ("show \0", "line 3, column 6: control byte 0"),
    ("show 1\x1b", "line 3, column 7: control byte 27"),
    ("show 1\x7f", "line 3, column 7: control byte 127"),
    ("\u{feff}", "line 3, column 1: a byte order mark"),
    (
        "\u{feff}# A comment.",
        "line 3, column 1: a byte order mark",
    ),
    ("show 1\u{feff}", "line 3, column 7: a byte over 127"),
    ("\u{ff00}show 1", "line 3, column 1: a byte over 127"),
    (" read 0 0 1", "line 3, column 1: a space too many"),
    (" ", "line 3, column 1: a space too many"),
    ("read 0  0 1", "line 3, column 8: a space too many"),
    ("accept 3 ", "line 3, column 10: a space too many"),
    ("recover ", "line 3, column 9: a space too many"),
    ("recover 0", "line 3, column 9: a word too many"),
    ("accept 3 4", "line 3, column 10: a word too many"),
    ("write 0 0 1 11 22", "line 3, column 16: a word too many"),
    ("write", "line 3, column 6: a word is missing"),
    ("write ", "line 3, column 7: a space too many"),
    ("disk 8 4 ", "line 3, column 10: a space too many"),
    ("disk 8 ", "line 3, column 8: a space too many"),
    ("serve 0 ", "line 3, column 9: a space too many"),
    ("write 0 0 1 ", "line 3, column 13: a space too many"),
    ("write 0 0 1", "line 3, column 12: a word is missing"),
    ("disk 8", "line 3, column 7: a word is missing"),
    ("read 0 0x10 1", "line 3, column 8: not a decimal number"),
    ("accept 3\r", "line 3, column 9: a carriage return"),
    (
        "show 000000000000000000001",
        "line 3, column 6: more than 20 digits",
    ),
    (
        "show 18446744073709551616",
        "line 3, column 6: a number of 2^64 or more",
    ),
    ("accept 32", "line 3, column 8: tag 32, at most 31"),
    ("serve 0 1 32 x", "line 3, column 11: tag 32, at most 31"),
    (
        "serve 0 1 2 3 4 5 6 7 0 1 2 3 4 5 6 7 0 1 2 3 4 5 6 7 0 1 2 3 4 5 6 7 0",
        "line 3, column 71: more than 32 tags",
    ),
    (
        "read 0 0 131073",
        "line 3, column 10: 131073 sectors, at most 131072",
    ),
    ("identify 256", "line 3, column 10: word 256, at most 255"),
    ("reg 12g", "line 3, column 5: not hexadecimal digits"),
    ("ack 123456789", "line 3, column 5: more than 8 digits"),
    (
        "write 0 0 1 1",
        "line 3, column 13: not two hexadecimal digits",
    ),
    (
        "raw 0 0500 11",
        "line 3, column 7: not 64 hexadecimal digits",
    ),
    (
        "raw 0 0500010000000000000000100000000000000000000000000000000000000000 123",
        "line 3, column 72: an odd number of digits",
    ),
    ("#\u{80}", "line 3, column 2: a byte over 127"),
    ("write 0 0 1 11\u{a0}", "line 3, column 15: a byte over 127"),
    ("disk 8 4", "line 3: a second disk"),
    ("disk 0 0", "line 3: a second disk"),
    ("read 0 0 0", "line 3, column 10: 0 sectors, at least 1"),
    (
        "write 0 0 70000 11",
        "line 3, column 11: 70000 sectors, at most 65536",
    ),
    (
        "read 0 281474976710656 1",
        "line 3, column 8: LBA 281474976710656, at most 281474976710655",
    ),
    // The number of sectors is reported before the LBA, as the port's refusal is.
    (
        "read 0 281474976710656 65537",
        "line 3, column 24: 65537 sectors, at most 65536",
    ),
    // What is wrong with a word is reported from the left, before any number that the port refuses.
    (
        "write 0 0 70000 1g",
        "line 3, column 17: not hexadecimal digits",
    ),
    ("raw 0 x", "line 3, column 7: not hexadecimal digits"),
    // A port of 4 slots has the tags 0 to 3.
    ("accept 4", "line 3, column 8: tag 4 of 4 slots"),
    ("collect 4 0", "line 3, column 9: tag 4 of 4 slots"),
    ("reissue 31", "line 3, column 9: tag 31 of 4 slots"),
    ("read 4 0 1", "line 3, column 6: tag 4 of 4 slots"),
    ("write 4 0 1 11", "line 3, column 7: tag 4 of 4 slots"),
    ("fail 4 40 8", "line 3, column 6: tag 4 of 4 slots"),
    ("raw 4 x", "line 3, column 7: not hexadecimal digits"),
    ("serve 0 4 5", "line 3, column 9: tag 4 of 4 slots"),
    // The port asks for the count first, and for the tag last.
    ("read 4 0 0", "line 3, column 10: 0 sectors, at least 1"),
    // It looks at each tag of a list before it looks for one that is there twice.
    ("serve 1 1", "line 3, column 9: tag 1 twice"),
    ("serve 0 1 2 1 0", "line 3, column 13: tag 1 twice"),
    ("serve 0 1 0", "line 3, column 11: tag 0 twice"),
    ("serve 1 1 4", "line 3, column 11: tag 4 of 4 slots"),
    ("show 8", "line 3, column 6: LBA 8 of 8 sectors"),
    ("fail 0 40 8", "line 3, column 11: LBA 8 of 8 sectors"),
    (
        "reg 3",
        "line 3, column 5: an offset that is no multiple of 4",
    ),
    ("reg 500", "line 3, column 5: no register at this offset"),
    ("reg 8", "line 3, column 5: no register at this offset"),
    (
        "reg 13a",
        "line 3, column 5: an offset that is no multiple of 4",
    ),
    (
        "raw 0 0000000000000000000000000000000000000000000000000000000000000000 00",
        "line 3, column 7: a bad command header",
    ),
];

/// Their places.
const BEHIND_DISK: Place = Place::AfterDisk {
    sectors: 8,
    depth: 4,
};

/// First lines.
static BEFORE: [(&str, &str); 11] = [
    ("recover", "line 3: a command before the disk"),
    ("read 0 0 70000", "line 3: a command before the disk"),
    ("sleep", "line 3, column 1: no such command"),
    ("disk 131072 32 9223372036854775808", ""),
    (
        "disk 0 0",
        "line 3, column 6: a disk of 0 sectors, at least 1",
    ),
    (
        "disk 131073 0",
        "line 3, column 6: a disk of 131073 sectors, at most 131072",
    ),
    ("disk 8 0", "line 3, column 8: 0 slots, at least 1"),
    (
        "disk 8 4294967300",
        "line 3, column 8: 4294967300 slots, at most 32",
    ),
    (
        "disk 8 4 9223372036854775809",
        "line 3, column 10: first number 9223372036854775809, at most 9223372036854775808",
    ),
    ("disk 8 4 0 0", "line 3, column 12: a word too many"),
    ("disk 8  4", "line 3, column 8: a space too many"),
];

/// Says of each line what is beside it.
fn says<H: Abort>(
    rt: &H,
    alloc: std::alloc::Global,
    place: Place,
    rows: &[(&'static str, &'static str)],
) -> Result<(), Fail> {
    for (line, expected) in rows {
        let said = match complaint_of(alloc, place, 3, line.as_bytes())? {
            Some(complaint) => format!(in alloc; "{complaint}")?,
            None => String::new(alloc),
        };
        assert!(rt; said.as_str() == *expected, "{line}: {said}");
    }
    Ok(())
}

#[test]
fn each_line_breaks_the_rule_beside_it(rt: HostRuntime) -> Result<(), Fail> {
    says(&rt, rt.alloc(), BEHIND_DISK, BEHIND.as_slice())?;
    says(&rt, rt.alloc(), Place::BeforeDisk, BEFORE.as_slice())
}
