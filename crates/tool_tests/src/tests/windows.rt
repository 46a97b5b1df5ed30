//! Windows of any bytes in a line: which rule they break first.
use ahci_check::{Place, complaint_of};
use refusing_allocator::{Refusals, Refusing};
use std::alloc::Global;
use std::test::Fail;

/// The header of tag 0: a command FIS of 5 words, and a PRDT of one entry in the window's own table.
const HEADER: &str = "0500010000000000000000100000000000000000000000000000000000000000";

/// An entry of 512 bytes after the table.
const ENTRY: &str = "900000100000000000000000ff010000";

/// READ FPDMA QUEUED of one sector, with the tag 0.
const READ: &str = "2780600100000040000000000000000000000000";

/// A line's command FIS and entry, how many bytes of data follow them, and what is said of it.
type Row = (&'static str, &'static str, usize, &'static str);

static ROWS: [Row; 6] = [
    (READ, ENTRY, 512, ""),
    // READ DMA EXT is not queued.
    (
        "2780250100000040000000000000000000000000",
        ENTRY,
        512,
        "line 3, column 72: a bad command FIS",
    ),
    // The command's tag is 1.
    (
        "2780600100000040000000000800000000000000",
        ENTRY,
        512,
        "line 3, column 72: another tag in the command FIS",
    ),
    // The entry has 1,024 bytes, then an odd number, and then there are no bytes for it.
    (
        READ,
        "900000100000000000000000ff030000",
        1024,
        "line 3, column 72: a bad PRDT",
    ),
    (
        READ,
        "900000100000000000000000fe010000",
        512,
        "line 3, column 72: a bad PRDT",
    ),
    (READ, ENTRY, 510, "line 3, column 72: a bad PRDT"),
];

/// The line of a row, with zeros for the bytes that it doesn't name.
fn line_of(alloc: Global, fis: &str, entry: &str, data: usize) -> Result<String, Fail> {
    let mut line = format!(in alloc; "raw 0 {HEADER} {fis}")?;
    for _ in 20..128usize {
        line.push_str("00")?;
    }
    line.push_str(entry)?;
    for _ in 0..data {
        line.push_str("00")?;
    }
    Ok(line)
}

#[test]
fn each_window_breaks_the_rule_beside_it(rt: HostRuntime) -> Result<(), Fail> {
    let place = Place::AfterDisk {
        sectors: 8,
        depth: 4,
    };
    for (fis, entry, data, expected) in &ROWS {
        let line = line_of(rt.alloc(), fis, entry, *data)?;
        let said = match complaint_of(rt.alloc(), place, 3, line.as_bytes())? {
            Some(complaint) => format!(in rt.alloc(); "{complaint}")?,
            None => String::new(rt.alloc()),
        };
        assert!(rt; said.as_str() == *expected, "{line}: {said}");
    }
    Ok(())
}

/// A line whose tag is past the slots, or that has no window, wants no memory: it is judged before a byte of one is read.
#[test]
fn a_line_that_is_judged_by_its_numbers_wants_no_memory(rt: HostRuntime) -> Result<(), Fail> {
    let place = Place::AfterDisk {
        sectors: 8,
        depth: 4,
    };
    let heap = Refusing::new(rt.alloc());
    for (line, expected) in [
        (
            format!(in rt.alloc(); "raw 4 {HEADER} 27")?,
            "line 3, column 5: tag 4 of 4 slots",
        ),
        (
            format!(in rt.alloc(); "serve 0 4")?,
            "line 3, column 9: tag 4 of 4 slots",
        ),
        (format!(in rt.alloc(); "serve 0 1")?, ""),
    ] {
        heap.refuse(Refusals::From(0));
        let said = match complaint_of(&heap, place, 3, line.as_bytes())? {
            Some(complaint) => format!(in rt.alloc(); "{complaint}")?,
            None => String::new(rt.alloc()),
        };
        assert!(rt; said.as_str() == expected, "{line}: {said}");
        assert_eq!(rt; heap.requests(), 0);
    }
    Ok(())
}
