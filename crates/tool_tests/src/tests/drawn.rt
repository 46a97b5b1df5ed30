//! Pictures of more than one row, of every lane, of entries by their numbers, and with an overview.
use ahci_draw::draw;
use std::alloc::Global;
use std::test::Fail;

/// A script of so many rounds of a write that is accepted, served and collected: four entries each.
fn rounds(alloc: Global, count: u64) -> Result<Vec<u8>, Fail> {
    let mut script = b"disk 8 32\n".to_vec(alloc)?;
    for round in 0..count {
        let number = round.saturating_mul(4);
        let lines = format!(in alloc; "write 0 0 1 11\naccept 0\nserve 0\ncollect 0 {number}\n")?;
        script.extend_from_slice(lines.as_bytes())?;
    }
    Ok(script)
}

/// A script of a write by each of 32 tags.
fn crowd(alloc: Global) -> Result<Vec<u8>, Fail> {
    let mut script = b"disk 32 32\n".to_vec(alloc)?;
    for tag in 0..32u8 {
        let line = format!(in alloc; "write {tag} {tag} 1 11\n")?;
        script.extend_from_slice(line.as_bytes())?;
    }
    Ok(script)
}

/// Whether a picture of a script's entries from one number to another has this text.
fn has(alloc: Global, script: &[u8], (from, to): (u64, u64), text: &str) -> bool {
    let mut reader = script;
    let mut written = Vec::new(alloc);
    let ended = draw(alloc, from, to, &mut reader, &mut written);
    let wanted = text.as_bytes();
    ended == Ok(())
        && written
            .windows(wanted.len().max(1))
            .any(|part| part == wanted)
}

#[test]
fn a_picture_may_have_many_rows_and_every_lane(rt: HostRuntime) -> Result<(), Fail> {
    let alloc = rt.alloc();
    let all = (0, u64::MAX);
    assert!(rt; has(alloc, &rounds(alloc, 64)?, all, "entries: 256, tags: 1"));
    assert!(rt; has(alloc, &crowd(alloc)?, all, "entries: 32, tags: 32"));
    Ok(())
}

/// A journal that begins with entry 100, and is trimmed after its second entry.
static NUMBERED: &[u8] = b"disk 8 4 100\nflush\nflush\ntrim\nflush\n";

/// The numbers of the first and of the last entry that are asked for, and how many are drawn.
static ASKED: [((u64, u64), &str); 7] = [
    ((0, u64::MAX), "entries: 3, tags: 0"),
    ((0, 99), "entries: 0, tags: 0"),
    ((0, 100), "entries: 1, tags: 0"),
    ((101, 101), "entries: 1, tags: 0"),
    ((101, 102), "entries: 2, tags: 0"),
    ((102, 101), "entries: 0, tags: 0"),
    ((103, u64::MAX), "entries: 0, tags: 0"),
];

#[test]
fn entries_are_drawn_by_their_numbers(rt: HostRuntime) -> Result<(), Fail> {
    let alloc = rt.alloc();
    for (numbers, text) in ASKED {
        assert!(rt; has(alloc, NUMBERED, numbers, text), "{numbers:?}");
    }
    Ok(())
}

/// A script of 1,001 entries, of which entry 998 is the only failure and entry 999 the only recovery.
fn failing_late(alloc: Global) -> Result<Vec<u8>, Fail> {
    let mut script = rounds(alloc, 249)?;
    script.extend_from_slice(b"write 0 0 1 11\naccept 0\nfail 0 40 0\nrecover\ncollect 0 996\n")?;
    Ok(script)
}

/// The entries that are drawn, and a part of their picture. The places of 998 and 999 are 998 * 1200 / 1001 = 1196 and 999 * 1200 / 1001
/// = 1197; a strip begins 72 units from the left. A thousand entries have no overview: the first row follows the heading.
static OVERVIEWS: [((u64, u64), &str); 5] = [
    (
        (0, u64::MAX),
        "entries: 1001, rows: 11, failures: 1, recoveries: 1, first failure: 998</text>\n",
    ),
    (
        (0, u64::MAX),
        "recoveries</text><path stroke-width='2' stroke='#e55' d='M1268 24v16'>\
         <title>row 10, 998: error 40h, tag 0, LBA 0</title></path>\
         <path stroke-width='2' stroke='#96d' d='M1269 40v16'>\
         <title>row 10, 999: recover, tag 0</title></path></g>",
    ),
    (
        (0, u64::MAX),
        "'>row 11</text>\n<g transform='translate(0 96)'>",
    ),
    (
        (1, u64::MAX),
        "entries: 1000, tags: 1</text></g>\n<g transform='translate(0 96)'>",
    ),
    (
        (0, 999),
        "entries: 1000, tags: 1</text></g>\n<g transform='translate(0 96)'>",
    ),
];

#[test]
fn more_than_a_thousand_entries_have_an_overview(rt: HostRuntime) -> Result<(), Fail> {
    let alloc = rt.alloc();
    let script = failing_late(alloc)?;
    for (numbers, text) in OVERVIEWS {
        assert!(rt; has(alloc, &script, numbers, text), "{numbers:?}: {text}");
    }
    Ok(())
}
