//! Every prefix and every change of one byte of the example commands, beside a slow reading of the five cases; and of FISes
//! that are none.
use super::rig::{ABORTED, ACCEPTED, FAR_READ, FLUSH, IDENTIFY, READ_LOG, WRITE, disk_of, queued};
use crate::table::equal;
use ncq_core::{Disk, Taken};
use ncq_journal::Plain;
use std::alloc::Global;
use std::process::Abort;
use std::test::Fail;

/// What happened before on a disk of 8 sectors and 4 tags.
#[derive(Clone, Copy)]
enum Before {
    Nothing,
    /// A command is outstanding at tag 1.
    Outstanding,
    /// The command at tag 1 failed.
    Error,
}

/// The tags that are outstanding, and whether there is an error condition.
fn state_of(before: Before) -> (u32, bool) {
    match before {
        Before::Nothing => (0, false),
        Before::Outstanding => (2, false),
        Before::Error => (0, true),
    }
}

fn disk_after(rt: &impl Abort, alloc: Global, before: Before) -> Result<Disk, Fail> {
    let mut disk = disk_of(alloc, 0, 8, 4)?;
    if !matches!(before, Before::Nothing) {
        let _accepted = disk.take(&WRITE);
    }
    if matches!(before, Before::Error) {
        let _failed = disk.fail(1, 0x40, 3);
    }
    equal(rt, 0, &(disk.tags(), disk.stopped()), &state_of(before));
    Ok(disk)
}

/// The LBA, by its six bytes.
fn lba_of(bytes: &[u8; 20]) -> u64 {
    u64::from_le_bytes([
        bytes[4], bytes[5], bytes[6], bytes[8], bytes[9], bytes[10], 0, 0,
    ])
}

/// A queued command is refused for its tag or its end, else accepted.
fn wanted_of_queued(bytes: &[u8; 20], before: Before) -> Taken {
    let tag = bytes[12] / 8;
    if tag >= 4 || tag == 1 && matches!(before, Before::Outstanding) {
        return ABORTED;
    }
    let sectors = match u16::from_le_bytes([bytes[3], bytes[11]]) {
        0 => 65_536,
        count => u64::from(count),
    };
    let lba = lba_of(bytes);
    if lba.saturating_add(sectors) <= 8 {
        return ACCEPTED;
    }
    let [a, b, c, d, e, f, _, _] = lba.max(8).to_le_bytes();
    Taken::Refused([
        0x34, 0x40, 0x41, 0x10, a, b, c, 0, d, e, f, 0, 0, 0, 0, 0, 0, 0, 0, 0,
    ])
}

/// The answer, by the first of the five cases.
fn wanted(bytes: &[u8], before: Before) -> Taken {
    let mut whole = [0; 20];
    if bytes.len() != 20 || bytes[0] != 0x27 || bytes[1] < 0x80 {
        return ABORTED;
    }
    whole.copy_from_slice(bytes);
    let is_log = lba_of(&whole) == 0x10 && whole[12] == 1 && whole[13] == 0;
    match (whole[2], before) {
        (0x2F, Before::Error) if is_log => Taken::Plain(Plain::ReadLog),
        (_, Before::Error) => ABORTED,
        (0x60 | 0x61, _) if whole[7] / 64 % 2 == 1 => wanted_of_queued(&whole, before),
        (0xEC, Before::Nothing) => Taken::Plain(Plain::Identify),
        (0xEA, Before::Nothing) => Taken::Plain(Plain::Flush),
        _ => ABORTED,
    }
}

/// The tags and the error after an answer.
fn left(answer: Taken, bytes: &[u8], before: Before) -> (u32, bool) {
    let (tags, stopped) = state_of(before);
    match answer {
        Taken::Accepted(_) if bytes.len() == 20 => (tags | 1 << u32::from(bytes[12] / 8), false),
        Taken::Refused(fis) if fis[3] == 0x10 => (0, true),
        _ => (tags, stopped),
    }
}

fn takes(rt: &impl Abort, disk: &mut Disk, row: usize, bytes: &[u8], before: Before) {
    let answer = disk.take(bytes);
    let (tags, stopped) = left(answer, bytes, before);
    let found = (answer, disk.tags(), disk.stopped());
    equal(rt, row, &found, &(wanted(bytes, before), tags, stopped));
}

/// All prefixes of a command, and all changes of one of its bytes.
fn takes_all_near(
    rt: &impl Abort,
    alloc: Global,
    command: &[u8; 20],
    before: Before,
) -> Result<(), Fail> {
    for len in 0..=20 {
        takes(
            rt,
            &mut disk_after(rt, alloc, before)?,
            len,
            &command[..len],
            before,
        );
    }
    for place in 0..20 {
        let mut bytes = *command;
        for byte in 0..=255u8 {
            bytes[place] = byte;
            takes(
                rt,
                &mut disk_after(rt, alloc, before)?,
                place,
                &bytes,
                before,
            );
        }
    }
    Ok(())
}

#[test]
fn each_change_of_a_command_has_its_case(rt: HostRuntime) -> Result<(), Fail> {
    for before in [Before::Nothing, Before::Outstanding, Before::Error] {
        for command in [
            WRITE,
            FAR_READ,
            queued(0x60, 3, 7, 1),
            IDENTIFY,
            FLUSH,
            READ_LOG,
        ] {
            takes_all_near(&rt, rt.alloc(), &command, before)?;
        }
    }
    Ok(())
}

/// FISes that a device or its data are sent by: D2H Register of a command that was accepted, refused with ABRT and with IDNF,
/// PIO Setup, DMA Setup of a write of a sector with tag 1, DMA Activate, Set Device Bits of a completion and of an error, and
/// Data of four bytes.
static OTHERS: [&[u8]; 9] = [
    &[
        0x34, 0, 0x40, 0, 0, 0, 0, 0, 0, 0, 0, 0, 0, 0, 0, 0, 0, 0, 0, 0,
    ],
    &[
        0x34, 0x40, 0x41, 4, 0, 0, 0, 0, 0, 0, 0, 0, 0, 0, 0, 0, 0, 0, 0, 0,
    ],
    &[
        0x34, 0x40, 0x41, 0x10, 0x9A, 0x78, 0x56, 0, 0x34, 0x12, 0, 0, 0, 0, 0, 0, 0, 0, 0, 0,
    ],
    &[
        0x5F, 0x60, 0x48, 0, 0, 0, 0, 0, 0, 0, 0, 0, 0, 0, 0, 0x40, 0, 2, 0, 0,
    ],
    &[
        0x41, 0, 0, 0, 1, 0, 0, 0, 0, 0, 0, 0, 0, 0, 0, 0, 0, 0, 0, 0, 0, 2, 0, 0, 0, 0, 0, 0,
    ],
    &[0x39, 0, 0, 0],
    &[0xA1, 0x40, 0x40, 0, 2, 0, 0, 0],
    &[0xA1, 0x40, 0x41, 0x40, 0, 0, 0, 0],
    &[0x46, 0, 0, 0, 1, 2, 3, 4],
];

/// Takes all prefixes of a FIS, and all changes of one of its bytes, by one disk: none of them is a command.
fn refuses_all_near(
    rt: &impl Abort,
    alloc: Global,
    disk: &mut Disk,
    fis: &[u8],
    before: Before,
) -> Result<(), Fail> {
    for len in 0..=fis.len() {
        takes(rt, disk, len, &fis[..len], before);
    }
    for place in 0..fis.len() {
        let mut bytes = Vec::from_slice(alloc, fis)?;
        for byte in 0..=255u8 {
            bytes.as_mut_slice()[place] = byte;
            equal(rt, place, &wanted(bytes.as_slice(), before), &ABORTED);
            takes(rt, disk, place, bytes.as_slice(), before);
        }
    }
    Ok(())
}

#[test]
fn fises_of_other_types_are_no_commands(rt: HostRuntime) -> Result<(), Fail> {
    for before in [Before::Nothing, Before::Outstanding, Before::Error] {
        let mut disk = disk_after(&rt, rt.alloc(), before)?;
        for fis in OTHERS {
            refuses_all_near(&rt, rt.alloc(), &mut disk, fis, before)?;
        }
    }
    Ok(())
}
