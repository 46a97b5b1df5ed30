//! What a driver writes to the registers, among the port's other calls.
use super::story::Row::{Accepts, Collect, Failure, Sector, Serves, Step};
use super::story::{Row, goes, port_of, window_of};
use crate::tests::table::equal;
use ahci_port::Stepped::Failed;
use ahci_port::Written::{Commanded, Noted, Recovered};
use ahci_port::{IssueFault, Pending, WriteFault, Written};
use ahci_regs::RegFault;
use ncq_journal::Outcome;
use std::alloc::Global;
use std::process::Abort;
use std::test::Fail;
use test_helpers::TableStep;

/// A driver's access to a register with its answer, or another call of the port.
#[derive(Clone, Copy)]
enum Line {
    Write(u32, u32, Result<Written, WriteFault>),
    Read(u32, Result<u32, RegFault>),
    Call(Row),
}

use Line::{Call, Read, Write};

/// How many bytes the window of a command of one sector has, over the default pieces.
const SHARE: usize = 0x1200;

/// A guest's memory.
struct Guest {
    list: [u8; 1024],
    windows: Vec<u8>,
}

/// What the guest asks by a slot: an LBA, and the byte of a write. Slot 2 has zeros, and so have all from 4 on.
fn asked(slot: u8) -> Option<(u64, Option<u8>)> {
    match slot {
        0 => Some((3, Some(0xAA))),
        1 => Some((3, None)),
        3 => Some((5, Some(0xBB))),
        _ => None,
    }
}

/// The guest's memory, with the windows of its commands.
fn guest_memory(rt: &impl Abort, alloc: Global) -> Result<Guest, Fail> {
    let mut headers = Vec::new(alloc);
    let mut windows = Vec::new(alloc);
    for slot in 0..32u8 {
        match asked(slot) {
            Some((lba, byte)) => {
                let window = window_of(alloc, slot, lba, byte)?;
                headers.extend_from_slice(window.header())?;
                windows.extend_from_slice(window.bytes())?;
            }
            None => {
                headers.extend_from_slice(&[0; 32])?;
                windows.extend_from_slice(&[0; SHARE])?;
            }
        }
    }
    let mut list = [0; 1024];
    assert!(rt; headers.len() == 1024);
    list.copy_from_slice(headers.as_slice());
    equal(rt, 0, &windows.len(), &(32 * SHARE));
    Ok(Guest { list, windows })
}

/// Goes through a table on a port with four slots over eight sectors of zeros.
fn drives(rt: &impl Abort, alloc: Global, lines: &[Line]) -> Result<(), Fail> {
    let Guest { list, windows } = guest_memory(rt, alloc)?;
    let mut port = port_of(alloc, 8, 4)?;
    let mut pending = Pending::nothing();
    for (number, line) in lines.iter().enumerate() {
        match *line {
            Write(offset, word, answer) => {
                let bytes = windows.as_slice();
                let found = port.write_register(&mut pending, offset, word, &list, bytes);
                equal(rt, number, &found, &answer);
            }
            Read(offset, answer) => {
                let found = port.read_register(&pending, offset);
                equal(rt, number, &found, &answer);
            }
            Call(row) => goes(rt, alloc, &mut port, number, row)?,
        }
    }
    Ok(())
}

const SLOT_2_HAS_ZEROS: WriteFault = WriteFault::Issue {
    slot: 2,
    fault: IssueFault::BadHeader,
};

const SLOT_0_IS_OWNED: WriteFault = WriteFault::Issue {
    slot: 0,
    fault: IssueFault::SlotOwned,
};

static QUEUE: [Line; 30] = [
    Read(0x118, Ok(0xC011)),
    Write(0x138, 1, Err(WriteFault::NotQueued)),
    Write(0x134, 3, Ok(Noted)),
    Read(0x134, Ok(3)),
    Read(0x138, Ok(0)),
    Write(0x138, 3, Ok(Commanded(3))),
    Read(0x138, Ok(3)),
    Write(0x138, 1, Ok(Commanded(0))),
    Call(Accepts(&[0], 2)),
    Read(0x138, Ok(2)),
    Call(Serves(&[0], 3, 1)),
    Call(Sector(3, 0xAA)),
    Read(0x134, Ok(2)),
    Read(0x110, Ok(8)),
    Write(0x110, 8, Ok(Noted)),
    Read(0x110, Ok(0)),
    // Slot 1 is active already, and the port has no slot 4.
    Write(0x134, 0x1F, Ok(Noted)),
    Read(0x134, Ok(0x0F)),
    Write(0x138, 0x10, Err(WriteFault::NotQueued)),
    Write(0x138, 1, Err(SLOT_0_IS_OWNED)),
    Call(Collect(0, 0, Ok((3, Outcome::Wrote, 0xAA)))),
    // Slot 0 comes before slot 2, and slot 3 after it.
    Write(0x138, 0x0D, Err(SLOT_2_HAS_ZEROS)),
    Read(0x138, Ok(3)),
    Read(0x134, Ok(0x0F)),
    Write(0x138, 8, Ok(Commanded(8))),
    Read(0x138, Ok(0x0B)),
    Call(Accepts(&[3], 7)),
    Call(Serves(&[3], 8, 1)),
    Call(Sector(5, 0xBB)),
    Read(0x134, Ok(7)),
];

#[test]
fn a_driver_issues_by_pxsact_and_pxci(rt: HostRuntime) -> Result<(), Fail> {
    drives(&rt, rt.alloc(), QUEUE.as_slice())
}

/// Tag 1 fails with error 40h at LBA 3.
const FAIL_1: TableStep = TableStep::Fail(1, 0x40, 3);

static WAY_BACK: [Line; 27] = [
    Write(0x134, 0x0A, Ok(Noted)),
    Write(0x138, 0x0A, Ok(Commanded(0x0A))),
    Call(Accepts(&[1], 2)),
    Write(0x118, 0x10, Err(WriteFault::NotHalted)),
    Write(0x118, 0x11, Ok(Noted)),
    Call(Step(FAIL_1, Ok(Failed(3)))),
    Read(0x120, Ok(0x4041)),
    Write(0x134, 1, Err(WriteFault::Halted)),
    Write(0x138, 1, Err(WriteFault::Halted)),
    Write(0x118, 0x11, Ok(Noted)),
    Read(0x118, Ok(0xC011)),
    Write(0x118, 0x10, Ok(Noted)),
    Read(0x118, Ok(0x4010)),
    Read(0x134, Ok(0)),
    Read(0x138, Ok(0)),
    Write(0x118, 0x11, Ok(Recovered(1))),
    Read(0x118, Ok(0xC011)),
    Read(0x120, Ok(0x40)),
    Read(0x134, Ok(0)),
    // Slot 3 is held, and its command is issued again.
    Write(0x134, 8, Ok(Noted)),
    Write(0x138, 8, Ok(Commanded(8))),
    Call(Accepts(&[3], 6)),
    Call(Serves(&[3], 7, 1)),
    Call(Sector(5, 0xBB)),
    Call(Failure(1, 0, (3, 0x40, 3), 0)),
    Call(Collect(3, 1, Ok((7, Outcome::Wrote, 0xBB)))),
    Read(0x134, Ok(0)),
];

#[test]
fn a_driver_stops_and_starts_a_port_that_has_failed(rt: HostRuntime) -> Result<(), Fail> {
    drives(&rt, rt.alloc(), WAY_BACK.as_slice())
}

static OTHERS: [Line; 10] = [
    Write(0x102, 0, Err(WriteFault::Register(RegFault::Unaligned))),
    Write(
        0x11C,
        0,
        Err(WriteFault::Register(RegFault::NoSuchRegister)),
    ),
    Read(0x11C, Err(RegFault::NoSuchRegister)),
    Write(0x118, 0x01, Err(WriteFault::Register(RegFault::Running))),
    Write(0x100, 0, Err(WriteFault::Register(RegFault::Running))),
    Write(0x100, 0x0001_0000, Ok(Noted)),
    Write(0x114, 0xFFFF_FFFF, Ok(Noted)),
    Read(0x114, Ok(0x4000_000F)),
    Write(0x120, 0x1234, Ok(Noted)),
    Read(0x120, Ok(0x40)),
];

#[test]
fn other_registers_take_what_their_table_says(rt: HostRuntime) -> Result<(), Fail> {
    drives(&rt, rt.alloc(), OTHERS.as_slice())
}
