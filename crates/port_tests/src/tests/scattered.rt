//! Commands whose data lie in many pieces, or are long, served and collected.
use crate::tests::table::{equal, equal_bytes};
use ahci_port::{DeviceStep, Port, Reply, Stepped};
use ahci_table::{Piece, Window};
use ncq_journal::{Bytes, Op, Outcome};
use std::alloc::{AllocError, Global};
use std::process::Abort;
use std::test::Fail;

/// A command of so many sectors, with its data in so many pieces; and whether FUA is set and PRIO is high.
#[derive(Clone, Copy, Debug)]
struct Scattered {
    sectors: usize,
    pieces: u32,
    is_urgent: bool,
}

/// How many sectors the disk has.
const SECTORS: usize = 300;

/// Where the commands begin.
const LBA: u64 = 20;

/// Bytes of which no sector is like another.
fn pattern(alloc: Global, len: usize) -> Result<Vec<u8>, AllocError> {
    let mut bytes = vec![in alloc; 0u8; len]?;
    for (place, byte) in bytes.iter_mut().enumerate() {
        *byte = (place % 251) as u8;
    }
    Ok(bytes)
}

/// Pieces of even lengths in falling order, two bytes apart, of which the first has what the others leave.
fn falling(alloc: Global, total: u32, count: u32) -> Result<Vec<Piece>, AllocError> {
    let mut pieces = Vec::new(alloc);
    let len = total / count.max(1) / 2 * 2;
    let first = total.saturating_sub(len.saturating_mul(count.saturating_sub(1)));
    for index in 0..count {
        let behind = count.saturating_sub(1).saturating_sub(index);
        let at = len
            .saturating_add(2)
            .saturating_mul(behind)
            .saturating_add(0x1000);
        let len = if index == 0 { first } else { len };
        pieces.push(Piece { at, len })?;
    }
    Ok(pieces)
}

/// A window whose FUA, bit 7 of device, and PRIO, bits 15:14 of count, are set.
fn urgent(alloc: Global, window: &Window) -> Result<Window, AllocError> {
    let mut bytes = Vec::from_slice(alloc, window.bytes())?;
    for (place, byte) in [(7, 0xC0), (13, 0xC0)] {
        if let Some(old) = bytes.get_mut(place) {
            *old = byte;
        }
    }
    Ok(Window::from_parts(window.tag(), *window.header(), bytes))
}

/// Issues a command, has it served, and collects it: the text of its window.
fn served(
    rt: &impl Abort,
    alloc: Global,
    port: &mut Port,
    op: &Op,
    scattered: Scattered,
) -> Result<Vec<u8>, Fail> {
    let row = scattered.pieces as usize;
    let tag = (scattered.pieces % 32) as u8;
    let total = scattered.sectors.min(256) as u32 * 512;
    let pieces = falling(alloc, total, scattered.pieces)?;
    assert!(rt; tag < 32);
    let mut window = Window::build(alloc, tag, op, pieces.as_slice())?;
    if scattered.is_urgent {
        window = urgent(alloc, &window)?;
    }
    let number = port.journal().len();
    let Ok(issued) = port.issue(window) else {
        return Err(Fail::new("not issued"));
    };
    let found = (
        issued,
        port.step(DeviceStep::Accept(tag)),
        port.step(DeviceStep::serve_one(tag)),
    );
    let accepted = Ok(Stepped::Accepted(number.wrapping_add(1)));
    let completed = Ok(Stepped::Completed {
        first: number.wrapping_add(2),
        count: 1,
    });
    equal(rt, row, &found, &(number, accepted, completed));
    let (reply, window) = port.collect(tag, number)?;
    let outcome = match op {
        Op::Read { .. } => Outcome::Read,
        Op::Write { .. } => Outcome::Wrote,
    };
    let wanted = Reply {
        number,
        entry: number.wrapping_add(2),
        outcome,
    };
    equal(rt, row, &reply, &wanted);
    Ok(window.text(alloc)?)
}

/// Compares each sector with that of the data from the commands' LBA on, and with 5Ah elsewhere.
fn compares_sectors(rt: &impl Abort, port: &Port, data: &[u8]) {
    let mut sector = [0; 512];
    let blank = [0x5A; 512];
    for lba in 0..u64::from(port.sectors()) {
        port.copy(lba, &mut sector);
        let place = lba.wrapping_sub(LBA) as usize;
        let wanted = data.chunks(512).nth(place).unwrap_or(&blank);
        equal_bytes(rt, lba as usize, &sector, wanted);
    }
}

/// Writes data that lie in pieces, and reads them back into as many.
fn moves(rt: &impl Abort, alloc: Global, scattered: Scattered) -> Result<(), Fail> {
    let sectors = scattered.sectors.min(256);
    let row = scattered.pieces as usize;
    let mut port = Port::new(alloc, vec![in alloc; 0x5A; SECTORS * 512]?, 32)?;
    let data = pattern(alloc, sectors * 512)?;
    let bytes = Bytes::from_vec(pattern(alloc, sectors * 512)?);
    let write = Op::Write { lba: LBA, bytes };
    let text = served(rt, alloc, &mut port, &write, scattered)?;
    equal_bytes(rt, row, text.as_slice(), data.as_slice());
    compares_sectors(rt, &port, data.as_slice());
    let read = Op::Read {
        lba: LBA,
        sectors: sectors as u32,
    };
    let text = served(rt, alloc, &mut port, &read, scattered)?;
    equal_bytes(rt, row, text.as_slice(), data.as_slice());
    Ok(())
}

#[test]
fn data_in_2_to_32_pieces_are_written_and_read_back(rt: HostRuntime) -> Result<(), Fail> {
    for pieces in 2..=32u32 {
        let scattered = Scattered {
            sectors: 3,
            pieces,
            is_urgent: pieces % 2 == 0,
        };
        moves(&rt, rt.alloc(), scattered)?;
    }
    Ok(())
}

static LONG: [Scattered; 3] = [
    Scattered {
        sectors: 256,
        pieces: 1,
        is_urgent: true,
    },
    Scattered {
        sectors: 256,
        pieces: 31,
        is_urgent: false,
    },
    Scattered {
        sectors: 256,
        pieces: 32,
        is_urgent: true,
    },
];

#[test]
fn sectors_by_the_hundred_are_written_and_read_back(rt: HostRuntime) -> Result<(), Fail> {
    for scattered in LONG {
        moves(&rt, rt.alloc(), scattered)?;
    }
    Ok(())
}
