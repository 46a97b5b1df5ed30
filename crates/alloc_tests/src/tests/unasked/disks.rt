//! A disk alone, over an image in memory of the heap.
use super::unasked;
use crate::tests::heap::{Heap, refuse_from};
use ncq_core::{Disk, ServeFault, Taken};
use ncq_journal::Plain;
use refusing_allocator::Refusing;
use sector_store::Single;
use std::process::Abort;
use std::test::Fail;

/// A command FIS, by its command, its first features byte, the low byte of its LBA and the low byte of its count.
fn command(code: u8, features: u8, lba: u8, count: u8) -> [u8; 20] {
    let device = if code == 0x60 || code == 0x61 {
        0x40
    } else {
        0
    };
    [
        0x27, 0x80, code, features, lba, 0, 0, device, 0, 0, 0, 0, count, 0, 0, 0, 0, 0, 0, 0,
    ]
}

/// A call of the disk, and what it answers.
#[derive(Clone, Copy, Debug)]
enum Call {
    /// READ or WRITE FPDMA QUEUED of one sector: its code, tag and LBA.
    Queue(u8, u8, u8),
    Identify,
    Flush,
    ReadLog,
    Fail(u8, u64),
    Reset,
}

/// What is looked at.
#[derive(Clone, Copy, Debug, PartialEq)]
enum Said {
    Taken(Taken),
    Failed(Result<[u8; 8], ServeFault>),
    Nothing,
}

const ACCEPTED: Said = Said::Taken(Taken::Accepted([
    0x34, 0, 0x40, 0, 0, 0, 0, 0, 0, 0, 0, 0, 0, 0, 0, 0, 0, 0, 0, 0,
]));

const ABORTED: Said = Said::Taken(Taken::Refused([
    0x34, 0x40, 0x41, 4, 0, 0, 0, 0, 0, 0, 0, 0, 0, 0, 0, 0, 0, 0, 0, 0,
]));

/// Refused with IDNF at LBA 8.
const AT_8: Said = Said::Taken(Taken::Refused([
    0x34, 0x40, 0x41, 0x10, 8, 0, 0, 0, 0, 0, 0, 0, 0, 0, 0, 0, 0, 0, 0, 0,
]));

/// Calls with their answers, and then the tags that are outstanding and whether there is an error condition.
static ROWS: [(Call, Said, u32, bool); 20] = [
    (
        Call::Identify,
        Said::Taken(Taken::Plain(Plain::Identify)),
        0,
        false,
    ),
    (
        Call::Flush,
        Said::Taken(Taken::Plain(Plain::Flush)),
        0,
        false,
    ),
    (Call::Queue(0x61, 1, 3), ACCEPTED, 2, false),
    (Call::Queue(0x61, 1, 3), ABORTED, 2, false),
    (Call::Queue(0x60, 3, 7), ACCEPTED, 10, false),
    (Call::Identify, ABORTED, 10, false),
    (
        Call::Fail(3, 6),
        Said::Failed(Err(ServeFault::OutsideCommand)),
        10,
        false,
    ),
    (
        Call::Fail(2, 7),
        Said::Failed(Err(ServeFault::NotAccepted)),
        10,
        false,
    ),
    (
        Call::Fail(3, 7),
        Said::Failed(Ok([0xA1, 0x40, 0x41, 0x40, 0, 0, 0, 0])),
        0,
        true,
    ),
    (
        Call::Fail(3, 7),
        Said::Failed(Err(ServeFault::Stopped)),
        0,
        true,
    ),
    (Call::Queue(0x60, 0, 0), ABORTED, 0, true),
    (
        Call::ReadLog,
        Said::Taken(Taken::Plain(Plain::ReadLog)),
        0,
        false,
    ),
    (Call::ReadLog, ABORTED, 0, false),
    (Call::Queue(0x60, 3, 7), ACCEPTED, 8, false),
    (Call::Queue(0x60, 1, 8), AT_8, 0, true),
    (
        Call::ReadLog,
        Said::Taken(Taken::Plain(Plain::ReadLog)),
        0,
        false,
    ),
    (Call::Queue(0x61, 2, 3), ACCEPTED, 4, false),
    (Call::Reset, Said::Nothing, 0, false),
    (Call::Queue(0x60, 1, 8), AT_8, 0, true),
    (Call::Reset, Said::Nothing, 0, false),
];

/// Sends a command that is not queued; a log that is granted is read.
fn sends(disk: &mut Disk<Single<&Heap>>, code: u8) -> Said {
    if code != 0x2F {
        return Said::Taken(disk.take(&command(code, 0, 0, 0)));
    }
    let taken = disk.take(&command(code, 0, 0x10, 1));
    if disk.stopped() {
        let _page = disk.read_log();
    }
    Said::Taken(taken)
}

fn goes(disk: &mut Disk<Single<&Heap>>, call: Call) -> Said {
    match call {
        Call::Queue(code, tag, lba) => Said::Taken(disk.take(&command(code, 1, lba, tag % 32 * 8))),
        Call::Identify => sends(disk, 0xEC),
        Call::Flush => sends(disk, 0xEA),
        Call::ReadLog => sends(disk, 0x2F),
        Call::Fail(tag, at) => Said::Failed(disk.fail(tag, 0x40, at)),
        Call::Reset => {
            disk.reset();
            Said::Nothing
        }
    }
}

/// The first bytes of a sector and of the identify page.
fn shown(disk: &Disk<Single<&Heap>>) -> (u8, u8, u32, u32) {
    let mut sector = [0; 512];
    if disk.sectors() == 8 {
        disk.copy(7, &mut sector);
    }
    let page = disk.identify();
    (sector[511], page[150], disk.sectors(), disk.depth())
}

#[test]
fn a_disk_never_asks_for_memory(rt: HostRuntime) -> Result<(), Fail> {
    let heap = Refusing::new(rt.alloc());
    let image = vec![in &heap; 0x77; 4096]?;
    refuse_from(&heap, 0);
    let mut disk = Disk::new(image, 4)?;
    for (call, said, tags, stopped) in ROWS {
        let found = (goes(&mut disk, call), disk.tags(), disk.stopped());
        unasked(&rt, &heap, &call, &found, &(said, tags, stopped));
        unasked(&rt, &heap, &call, &shown(&disk), &(0x77, 3, 8, 4));
    }
    Ok(())
}
