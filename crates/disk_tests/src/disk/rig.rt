//! A disk beside a host in memory, and the rows of a table of its calls.
ghost use Rattle.std.specs.Prelude.{◌≤◌, ◌<◌};

use super::memory::{Link, Memory, serve};
use crate::table::equal;
use ncq_core::{Disk, ServeFault, Taken};
use std::alloc::Global;
use std::process::Abort;
use std::test::Fail;
use test_helpers::byte_of;

/// WRITE FPDMA QUEUED, 1 sector at LBA 3, tag 1.
pub const WRITE: [u8; 20] = [
    0x27, 0x80, 0x61, 1, 3, 0, 0, 0x40, 0, 0, 0, 0, 8, 0, 0, 0, 0, 0, 0, 0,
];
/// READ FPDMA QUEUED, 8 sectors at LBA 123456789Ah, tag 5.
pub const FAR_READ: [u8; 20] = [
    0x27, 0x80, 0x60, 8, 0x9A, 0x78, 0x56, 0x40, 0x34, 0x12, 0, 0, 0x28, 0, 0, 0, 0, 0, 0, 0,
];
/// IDENTIFY DEVICE.
pub const IDENTIFY: [u8; 20] = [
    0x27, 0x80, 0xEC, 0, 0, 0, 0, 0, 0, 0, 0, 0, 0, 0, 0, 0, 0, 0, 0, 0,
];
/// FLUSH CACHE EXT.
pub const FLUSH: [u8; 20] = [
    0x27, 0x80, 0xEA, 0, 0, 0, 0, 0, 0, 0, 0, 0, 0, 0, 0, 0, 0, 0, 0, 0,
];
/// READ LOG EXT, page 0 of log 10h.
pub const READ_LOG: [u8; 20] = [
    0x27, 0x80, 0x2F, 0, 0x10, 0, 0, 0, 0, 0, 0, 0, 1, 0, 0, 0, 0, 0, 0, 0,
];

pub const ACCEPTED: Taken = Taken::Accepted([
    0x34, 0, 0x40, 0, 0, 0, 0, 0, 0, 0, 0, 0, 0, 0, 0, 0, 0, 0, 0, 0,
]);

pub const ABORTED: Taken = Taken::Refused([
    0x34, 0x40, 0x41, 4, 0, 0, 0, 0, 0, 0, 0, 0, 0, 0, 0, 0, 0, 0, 0, 0,
]);

/// A call of a disk, with its answer.
#[derive(Clone, Copy)]
pub enum Call {
    /// A command comes.
    Take([u8; 20], Taken),
    /// A command comes without its last byte.
    TakeShort([u8; 20], Taken),
    /// READ or WRITE FPDMA QUEUED comes, with this command byte, tag, LBA and number of sectors.
    Queue(u8, u8, u8, u16, Taken),
    Serve(u8, Result<(), ServeFault>),
    Fail(u8, u8, u64, Result<[u8; 8], ServeFault>),
    /// The log page has these bytes at these places; all others are 0.
    ReadLog(&'static [(usize, u8)]),
}

/// A call, and then the tags that are outstanding and whether there is an error condition.
pub type Row = (Call, u32, bool);

/// A disk of sectors filled with one byte.
pub fn disk_of(alloc: Global, byte: u8, sectors: usize, depth: u32) -> Result<Disk, Fail>
    requires { sectors ≤ 131072 }
{
    Ok(Disk::new(vec![in alloc; byte; sectors * 512]?, depth)?)
}

/// A READ or WRITE FPDMA QUEUED of at most 65,535 sectors; 0 means 65,536.
pub fn queued(command: u8, tag: u8, lba: u8, sectors: u16) -> [u8; 20]
    requires { tag < 32 }
{
    let [low, high] = sectors.to_le_bytes();
    [
        0x27,
        0x80,
        command,
        low,
        lba,
        0,
        0,
        0x40,
        0,
        0,
        0,
        high,
        tag * 8,
        0,
        0,
        0,
        0,
        0,
        0,
        0,
    ]
}

/// A page with these bytes at these places; all others are 0.
fn page_of(bytes: &[(usize, u8)]) -> [u8; 512] {
    let mut page = [0; 512];
    for (place, byte) in bytes {
        if let Some(slot) = page.get_mut(*place) {
            *slot = *byte;
        }
    }
    page
}

/// A disk, and the host that it moves data with.
#[derive(Drop)]
pub struct Rig {
    pub disk: Disk,
    pub host: Memory,
}

impl Rig {
    /// A disk of sectors filled with one byte, and a host whose text is filled with another.
    pub fn new(alloc: Global, sectors: usize, depth: u32, byte: u8, text: u8) -> Result<Self, Fail>
        requires { sectors ≤ 131072 }
    {
        let disk = disk_of(alloc, byte, sectors, depth)?;
        let host = Memory::new(alloc, &disk, text)?;
        Ok(Rig { disk, host })
    }

    fn call(&mut self, rt: &impl Abort, row: usize, call: Call) {
        match call {
            Call::Take(bytes, answer) => equal(rt, row, &self.disk.take(&bytes), &answer),
            Call::TakeShort(bytes, answer) => {
                equal(rt, row, &self.disk.take(&bytes[..19]), &answer);
            }
            Call::Queue(command, tag, lba, sectors, answer) => {
                assert!(rt; tag < 32);
                let bytes = queued(command, tag, lba, sectors);
                equal(rt, row, &self.disk.take(&bytes), &answer);
            }
            Call::Serve(tag, answer) => {
                let found = serve(rt, &mut self.disk, tag, &mut self.host);
                equal(rt, row, &found, &answer);
            }
            Call::Fail(tag, error, at, answer) => {
                equal(rt, row, &self.disk.fail(tag, error, at), &answer);
            }
            Call::ReadLog(bytes) => {
                assert!(rt; self.disk.stopped());
                equal(rt, row, &self.disk.read_log(), &page_of(bytes));
            }
        }
    }

    /// Makes a row's call, and compares what it leaves.
    pub fn goes(&mut self, rt: &impl Abort, row: usize, (call, tags, stopped): Row) {
        self.call(rt, row, call);
        let left = (self.disk.tags(), self.disk.stopped());
        equal(rt, row, &left, &(tags, stopped));
    }

    /// The byte of which a sector is full; none where its bytes differ, and where there is no such sector.
    pub fn filling(&self, lba: u64) -> Option<u8> {
        let mut sector = [0; 512];
        if lba >= u64::from(self.disk.sectors()) {
            return None;
        }
        self.disk.copy(lba, &mut sector);
        byte_of(&sector)
    }

    /// Compares the first byte of each sector, all of whose bytes are alike.
    fn shows(&self, rt: &impl Abort, image: &[u8]) {
        equal(rt, 0, &(self.disk.sectors() as usize), &image.len());
        for (lba, byte) in image.iter().enumerate() {
            equal(rt, lba, &self.filling(lba as u64), &Some(*byte));
        }
    }
}

/// Makes the calls of a table on a disk of `depth` tags with as many sectors as the image, all full of `byte`, beside a
/// host whose text is full of `text`. Then the link has seen this, and each sector is full of its byte of the image.
pub fn plays(
    rt: &impl Abort,
    alloc: Global,
    (depth, byte, text): (u32, u8, u8),
    rows: &[Row],
    link: &Link,
    image: &[u8],
) -> Result<(), Fail> {
    assert!(rt; image.len() <= 131_072);
    let mut rig = Rig::new(alloc, image.len(), depth, byte, text)?;
    for (number, row) in rows.iter().enumerate() {
        rig.goes(rt, number, *row);
    }
    equal(
        rt,
        rows.len(),
        &(rig.disk.depth(), rig.host.link),
        &(depth, *link),
    );
    rig.shows(rt, image);
    Ok(())
}
