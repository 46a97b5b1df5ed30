//! A journal that is trimmed while a driver goes on. A command that moves sectors makes four entries: issue, accept, complete, collect.

use crate::tests::player::Row::{
    Does, Fails, Fetches, Fills, Has, HasAll, Issues, Queues, Reads, Sector, Takes, Writes,
};
use crate::tests::player::{Player, Row, equal};
use crate::tests::registers::{GHC, PX_SACT, PX_TFD};
use crate::tests::settings::{
    DATA, MEMORY, ONE, OTHER, READ, READ_DMA, READ_LOG, RESTART, SECTOR, START, TABLE, WRITE,
};
use ahci_port::TrimFault;
use std::test::Fail;

/// WRITE DMA of the sector at LBA 4, and WRITE FPDMA QUEUED of the one at LBA 5, with tag 2.
const WRITE_DMA: [u32; 4] = [0x2780_CA00, 0x0400_0040, 0, 0x0100_0000];

const SECOND: [u32; 4] = [0x2780_6101, 0x0500_0040, 0, 0x1000_0000];

/// A queued command and one that is not queued.
const WRITTEN: &[Row] = &[
    Fills(DATA, 512, 0xAA),
    Queues(1, ONE, OTHER, WRITE, SECTOR),
    Does(1),
    Fills(DATA, 512, 0xBB),
    Issues(0, ONE, TABLE, WRITE_DMA, SECTOR),
    Does(0),
    Sector(3, 0xAA),
    Sector(4, 0xBB),
];

/// A queued read that the disk has taken.
const TAKEN: &[Row] = &[Queues(1, ONE, OTHER, READ, SECTOR), Takes(1)];

/// Another command that is read and not sent.
const WAITING: &[Row] = &[Queues(2, ONE, TABLE, SECOND, SECTOR), Fetches(2)];

/// The first of them ends, and reads what was written before the trim.
const ENDED: &[Row] = &[Does(1), HasAll(DATA, 512, 0xAA), Reads(PX_SACT, 4)];

/// The other one is sent after the trim.
const SENT: &[Row] = &[
    Sector(3, 0xAA),
    Sector(4, 0xBB),
    Does(2),
    Sector(5, 0xBB),
    Reads(PX_SACT, 0),
];

const FAILED: &[Row] = &[Fails(1, 0x40, 3), Reads(PX_TFD, 0x4041)];

/// The log is read, which resets the port.
const LOGGED: &[Row] = &[
    Issues(0, ONE, TABLE, READ_LOG, SECTOR),
    Does(0),
    Has(DATA, &[1, 0, 0x41, 0x40, 3]),
];

/// A reset of the HBA leaves the journal of a port without requests.
const RESET: &[Row] = &[
    Issues(0, ONE, TABLE, READ_DMA, SECTOR),
    Does(0),
    HasAll(DATA, 512, 0xAA),
    Writes(GHC, 0x8000_0001),
];

const READ_AGAIN: &[Row] = &[
    Issues(0, ONE, TABLE, READ_DMA, SECTOR),
    Does(0),
    HasAll(DATA, 512, 0xAA),
    Sector(4, 0xBB),
    Sector(5, 0xBB),
];

/// What happens, what a trim answers after it, and the numbers of the journal's first entry and of the next one then.
type Part = (&'static [Row], Result<u64, TrimFault>, (u64, u64));

static LIFE: [Part; 12] = [
    (START, Ok(0), (0, 0)),
    (WRITTEN, Ok(8), (8, 8)),
    (TAKEN, Err(TrimFault::Busy), (8, 10)),
    (WAITING, Err(TrimFault::Busy), (8, 10)),
    (ENDED, Ok(4), (12, 12)),
    (SENT, Ok(4), (16, 16)),
    (TAKEN, Err(TrimFault::Busy), (16, 18)),
    (FAILED, Err(TrimFault::Busy), (16, 19)),
    (RESTART, Err(TrimFault::Busy), (16, 19)),
    (LOGGED, Ok(0), (21, 21)),
    (RESET, Ok(4), (25, 25)),
    (START, Ok(0), (25, 25)),
];

#[test]
fn a_journal_is_trimmed_between_requests_and_the_driver_goes_on(
    rt: HostRuntime,
) -> Result<(), Fail> {
    let name = "a journal is trimmed";
    let mut player = Player::new(rt.alloc(), 8, 32, MEMORY)?;
    for (part, (rows, answer, numbers)) in LIFE.iter().enumerate() {
        player.play(&rt, name, part, rows);
        equal(&rt, (name, part, 99), &player.trim(), answer);
        equal(&rt, (name, part, 99), &player.numbers(), numbers);
    }
    player.play(&rt, name, LIFE.len(), READ_AGAIN);
    Ok(())
}
