//! What log 11h counts (Serial ATA, "Phy Event Counters").

use crate::tests::player::Row::{
    Answered, Does, Fails, Fetches, Has, HasAll, Issues, Queues, Reads, Refuses, Signs, Takes,
    Writes,
};
use crate::tests::player::{Player, Row, Story};
use crate::tests::registers::{GHC, PX_CI, PX_SACT};
use crate::tests::resets::SOFTWARE_RESET;
use crate::tests::settings::{
    COMRESET, DATA, MEMORY, ONE, OTHER, READ, READ_DMA, READ_LOG, RESTART, SECTOR, START, TABLE,
};
use std::test::Fail;

/// READ LOG EXT and READ LOG DMA EXT of log 11h; with bit 0 of features the counters are reset once they are read.
const BY_PIO: [u32; 4] = [0x2780_2F00, 0x1100_0000, 0, 0x0100_0000];

const RESETS_BY_PIO: [u32; 4] = [0x2780_2F01, 0x1100_0000, 0, 0x0100_0000];

const RESETS_BY_DMA: [u32; 4] = [0x2780_4703, 0x1100_0000, 0, 0x0100_0000];

/// Power-on has had the link reset, and the disk has sent its signature: counter 00Ah is 1, and 001h is 0.
const ONE_SIGNATURE: &[Row] = &[
    Issues(0, ONE, TABLE, BY_PIO, SECTOR),
    Does(0),
    Reads(PX_CI, 0),
    Has(DATA, &[0, 0, 0, 0, 1, 0x10, 0, 0, 0x0A, 0x10, 1, 0, 0, 0]),
    HasAll(DATA + 14, 497, 0),
    Has(DATA + 511, &[0xD4]),
];

/// A command ends with ICRC, and one with UNC; a software reset has a signature, which isn't counted.
const FAILING: &[Row] = &[
    Issues(0, ONE, TABLE, READ_DMA, SECTOR),
    Fetches(0),
    Refuses(0, 0x84, 3),
    Answered(0x41, 0x84, 3, 0),
];

const FAILING_OTHERWISE: &[Row] = &[
    Writes(PX_CI, 1),
    Fetches(0),
    Refuses(0, 0x40, 3),
    Answered(0x41, 0x40, 3, 0),
];

const AFTER_ONE_ERROR: &[Row] = &[
    Issues(0, ONE, TABLE, BY_PIO, SECTOR),
    Does(0),
    Has(DATA, &[0, 0, 0, 0, 1, 0x10, 1, 0, 0x0A, 0x10, 2, 0, 0, 0]),
    Has(DATA + 511, &[0xD2]),
];

/// A queued command ends with ICRC, and its log is read.
const QUEUE_FAILING: &[Row] = &[
    Queues(1, ONE, OTHER, READ, SECTOR),
    Takes(1),
    Fails(1, 0x84, 3),
    Reads(PX_SACT, 2),
];

const QUEUE_READ: &[Row] = &[
    Issues(0, ONE, TABLE, READ_LOG, SECTOR),
    Does(0),
    Has(DATA, &[1, 0, 0x41, 0x84]),
];

/// The counters are read, and then reset; by DMA the same.
const RESETTING: &[Row] = &[
    Issues(0, ONE, TABLE, RESETS_BY_PIO, SECTOR),
    Does(0),
    Has(DATA, &[0, 0, 0, 0, 1, 0x10, 2, 0, 0x0A, 0x10, 2, 0, 0, 0]),
    Has(DATA + 511, &[0xD1]),
    Issues(0, ONE, TABLE, BY_PIO, SECTOR),
    Does(0),
    Has(DATA, &[0, 0, 0, 0, 1, 0x10, 0, 0, 0x0A, 0x10, 0, 0, 0, 0]),
    Has(DATA + 511, &[0xD5]),
];

const RESETTING_BY_DMA: &[Row] = &[
    Issues(0, ONE, TABLE, RESETS_BY_DMA, SECTOR),
    Does(0),
    Has(DATA, &[0, 0, 0, 0, 1, 0x10, 0, 0, 0x0A, 0x10, 1, 0, 0, 0]),
    Issues(0, ONE, TABLE, BY_PIO, SECTOR),
    Does(0),
    Has(DATA, &[0, 0, 0, 0, 1, 0x10, 0, 0, 0x0A, 0x10, 0, 0, 0, 0]),
];

/// A reset of the HBA resets the link, so the signature comes again. The counters stay.
const HBA_RESET: &[Row] = &[Writes(GHC, 0x8000_0001), Signs];

static STORY: Story = Story {
    name: "the Phy counts",
    sectors: 8,
    depth: 32,
    memory: MEMORY,
    parts: &[
        START,
        ONE_SIGNATURE,
        FAILING,
        RESTART,
        FAILING_OTHERWISE,
        RESTART,
        SOFTWARE_RESET,
        COMRESET,
        AFTER_ONE_ERROR,
        QUEUE_FAILING,
        RESTART,
        QUEUE_READ,
        RESETTING,
        COMRESET,
        RESETTING_BY_DMA,
        HBA_RESET,
        START,
        ONE_SIGNATURE,
    ],
};

#[test]
fn log_11h_counts_errors_and_signatures(rt: HostRuntime) -> Result<(), Fail> {
    let mut player = Player::new(rt.alloc(), STORY.sectors, STORY.depth, STORY.memory)?;
    for (part, rows) in STORY.parts.iter().enumerate() {
        player.play(&rt, STORY.name, part, rows);
    }
    let _journal = player.power_on();
    player.play(&rt, "power-on", 0, START);
    player.play(&rt, "power-on", 1, ONE_SIGNATURE);
    Ok(())
}
