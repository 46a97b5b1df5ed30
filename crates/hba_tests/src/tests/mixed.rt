//! A command that is not queued comes while queued ones are outstanding (ACS-3, "Native Command Queuing" and "NCQ Command Error log").

use crate::tests::player::Row::{
    Answered, Does, Fetches, Fills, Has, HasAll, Issues, Queues, Reads, ReadsBits, Refuses, Sector,
    Takes, Writes,
};
use crate::tests::player::{Row, Story, plays};
use crate::tests::registers::{PX_CI, PX_IS, PX_SACT, PX_TFD};
use crate::tests::resets::SOFTWARE_RESET;
use crate::tests::settings::{
    COMRESET, DATA, IDENTIFY, MEMORY, ONE, OTHER, READ, READ_DMA, READ_LOG, RESTART, SECTOR, START,
    SmallStory, TABLE, WRITE, play_small,
};
use std::test::Fail;

/// A queued write is outstanding, and a read that is not queued is aborted with ERR: the port halts. Neither command moves its data.
const MIXED: &[Row] = &[
    Fills(DATA, 512, 0xAA),
    Queues(1, ONE, OTHER, WRITE, SECTOR),
    Takes(1),
    Reads(PX_CI, 0),
    Issues(0, ONE, TABLE, READ_DMA, SECTOR),
    Does(0),
    Answered(0x41, 4, 0, 0),
    Reads(PX_TFD, 0x441),
    ReadsBits(PX_IS, 0x4000_0000, 0x4000_0000),
    Reads(PX_SACT, 2),
    Reads(PX_CI, 1),
    Does(1),
    Reads(PX_SACT, 2),
    Sector(3, 0),
    HasAll(DATA, 512, 0xAA),
];

/// All other commands are aborted, queued ones too, since log 10h is to be read.
const ALONE_ABORTED: &[Row] = &[
    Issues(0, ONE, TABLE, IDENTIFY, SECTOR),
    Does(0),
    Answered(0x41, 4, 0, 0),
    HasAll(DATA, 512, 0xAA),
];

const QUEUED_ABORTED: &[Row] = &[
    Queues(1, ONE, OTHER, READ, SECTOR),
    Does(1),
    Answered(0x41, 4, 0, 0),
    Reads(PX_SACT, 2),
    Reads(PX_CI, 2),
    HasAll(DATA, 512, 0xAA),
];

/// Log 10h: NQ, the status and the error of the command that was not queued. After it NQ alone.
const LOG: &[Row] = &[
    Issues(0, ONE, TABLE, READ_LOG, SECTOR),
    Does(0),
    Reads(PX_CI, 0),
    Has(DATA, &[0x80, 0, 0x41, 0x04, 0, 0, 0, 0]),
    HasAll(DATA + 4, 507, 0),
    Has(DATA + 511, &[0x3B]),
];

const LOG_AGAIN: &[Row] = &[
    Writes(PX_CI, 1),
    Does(0),
    Has(DATA, &[0x80, 0, 0, 0, 0, 0, 0, 0]),
    Has(DATA + 511, &[0x80]),
];

/// Commands of both kinds are done again.
const GOES_ON: &[Row] = &[
    Fills(DATA, 512, 0xAA),
    Queues(1, ONE, OTHER, WRITE, SECTOR),
    Does(1),
    Reads(PX_SACT, 0),
    Sector(3, 0xAA),
    Fills(DATA, 512, 0),
    Issues(0, ONE, TABLE, READ_DMA, SECTOR),
    Does(0),
    Answered(0x40, 0, 0, 0),
    HasAll(DATA, 512, 0xAA),
];

/// A command that is ended with another error has it in the log.
const MIXED_OTHERWISE: &[Row] = &[
    Queues(1, ONE, OTHER, READ, SECTOR),
    Takes(1),
    Issues(0, ONE, TABLE, READ_DMA, SECTOR),
    Fetches(0),
    Refuses(0, 0x84, 3),
    Answered(0x41, 0x84, 3, 0),
];

const OTHER_LOG: &[Row] = &[
    Issues(0, ONE, TABLE, READ_LOG, SECTOR),
    Does(0),
    Has(DATA, &[0x80, 0, 0x41, 0x84, 0, 0, 0, 0]),
    Has(DATA + 511, &[0xBB]),
];

/// The same without a change of a sector, for what is asked before.
const MIXED_AGAIN: &[Row] = &[
    Queues(1, ONE, OTHER, READ, SECTOR),
    Takes(1),
    Issues(0, ONE, TABLE, READ_DMA, SECTOR),
    Does(0),
    Answered(0x41, 4, 0, 0),
];

static STORY: SmallStory = (
    "a command under queued ones",
    &[
        START,
        MIXED,
        RESTART,
        ALONE_ABORTED,
        RESTART,
        QUEUED_ABORTED,
        RESTART,
        LOG,
        LOG_AGAIN,
        GOES_ON,
        MIXED_OTHERWISE,
        RESTART,
        OTHER_LOG,
        GOES_ON,
        MIXED_AGAIN,
        COMRESET,
        GOES_ON,
        MIXED_AGAIN,
        RESTART,
        SOFTWARE_RESET,
        GOES_ON,
    ],
);

/// A queued command whose tag the disk hasn't is aborted beside another queued one, and is no command that isn't queued: the disk goes on.
const TAG_PAST_THE_DEPTH: &[Row] = &[
    Queues(1, ONE, OTHER, READ, SECTOR),
    Takes(1),
    Queues(
        9,
        ONE,
        TABLE,
        [0x2780_6001, 0x0300_0040, 0, 0x4800_0000],
        SECTOR,
    ),
    Does(9),
    Answered(0x41, 4, 0, 0),
    Reads(PX_CI, 0x200),
];

const NOTHING_PENDING: &[Row] = &[
    Issues(0, ONE, TABLE, READ_LOG, SECTOR),
    Does(0),
    Has(DATA, &[0x80, 0, 0, 0, 0, 0, 0, 0]),
    Has(DATA + 511, &[0x80]),
];

static SHORT_QUEUE: Story = Story {
    name: "a tag past the depth",
    sectors: 8,
    depth: 8,
    memory: MEMORY,
    parts: &[
        START,
        TAG_PAST_THE_DEPTH,
        RESTART,
        GOES_ON,
        TAG_PAST_THE_DEPTH,
        RESTART,
        NOTHING_PENDING,
    ],
};

#[test]
fn a_queued_command_that_is_aborted_leaves_the_disk_going(rt: HostRuntime) -> Result<(), Fail> {
    plays(&rt, rt.alloc(), &SHORT_QUEUE)
}

#[test]
fn a_command_under_queued_ones_aborts_them_until_the_log_is_read(
    rt: HostRuntime,
) -> Result<(), Fail> {
    play_small(&rt, rt.alloc(), &[STORY])
}
