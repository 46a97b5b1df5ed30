//! Stories of reads whose PRDT names fewer bytes than the device sends (AHCI 1.3.1, sections 3.3.5, OFS, 6.1.5 and 6.2.1).

use crate::tests::fatal::GOES_ON;
use crate::tests::player::Pieces::These;
use crate::tests::player::Row;
use crate::tests::player::Row::{
    Does, Fills, Has, HasAll, Issues, Queues, Reads, ReadsBits, Writes,
};
use crate::tests::registers::{PX_CI, PX_IS, PX_SACT, PX_TFD};
use crate::tests::settings::{
    DATA, LIST, ONE, OTHER, READ, READ_DMA, SECTOR, START, SmallStory, TABLE, play_small,
};
use std::test::Fail;

/// A read whose list is too short: the list is filled, OFS is set, and the port goes on, since OFS is no fatal error (sections 6.1.5 and 6.2.1).
const TOO_SHORT: &[Row] = &[
    Fills(DATA, 512, 0xAA),
    Queues(1, ONE, OTHER, READ, These(&[(DATA, 256)])),
    Does(1),
    Reads(PX_SACT, 0),
    Reads(PX_CI, 0),
    Reads(PX_IS, 0x0100_0008),
    ReadsBits(PX_TFD, 0x89, 0),
    HasAll(DATA, 256, 0),
    HasAll(DATA + 256, 256, 0xAA),
    Writes(PX_IS, 0x0100_0008),
];

const TOO_SHORT_BY_DMA: &[Row] = &[
    Fills(DATA, 512, 0xAA),
    Issues(0, ONE, TABLE, READ_DMA, These(&[(DATA, 256)])),
    Does(0),
    Reads(PX_CI, 0),
    ReadsBits(PX_TFD, 0x89, 0),
    Reads(PX_IS, 0x0100_0001),
    Has(LIST + 4, &[0, 1, 0, 0]),
    HasAll(DATA, 256, 0),
    HasAll(DATA + 256, 256, 0xAA),
    Writes(PX_IS, 0x0100_0001),
];

const NO_ROOM: &[Row] = &[
    Issues(0, 5, TABLE, READ_DMA, SECTOR),
    Does(0),
    Reads(PX_CI, 0),
    Reads(PX_IS, 0x0100_0001),
    Has(LIST + 4, &[0, 0, 0, 0]),
    Writes(PX_IS, 0x0100_0001),
];

/// By PIO the first block moves, half of the second one, and none of the third.
const TOO_SHORT_BY_PIO: &[Row] = &[
    Fills(DATA, 1024, 0xAA),
    Issues(
        0,
        ONE,
        TABLE,
        [0x2780_2000, 0x0300_0040, 0, 0x0300_0000],
        These(&[(DATA, 768)]),
    ),
    Does(0),
    Reads(PX_CI, 0),
    ReadsBits(PX_TFD, 0x89, 0),
    Reads(PX_IS, 0x0100_0002),
    Has(LIST + 4, &[0, 3, 0, 0]),
    HasAll(DATA, 768, 0),
    HasAll(DATA + 768, 256, 0xAA),
    Writes(PX_IS, 0x0100_0002),
];

static SHORT: SmallStory = (
    "short lists",
    &[
        START,
        TOO_SHORT,
        GOES_ON,
        TOO_SHORT_BY_DMA,
        NO_ROOM,
        TOO_SHORT_BY_PIO,
        GOES_ON,
    ],
);

#[test]
fn a_short_list_is_filled_and_the_port_goes_on(rt: HostRuntime) -> Result<(), Fail> {
    play_small(&rt, rt.alloc(), &[SHORT])
}
