//! The life of a controller, call by call, with how many allocations each meets.

use crate::tests::player::Pieces::These;
use crate::tests::player::Row::{Fills, Has, HasAll, Lays};
use crate::tests::player::{Pieces, Row};
use crate::tests::registers::{
    GHC, PX_CI, PX_CLB, PX_CMD, PX_FB, PX_IE, PX_IS, PX_SACT, PX_SCTL, PX_SERR,
};
use crate::tests::settings::{
    DATA, IDENTIFY, NO_PIECES, NONE, ONE, OTHER, READ, READ_DMA, READ_LOG, SECTOR, TABLE, WRITE,
};

/// A call of the controller.
#[derive(Clone, Copy, Debug)]
pub enum Call {
    /// What the driver does with its memory, or sees there.
    Guest(Row),
    Write(u32, u32),
    Sign,
    Fetch(u8),
    /// The bytes that are read next.
    Supply,
    /// All that is still read or written.
    Settle,
    Send(u8),
    Accept(u8),
    Serve(u8),
    Deliver(u8),
    Execute(u8),
    Fail(u8),
    Recover(u8),
    Control(u8),
    Trim,
}

use Call::{
    Accept, Control, Deliver, Execute, Fetch, Guest as Driver, Recover, Send, Serve, Settle, Sign,
    Supply, Trim, Write,
};

/// A call, and how many allocations it meets.
pub type Step = (Call, u64);

/// The calls of one part of the life, in pieces.
pub type Part = &'static [&'static [Step]];

/// The command in slot 0 is read, with its entries.
const READ_IN_SLOT_0: &[Step] = &[
    (Write(PX_CI, 1), 0),
    (Fetch(0), 0),
    (Supply, 0),
    (Supply, 1),
    (Supply, 0),
];

/// The same of one that has no entries.
const READ_WITH_NO_ENTRIES: &[Step] = &[
    (Write(PX_CI, 1), 0),
    (Fetch(0), 0),
    (Supply, 0),
    (Supply, 0),
];

/// The same of a queued one in slot 1, with its entries.
const READ_IN_SLOT_1: &[Step] = &[
    (Write(PX_SACT, 2), 0),
    (Write(PX_CI, 2), 0),
    (Fetch(1), 0),
    (Supply, 0),
    (Supply, 1),
    (Supply, 0),
];

/// A queued command that is read has been accepted, after two allocations.
const ACCEPTED: &[Step] = &[(Send(1), 2), (Accept(1), 0), (Settle, 0)];

const STARTED: Part = &[&[
    (Write(GHC, 0x8000_0002), 0),
    (Write(PX_CLB, 0x1000), 0),
    (Write(PX_FB, 0x400), 0),
    (Write(PX_CMD, 0x10), 0),
    (Sign, 0),
    (Settle, 0),
    (Write(PX_SERR, 0xFFFF_FFFF), 0),
    (Write(PX_IE, 0x7800_002F), 0),
    (Write(PX_CMD, 0x11), 0),
]];

/// Three pages of data.
const PAGES: Pieces = These(&[(DATA, 1536)]);

/// The list of the command, its page, and the journal.
const IDENTIFIED: Part = &[
    &[(Driver(Lays(0, ONE, TABLE, IDENTIFY, SECTOR)), 0)],
    READ_IN_SLOT_0,
    &[
        (Execute(0), 2),
        (Settle, 0),
        (Driver(Has(DATA + 120, &[8, 0])), 0),
    ],
];

/// The list and the bytes of a write, its window, and the journal.
const WRITTEN: Part = &[
    &[
        (Driver(Fills(DATA, 512, 0xAA)), 0),
        (Driver(Lays(1, ONE, OTHER, WRITE, SECTOR)), 0),
        (Write(PX_SACT, 2), 0),
        (Write(PX_CI, 2), 0),
        (Fetch(1), 0),
        (Supply, 0),
        (Supply, 2),
        (Supply, 0),
        (Supply, 0),
    ],
    ACCEPTED,
    &[
        (Serve(1), 0),
        (Deliver(1), 0),
        (Settle, 0),
        (Driver(Row::Sector(3, 0xAA)), 0),
    ],
];

/// The list of a read, its window, and its bytes.
const READ_AGAIN: Part = &[
    &[
        (Driver(Fills(DATA, 512, 0)), 0),
        (Driver(Lays(1, ONE, OTHER, READ, SECTOR)), 0),
    ],
    READ_IN_SLOT_1,
    &[
        (Send(1), 1),
        (Accept(1), 0),
        (Settle, 0),
        (Serve(1), 0),
        (Deliver(1), 1),
        (Settle, 0),
        (Driver(HasAll(DATA, 512, 0xAA)), 0),
    ],
];

/// The journal has room.
const FLUSHED: Part = &[
    &[(
        Driver(Lays(0, NONE, TABLE, [0x2780_EA00, 0, 0, 0], NO_PIECES)),
        0,
    )],
    READ_WITH_NO_ENTRIES,
    &[(Execute(0), 0), (Settle, 0)],
];

const READ_BY_DMA: Part = &[
    &[
        (Driver(Fills(DATA, 512, 0)), 0),
        (Driver(Lays(0, ONE, TABLE, READ_DMA, SECTOR)), 0),
    ],
    READ_IN_SLOT_0,
    &[
        (Send(0), 1),
        (Accept(0), 0),
        (Serve(0), 0),
        (Deliver(0), 1),
        (Settle, 0),
        (Driver(HasAll(DATA, 512, 0xAA)), 0),
    ],
];

/// The journal's memory goes out with it.
const TRIMMED: Part = &[&[(Trim, 0)]];

/// A queued read that fails, and its log: a list each, which is copied, a window, a page, and the journal twice.
const FAILED: Part = &[
    &[(Driver(Lays(1, ONE, OTHER, READ, SECTOR)), 0)],
    READ_IN_SLOT_1,
    ACCEPTED,
    &[
        (Call::Fail(1), 1),
        (Settle, 0),
        (Write(PX_CMD, 0x10), 0),
        (Write(PX_IS, 0xFFFF_FFFF), 0),
        (Write(PX_CMD, 0x11), 0),
    ],
];

const RECOVERED: Part = &[
    &[(Driver(Lays(0, ONE, TABLE, READ_LOG, SECTOR)), 0)],
    READ_IN_SLOT_0,
    &[
        (Recover(0), 2),
        (Settle, 0),
        (Driver(Has(DATA, &[1, 0, 0x41, 0x40, 3])), 0),
    ],
];

/// No failure is left, so that the log is a page alone.
const LOGGED: Part = &[
    READ_IN_SLOT_0,
    &[
        (Execute(0), 1),
        (Settle, 0),
        (Driver(Has(DATA, &[0x80, 0])), 0),
    ],
];

/// The whole of log 30h, whose bytes grow page by page.
const ALL_LOGGED: Part = &[
    &[(
        Driver(Lays(
            0,
            ONE,
            TABLE,
            [0x2780_4700, 0x3000_0000, 0, 0x0300_0000],
            PAGES,
        )),
        0,
    )],
    READ_IN_SLOT_0,
    &[
        (Execute(0), 3),
        (Settle, 0),
        (Driver(Has(DATA, &[1, 0, 0, 0, 0, 0, 0, 0, 7, 0, 1, 2])), 0),
    ],
];

/// A page of a log of the host's is written by PIO: the list and the bytes of the command, and the pages that are written. Then it is read.
const HOST_LOG: Part = &[
    &[
        (Driver(Fills(DATA, 512, 0xBB)), 0),
        (
            Driver(Lays(
                0,
                ONE,
                TABLE,
                [0x2780_3F00, 0x8003_0000, 0, 0x0100_0000],
                SECTOR,
            )),
            0,
        ),
        (Write(PX_CI, 1), 0),
        (Fetch(0), 0),
        (Supply, 0),
        (Supply, 2),
        (Supply, 0),
        (Supply, 0),
        (Execute(0), 1),
        (Deliver(0), 0),
        (Settle, 0),
        (Deliver(0), 0),
        (Settle, 0),
        (Driver(Fills(DATA, 512, 0)), 0),
        (
            Driver(Lays(
                0,
                ONE,
                TABLE,
                [0x2780_4700, 0x8003_0000, 0, 0x0100_0000],
                SECTOR,
            )),
            0,
        ),
    ],
    READ_IN_SLOT_0,
    &[
        (Execute(0), 1),
        (Settle, 0),
        (Driver(HasAll(DATA, 512, 0xBB)), 0),
    ],
];

/// Commands that are dropped: by ST, by the link, by a software reset, and by the HBA's.
const TAKEN: Part = &[
    &[(Driver(Lays(1, ONE, OTHER, READ, SECTOR)), 0)],
    READ_IN_SLOT_1,
    ACCEPTED,
];

const STOPPED: Part = &[&[(Write(PX_CMD, 0x10), 0), (Write(PX_CMD, 0x11), 0)]];

const LINK_RESET: Part = &[&[
    (Write(PX_SCTL, 0x301), 0),
    (Write(PX_SCTL, 0x300), 0),
    (Sign, 0),
    (Settle, 0),
]];

/// SLEEP, which a reset of the link ends.
const ASLEEP: Part = &[
    &[(
        Driver(Lays(0, NONE, TABLE, [0x2780_E600, 0, 0, 0], NO_PIECES)),
        0,
    )],
    READ_WITH_NO_ENTRIES,
    &[(Execute(0), 0), (Settle, 0)],
];

const SOFTWARE_RESET: Part = &[
    &[(
        Driver(Lays(0, NONE | 0x500, TABLE, [0x2700_0000, 0, 0, 4], NO_PIECES)),
        0,
    )],
    READ_WITH_NO_ENTRIES,
    &[
        (Control(0), 0),
        (
            Driver(Lays(0, NONE, TABLE, [0x2700_0000, 0, 0, 0], NO_PIECES)),
            0,
        ),
    ],
    READ_WITH_NO_ENTRIES,
    &[(Control(0), 0), (Sign, 0), (Settle, 0)],
];

const HBA_RESET: Part = &[&[(Write(GHC, 0x8000_0001), 0)]];

pub static LIFE: [Part; 22] = [
    STARTED,
    IDENTIFIED,
    WRITTEN,
    READ_AGAIN,
    FLUSHED,
    READ_BY_DMA,
    TRIMMED,
    FAILED,
    RECOVERED,
    LOGGED,
    ALL_LOGGED,
    HOST_LOG,
    TAKEN,
    STOPPED,
    TAKEN,
    LINK_RESET,
    TAKEN,
    SOFTWARE_RESET,
    ASLEEP,
    LINK_RESET,
    TAKEN,
    HBA_RESET,
];
