//! Queued commands by the standard's fields: READ with one field changed, and what it asks.
use crate::table::equal;
use sata_fis::{H2d, Queued, h2d_of, queued};

/// READ FPDMA QUEUED of 8 sectors at LBA 123456789Ah with tag 5.
const READ: H2d = H2d {
    c: true,
    command: 0x60,
    features: 8,
    lba: 0x12_3456_789A,
    device: 0x40,
    count: 0x28,
    control: 0,
};

/// What `READ` asks.
const ASKED: Queued = Queued {
    write: false,
    tag: 5,
    lba: 0x12_3456_789A,
    sectors: 8,
    fua: false,
};

/// The field of `READ` that is changed, and its value.
#[derive(Clone, Copy)]
enum Change {
    Nothing,
    C(bool),
    Command(u8),
    Features(u16),
    Device(u8),
    Count(u16),
    Control(u8),
}

use Change::{C, Command, Control, Count, Device, Features};

/// What the changed command asks.
#[derive(Clone, Copy)]
enum Asks {
    /// It is no queued command.
    Nothing,
    Same,
    AWrite,
    Tag6,
    MostSectors,
    Fua,
}

use Asks::{AWrite, Fua, MostSectors, Same, Tag6};

/// A row's name, a change of `READ`, and what is asked then.
type Row = (&'static str, Change, Asks);

fn changed(change: Change) -> H2d {
    match change {
        Change::Nothing => READ,
        C(c) => H2d { c, ..READ },
        Command(command) => H2d { command, ..READ },
        Features(features) => H2d { features, ..READ },
        Device(device) => H2d { device, ..READ },
        Count(count) => H2d { count, ..READ },
        Control(control) => H2d { control, ..READ },
    }
}

fn wanted(asks: Asks) -> Queued {
    match asks {
        AWrite => Queued {
            write: true,
            ..ASKED
        },
        Tag6 => Queued { tag: 6, ..ASKED },
        MostSectors => Queued {
            sectors: 65_536,
            ..ASKED
        },
        Fua => Queued { fua: true, ..ASKED },
        Same | Asks::Nothing => ASKED,
    }
}

/// Commands, and what they ask.
static ASKING: [Row; 12] = [
    ("READ FPDMA QUEUED", Change::Nothing, Same),
    ("no features", Features(0), MostSectors),
    ("WRITE FPDMA QUEUED", Command(0x61), AWrite),
    ("tag 6", Count(0x30), Tag6),
    ("tag 6 with priority", Count(0xC030), Tag6),
    ("tag 6 with reserved bits", Count(0x37), Tag6),
    ("FUA", Device(0xC0), Fua),
    ("reserved bits of device", Device(0x4F), Same),
    ("any control", Control(0xFF), Same),
    ("without bit 6 of device", Device(0x80), Asks::Nothing),
    ("IDENTIFY DEVICE", Command(0xEC), Asks::Nothing),
    ("a control of the device", C(false), Asks::Nothing),
];

/// Commands that are made of what is asked.
static ASKED_BY: [Row; 3] = [
    ("READ FPDMA QUEUED", Change::Nothing, Same),
    ("no features", Features(0), MostSectors),
    ("FUA", Device(0xC0), Fua),
];

#[test]
fn a_queued_command_is_asked_for_by_the_standards_fields(rt: HostRuntime) {
    for (name, change, asks) in ASKING {
        let queue = match asks {
            Asks::Nothing => None,
            _ => Some(wanted(asks)),
        };
        equal(&rt, name, &queued(&changed(change)), &queue);
    }
    for (name, change, asks) in ASKED_BY {
        equal(&rt, name, &h2d_of(&wanted(asks)), &changed(change));
    }
}
