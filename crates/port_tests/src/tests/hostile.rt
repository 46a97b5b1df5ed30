//! Windows of any bytes, issued.
use super::story::{port_of, window_of};
use crate::tests::table::equal;
use ahci_port::{DeviceStep, IssueFault, Port, Stepped};
use ahci_table::Window;
use std::alloc::{AllocError, Global};
use std::process::Abort;
use std::test::Fail;
use test_helpers::any_window;

/// What a port of four slots did before.
#[derive(Clone, Copy, Debug)]
enum Before {
    Nothing,
    /// Slot 0 is owned.
    Owned,
    /// The command of slot 0 has failed.
    Halted,
}

/// The first byte of a header, byte 12 of CFIS, and the window's tag.
type Bytes = (u8, u8, u8);

/// Why a window is refused at once is named before what is wrong in it.
static ROWS: [(Before, Bytes, Result<u64, IssueFault>); 14] = [
    (Before::Nothing, (0x05, 0x00, 0), Ok(0)),
    (Before::Nothing, (0x85, 0x07, 0), Ok(0)),
    (Before::Nothing, (0x04, 0x00, 0), Err(IssueFault::BadHeader)),
    (Before::Nothing, (0x25, 0x00, 0), Err(IssueFault::BadHeader)),
    (
        Before::Nothing,
        (0x45, 0x00, 0),
        Err(IssueFault::BadCommand),
    ),
    (
        Before::Nothing,
        (0x45, 0xF8, 0),
        Err(IssueFault::BadCommand),
    ),
    (Before::Nothing, (0x05, 0xF8, 0), Err(IssueFault::WrongTag)),
    (
        Before::Nothing,
        (0x04, 0x00, 31),
        Err(IssueFault::NoSuchTag),
    ),
    (Before::Owned, (0x04, 0x00, 0), Err(IssueFault::SlotOwned)),
    (Before::Owned, (0x04, 0x00, 1), Err(IssueFault::BadHeader)),
    (Before::Owned, (0x04, 0x00, 31), Err(IssueFault::NoSuchTag)),
    (Before::Halted, (0x04, 0x00, 0), Err(IssueFault::Halted)),
    (Before::Halted, (0x04, 0x00, 31), Err(IssueFault::Halted)),
    (Before::Halted, (0x05, 0x00, 0), Err(IssueFault::Halted)),
];

/// A window of these bytes that is else fit for tag 0: a read of one sector to one piece after a table of one entry.
fn window(alloc: Global, (flags, count, tag): Bytes) -> Result<Window, AllocError> {
    let (header, bytes) = any_window(alloc, flags, count, 656)?;
    Ok(Window::from_parts(tag % 32, header, bytes))
}

/// A port of four slots over eight sectors, once this was done.
fn port_after(rt: &impl Abort, alloc: Global, before: Before) -> Result<Port, Fail> {
    let mut port = port_of(alloc, 8, 4)?;
    if matches!(before, Before::Nothing) {
        return Ok(port);
    }
    let Ok(_) = port.issue(window_of(alloc, 0, 7, None)?) else {
        return Err(Fail::new("not issued"));
    };
    if matches!(before, Before::Halted) {
        let failure = DeviceStep::Fail {
            tag: 0,
            error: 0x40,
            at: 7,
        };
        let steps = (port.step(DeviceStep::Accept(0)), port.step(failure));
        let wanted = (Ok(Stepped::Accepted(1)), Ok(Stepped::Failed(2)));
        equal(rt, 0, &steps, &wanted);
    }
    Ok(port)
}

#[test]
fn what_stands_against_a_window_is_named_in_order(rt: HostRuntime) -> Result<(), Fail> {
    for (row, (before, bytes, wanted)) in ROWS.iter().enumerate() {
        let mut port = port_after(&rt, rt.alloc(), *before)?;
        let entries = port.journal().len();
        let found = match port.issue(window(rt.alloc(), *bytes)?) {
            Ok(number) => Ok(number),
            Err((given_back, fault)) => {
                let lent = window(rt.alloc(), *bytes)?;
                let is_same = given_back.header() == lent.header()
                    && given_back.bytes() == lent.bytes()
                    && given_back.tag() == lent.tag();
                equal(&rt, row, &(is_same, port.journal().len()), &(true, entries));
                Err(fault)
            }
        };
        equal(&rt, row, &found, wanted);
    }
    Ok(())
}
