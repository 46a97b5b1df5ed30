//! How many Data FISes a command has, and how long they are.
ghost use Rattle.std.specs.Prelude.{◌≤◌};

use super::memory::{Link, QUIET};
use super::rig::Call::{Serve, Take};
use super::rig::{ACCEPTED, Rig, queued};
use crate::table::equal;
use std::alloc::Global;
use std::process::Abort;
use std::test::Fail;
use test_helpers::byte_of;

/// Sectors, features of the command, Data FISes, length of the last, and the byte count in the DMA Setup.
type Size = (usize, u16, usize, usize, [u8; 4]);

static SIZES: [Size; 6] = [
    (1, 1, 1, 516, [0, 2, 0, 0]),
    (16, 16, 1, 8196, [0, 0x20, 0, 0]),
    (17, 17, 2, 516, [0, 0x22, 0, 0]),
    (40, 40, 3, 4100, [0, 0x50, 0, 0]),
    (256, 256, 16, 8196, [0, 0, 2, 0]),
    (65_536, 0, 4096, 8196, [0, 0, 0, 2]),
];

/// What a command of a size sends.
fn sent(size: Size, write: bool) -> Link
    requires { size.0 ≤ 65536 }
{
    let (sectors, _, data, last, [a, b, c, d]) = size;
    let direction = if write { 0 } else { 0x20 };
    let moved = Link {
        setup: [
            0x41, direction, 0, 0, 31, 0, 0, 0, 0, 0, 0, 0, 0, 0, 0, 0, 0, 0, 0, 0, a, b, c, d, 0,
            0, 0, 0,
        ],
        setups: 1,
        offset: sectors * 512,
        data,
        last,
        ..QUIET
    };
    if write {
        Link {
            activate: [0x39, 0, 0, 0],
            activates: data,
            ..moved
        }
    } else {
        Link {
            head: [0x46, 0, 0, 0],
            ..moved
        }
    }
}

/// The byte of a queued command that has FUA in bit 7.
const DEVICE: u8 = 0x40;

const DEVICE_WITH_FUA: u8 = 0xC0;

/// Moves the sectors from LBA 1 on by a command with this device byte, and compares all that was sent. The host lends its text, or gives copies.
fn moves(
    rt: &impl Abort,
    alloc: Global,
    lends: bool,
    write: bool,
    device: u8,
    size: Size,
) -> Result<(), Fail>
    requires { size.0 ≤ 65536 }
{
    let (sectors, features, ..) = size;
    let (command, moved) = if write { (0x61, 0x33) } else { (0x60, 0x22) };
    let mut rig = Rig::new(alloc, sectors + 2, 32, 0x22, 0x33)?;
    let mut fis = queued(command, 31, 1, features);
    fis[7] = device;
    rig.host.lends = lends;
    rig.goes(rt, sectors, (Take(fis, ACCEPTED), 1 << 31, false));
    rig.goes(rt, sectors, (Serve(31, Ok(())), 0, false));
    equal(rt, sectors, &rig.host.link, &sent(size, write));
    let text = rig.host.text.as_slice();
    let halves = (text.get(..sectors * 512), text.get(sectors * 512..));
    let (Some(first), Some(rest)) = halves else {
        panic!(rt; "the text is short");
    };
    equal(
        rt,
        sectors,
        &(byte_of(first), byte_of(rest)),
        &(Some(moved), Some(0x33)),
    );
    let last = sectors as u64;
    for (lba, byte) in [(0, 0x22), (1, moved), (last, moved), (last + 1, 0x22)] {
        equal(rt, sectors, &rig.filling(lba), &Some(byte));
    }
    Ok(())
}

#[test]
fn data_move_in_pieces_of_8192_bytes(rt: HostRuntime) -> Result<(), Fail> {
    for size in SIZES {
        assert!(rt; size.0 <= 65_536);
        for lends in [false, true] {
            moves(&rt, rt.alloc(), lends, false, DEVICE, size)?;
            moves(&rt, rt.alloc(), lends, true, DEVICE, size)?;
        }
    }
    Ok(())
}

// One DMA Setup, and the data after it, whatever FUA is.
#[test]
fn fua_moves_the_same_data(rt: HostRuntime) -> Result<(), Fail> {
    for size in SIZES {
        if size.0 <= 40 {
            moves(&rt, rt.alloc(), true, false, DEVICE_WITH_FUA, size)?;
            moves(&rt, rt.alloc(), true, true, DEVICE_WITH_FUA, size)?;
        }
    }
    Ok(())
}
