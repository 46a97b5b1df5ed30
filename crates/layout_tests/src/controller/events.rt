//! What the link, the device and the interface do by themselves, and what drivers read of it.
use super::Row::{Commands, Does, Event, Halted, Line, Read, Signature, Write};
use super::capabilities::staggered;
use super::{Row, plays, plays_on};
use hba_regs::{Consequence, HbaRegs, InterfaceError};

/// An event, by the call of its name.
#[derive(Clone, Copy)]
pub enum Happens {
    Lost,
    Found,
    Unplugged,
    Plugged,
    /// An error of the interface, and whether it is fatal.
    Failed(InterfaceError, bool),
    Unknown,
}

/// It takes place.
pub fn take_place(regs: &mut HbaRegs, event: Happens) {
    match event {
        Happens::Lost => regs.lose_link(),
        Happens::Found => regs.find_link(),
        Happens::Unplugged => regs.unplug(),
        Happens::Plugged => regs.plug(),
        Happens::Failed(error, is_fatal) => regs.fail_interface(error, is_fatal),
        Happens::Unknown => regs.receive_unknown(),
    }
}

/// Linux's accesses while a command is outstanding and the disk is pulled out, and put in again.
static HOT_PLUG: [Row; 43] = [
    Write(0x118, 0x0000_0017),
    Signature,
    Write(0x130, 0xffff_ffff),
    Write(0x008, 0x0000_0001),
    Write(0x114, 0x7840_007f),
    Write(0x004, 0x8000_0002),
    Write(0x134, 0x0000_0001),
    Write(0x138, 0x0000_0001),
    Row::Send(0),
    Line(false),
    Event(Happens::Unplugged),
    Line(true),
    Read(0x110, 0x0040_0000),
    Read(0x128, 0),
    Read(0x130, 0x0001_0000),
    Read(0x120, 0x0000_007f),
    Read(0x124, 0xffff_ffff),
    Commands(1, 1),
    Halted(true),
    Write(0x110, 0x0040_0000),
    Write(0x130, 0x0001_0000),
    Write(0x114, 0),
    Write(0x008, 0x0000_0001),
    Line(false),
    Does(0x118, 0x0000_0016, Consequence::Stopped),
    Commands(0, 0),
    Does(0x12c, 0x0000_0301, Consequence::LinkReset),
    Does(0x12c, 0x0000_0300, Consequence::LinkReset),
    Read(0x128, 0),
    Read(0x130, 0),
    Row::Due(false),
    Write(0x118, 0x0000_0017),
    Write(0x114, 0x7840_007f),
    Line(false),
    Event(Happens::Found),
    Read(0x128, 0),
    Event(Happens::Plugged),
    Line(true),
    Read(0x110, 0x0040_0040),
    Read(0x128, 0x0000_0123),
    Read(0x130, 0x0405_0000),
    Read(0x120, 0x0000_0080),
    Row::Due(true),
];

#[test]
fn a_disk_that_is_unplugged_is_found_once_it_is_plugged_in(rt: HostRuntime) {
    plays(&rt, HOT_PLUG.as_slice());
}

/// A link that is lost for a moment: the command in the list isn't sent again.
static LOST: [Row; 16] = [
    Write(0x118, 0x0000_0017),
    Signature,
    Write(0x138, 0x0000_0002),
    Event(Happens::Lost),
    Row::Stands(true, true, false),
    Event(Happens::Lost),
    Event(Happens::Found),
    Event(Happens::Found),
    Row::Stands(true, true, true),
    Read(0x120, 0x0000_0080),
    Commands(0, 2),
    Halted(true),
    Row::Due(false),
    Does(0x118, 0x0000_0016, Consequence::Stopped),
    Row::Due(true),
    Halted(false),
];

#[test]
fn a_link_that_is_found_waits_for_st_to_be_cleared(rt: HostRuntime) {
    plays(&rt, LOST.as_slice());
}

/// Without a device nothing brings the link up: not SUD, DET, HR or power-on.
static ABSENT: [Row; 15] = [
    Event(Happens::Unplugged),
    Write(0x118, 0x0000_0002),
    Read(0x128, 0),
    Does(0x12c, 0x0000_0004, Consequence::LinkReset),
    Read(0x128, 0x0000_0004),
    Event(Happens::Plugged),
    Read(0x128, 0x0000_0004),
    Event(Happens::Unplugged),
    Does(0x12c, 0, Consequence::LinkReset),
    Does(0x004, 0x8000_0001, Consequence::Reset),
    Read(0x128, 0),
    Event(Happens::Plugged),
    Read(0x130, 0x0400_0000),
    Read(0x128, 0),
    Write(0x118, 0x0000_0002),
];

#[test]
fn without_a_device_no_write_brings_the_link_up(rt: HostRuntime) {
    plays_on(&rt, staggered(), ABSENT.as_slice());
    let mut regs = HbaRegs::new();
    regs.unplug();
    regs.power_on();
    plays_on(
        &rt,
        regs,
        &[
            Read(0x118, 6),
            Read(0x120, 0x7f),
            Read(0x128, 0),
            Read(0x130, 0),
        ],
    );
}

/// PxSERR and PxIS of each error of the interface, recovered and fatal, and of an unknown FIS.
static ERRORS: [Row; 31] = [
    Write(0x118, 0x0000_0017),
    Signature,
    Write(0x130, 0xffff_ffff),
    Event(Happens::Failed(InterfaceError::Decode, false)),
    Read(0x130, 0x0008_0001),
    Event(Happens::Failed(InterfaceError::Crc, false)),
    Read(0x130, 0x0028_0001),
    Event(Happens::Failed(InterfaceError::Handshake, false)),
    Read(0x130, 0x0068_0001),
    Event(Happens::Failed(InterfaceError::LinkSequence, false)),
    Read(0x130, 0x00e8_0401),
    Event(Happens::Failed(InterfaceError::TransportState, false)),
    Read(0x130, 0x01e8_0401),
    Read(0x110, 0x0400_0000),
    Halted(false),
    Event(Happens::Unknown),
    Read(0x130, 0x03e8_0401),
    Read(0x110, 0x0400_0010),
    Write(0x110, 0x0400_0010),
    Read(0x110, 0x0000_0010),
    Write(0x130, 0xffff_ffff),
    Read(0x110, 0),
    Event(Happens::Failed(InterfaceError::Crc, true)),
    Read(0x130, 0x0020_0100),
    Read(0x110, 0x0800_0000),
    Halted(true),
    Event(Happens::Unknown),
    Read(0x110, 0x0800_0000),
    Does(0x118, 0x0000_0006, Consequence::Stopped),
    Event(Happens::Unknown),
    Read(0x130, 0x0020_0100),
];

#[test]
fn each_error_of_the_interface_has_its_bits(rt: HostRuntime) {
    plays(&rt, ERRORS.as_slice());
}
