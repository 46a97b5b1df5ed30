//! What SeaBIOS, GRUB, EDK2 and Linux write to the registers, in their order, and what they expect to read.
use super::Row::{Bits, Commands, Does, Line, Read, Register, Signature, Write};
use super::{Row, plays};
use hba_regs::Consequence;

/// SeaBIOS: identifies the disk as a packet device first, which fails, and takes both ST and FRE back in one write.
static FIRMWARE: [Row; 40] = [
    Read(0x004, 0x8000_0000),
    Write(0x004, 0x8000_0000),
    Read(0x00c, 0x0000_0001),
    Write(0x100, 0x1efe_8800),
    Write(0x108, 0x1efe_9200),
    Write(0x104, 0),
    Write(0x10c, 0),
    Read(0x118, 0x0000_0006),
    Write(0x114, 0),
    Read(0x110, 0x0040_0040),
    Write(0x110, 0x0040_0040),
    Write(0x118, 0x0000_0016),
    Read(0x128, 0x0000_0123),
    Read(0x130, 0x0405_0000),
    Write(0x130, 0x0405_0000),
    Signature,
    Read(0x120, 0x0000_0150),
    Write(0x118, 0x0000_0017),
    Read(0x110, 0),
    Write(0x138, 0x0000_0001),
    Row::Send(0),
    Register(0x41, 0x04, true, 0),
    Read(0x110, 0x4000_0001),
    Write(0x110, 0x4000_0001),
    Read(0x118, 0x0000_c017),
    Does(0x118, 0x0000_c016, Consequence::Stopped),
    Read(0x118, 0x0000_4016),
    Read(0x120, 0x0000_0441),
    Write(0x118, 0x0000_4017),
    Write(0x138, 0x0000_0001),
    Row::Send(0),
    Row::Pio(0x58),
    Row::EndPio(0x50, 0, true, 0),
    Read(0x110, 0x0000_0002),
    Commands(0, 0),
    Does(0x118, 0x0000_c006, Consequence::Stopped),
    Read(0x118, 0x0000_0006),
    Write(0x100, 0x1ffd_fc00),
    Write(0x118, 0x0000_0017),
    Read(0x118, 0x0000_c017),
];

#[test]
fn seabios_identifies_the_disk(rt: HostRuntime) {
    plays(&rt, FIRMWARE.as_slice());
}

/// GRUB: takes FRE back while ST is 1, and writes PxCI while ST is 0.
static LOADER: [Row; 21] = [
    Write(0x118, 0x0000_0017),
    Signature,
    Read(0x118, 0x0000_c017),
    Write(0x118, 0x0000_c007),
    Read(0x118, 0x0000_8007),
    Does(0x118, 0x0000_8006, Consequence::Stopped),
    Read(0x118, 0x0000_0006),
    Write(0x110, 0xffff_ffff),
    Write(0x108, 0x1ff1_d000),
    Write(0x10c, 0),
    Write(0x100, 0x1ff1_ec00),
    Write(0x104, 0),
    Write(0x138, 0),
    Read(0x138, 0),
    Write(0x118, 0x0000_0016),
    Write(0x118, 0x1000_4016),
    Read(0x118, 0x0000_4016),
    Write(0x118, 0x0000_4017),
    Write(0x134, 0x0000_0001),
    Write(0x138, 0x0000_0001),
    Commands(1, 1),
];

#[test]
fn grub_takes_the_disk_over(rt: HostRuntime) {
    plays(&rt, LOADER.as_slice());
}

/// Linux: resets the HBA and then the link, enables interrupts, and queues commands.
static SYSTEM: [Row; 49] = [
    Write(0x118, 0x0000_0017),
    Signature,
    Write(0x100, 0x0010_0000),
    Does(0x118, 0x0000_0006, Consequence::Stopped),
    Write(0x100, 0x0010_0000),
    Does(0x004, 0x8000_0001, Consequence::Reset),
    Read(0x004, 0x8000_0000),
    Read(0x100, 0x0010_0000),
    Write(0x000, 0xc124_9f00),
    Write(0x00c, 0x0000_0001),
    Write(0x118, 0),
    Read(0x118, 0x0000_0006),
    Read(0x130, 0x0405_0000),
    Write(0x130, 0),
    Read(0x110, 0x0040_0040),
    Write(0x110, 0x0040_0040),
    Write(0x008, 0x0000_0001),
    Write(0x118, 0x0000_0016),
    Read(0x12c, 0),
    Does(0x12c, 0x0000_0301, Consequence::LinkReset),
    Read(0x12c, 0x0000_0301),
    Read(0x128, 0),
    Read(0x120, 0x0000_007f),
    Read(0x124, 0xffff_ffff),
    Write(0x12c, 0x0000_0300),
    Read(0x12c, 0x0000_0300),
    Read(0x128, 0x0000_0123),
    Read(0x110, 0x0040_0040),
    Read(0x120, 0x0000_0080),
    Read(0x130, 0x0405_0000),
    Write(0x130, 0x0405_0000),
    Signature,
    Read(0x120, 0x0000_0150),
    Read(0x124, 0x0000_0101),
    Write(0x114, 0x7840_007f),
    Write(0x004, 0x8000_0002),
    Write(0x118, 0x0000_4017),
    Write(0x134, 0x0200_0000),
    Write(0x138, 0x0200_0000),
    Row::Send(25),
    Register(0x50, 0, false, 25),
    Commands(0x0200_0000, 0),
    Line(false),
    Bits(0x50, 0, true, 0x0200_0000),
    Line(true),
    Read(0x008, 0x0000_0001),
    Write(0x110, 0x0000_0008),
    Write(0x008, 0x0000_0001),
    Line(false),
];

#[test]
fn linux_resets_the_controller_and_queues_commands(rt: HostRuntime) {
    plays(&rt, SYSTEM.as_slice());
}
