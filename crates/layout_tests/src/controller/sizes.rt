//! Accesses of 1, 2 and 8 bytes, and registers that stay while the port uses them.
use super::Row::{Bases, Bytes, Commands, Found, Read, Signature, Write};
use super::{Row, plays};
use hba_regs::AccessSize::{Eight, Four, One, Two};
use hba_regs::Consequence;
use hba_regs::Consequence::Nothing;

static BYTES: [Row; 22] = [
    Bytes(0x118, One, 0x10, Nothing),
    Bytes(0x118, One, 0x17, Nothing),
    Signature,
    Bytes(0x119, One, 0xff, Nothing),
    Found(0x118, One, 0x17),
    Found(0x119, One, 0xc0),
    Bytes(0x13b, One, 0x80, Nothing),
    Bytes(0x134, Two, 0xffff_8001, Nothing),
    Commands(0x0000_8001, 0x8000_0000),
    Row::Bits(0x50, 0, true, 0),
    Read(0x110, 0x0040_0048),
    Bytes(0x112, Two, 0xffff, Nothing),
    Read(0x110, 0x0040_0048),
    Bytes(0x133, One, 0xff, Nothing),
    Read(0x110, 0x0040_0008),
    Bytes(0x110, One, 0x08, Nothing),
    Read(0x110, 0x0040_0000),
    Bytes(0x116, Two, 0xffff, Nothing),
    Read(0x114, 0x7dc0_0000),
    Bytes(0x114, One, 0x101, Nothing),
    Read(0x114, 0x7dc0_0001),
    Bytes(0x118, One, 0x06, Consequence::Stopped),
];

#[test]
fn a_byte_is_written_beside_what_the_others_read(rt: HostRuntime) {
    plays(&rt, BYTES.as_slice());
}

static WIDE: [Row; 15] = [
    Bytes(0x100, Eight, 0x0000_0001_1234_57ff, Nothing),
    Bytes(0x108, Eight, 0x0000_0002_1234_57ff, Nothing),
    Bases(0x1_1234_5400, 0x2_1234_5700),
    Found(0x100, Eight, 0x0000_0001_1234_5400),
    Bytes(0x110, Eight, 0x0000_0001_ffff_ffff, Nothing),
    Found(0x110, Eight, 0x0000_0001_0040_0040),
    Bytes(0x118, Eight, 0xffff_ffff_0000_0017, Nothing),
    Signature,
    Bytes(0x118, Eight, 0x0000_0016, Consequence::Stopped),
    Bytes(0x128, Eight, 0x0000_0301_ffff_ffff, Consequence::LinkReset),
    Found(0x128, Eight, 0x0000_0301_0000_0000),
    Bytes(0x000, Eight, 0x0000_0001_0000_0000, Consequence::Reset),
    Found(0x000, Eight, 0x8000_0000_c124_9f00),
    Found(0x128, Eight, 0x0000_0000_0000_0123),
    Bases(0x1_1234_5400, 0x2_1234_5700),
];

#[test]
fn eight_bytes_are_two_words(rt: HostRuntime) {
    plays(&rt, WIDE.as_slice());
}

static UNALIGNED: [Row; 8] = [
    Bytes(0x102, Four, 0xffff_ffff, Nothing),
    Bytes(0x101, Two, 0xffff, Nothing),
    Bytes(0x104, Eight, 0xffff_ffff_ffff_ffff, Nothing),
    Bytes(0x005, Two, 0xffff, Nothing),
    Bytes(0x17c, Four, 0xffff_ffff, Nothing),
    Bytes(0xffff_fff8, Eight, 0xffff_ffff_ffff_ffff, Nothing),
    Bases(0, 0),
    Read(0x17c, 0),
];

#[test]
fn what_is_not_aligned_or_not_there_changes_nothing(rt: HostRuntime) {
    plays(&rt, UNALIGNED.as_slice());
}

static LOCKED: [Row; 11] = [
    Write(0x118, 0x0000_0010),
    Write(0x100, 0x0001_0000),
    Write(0x104, 0x0000_0001),
    Write(0x108, 0x0001_0000),
    Write(0x10c, 0x0000_0001),
    Bases(0x1_0001_0000, 0),
    Write(0x118, 0x0000_0001),
    Write(0x100, 0),
    Write(0x104, 0),
    Write(0x108, 0x0001_0000),
    Bases(0x1_0001_0000, 0x1_0000),
];

#[test]
fn the_bases_stay_while_the_port_uses_them(rt: HostRuntime) {
    plays(&rt, LOCKED.as_slice());
}

static OTHERS: [Row; 8] = [
    Write(0x000, 0),
    Write(0x010, 0xffff_ffff),
    Write(0x120, 0),
    Write(0x124, 0),
    Write(0x128, 0),
    Write(0x13c, 0xffff_ffff),
    Write(0x1b0, 0xffff_ffff),
    Found(0x120, Eight, 0xffff_ffff_0000_0080),
];

#[test]
fn read_only_registers_stay(rt: HostRuntime) {
    plays(&rt, OTHERS.as_slice());
}
