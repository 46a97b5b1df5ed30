//! The registers of one port: the table at its first values, and what writes and received FISes change.
ghost use Rattle.std.specs.Prelude.{◌≤◌};

use crate::table::equal;
use Row::{Bits, Commands, EndPio, IsStarted, Pio, Read, Start, Write};
use ahci_regs::{PortRegs, RegFault, Register};
use std::process::Abort;

/// Each register of a new port of 32 slots, and its word.
static NEW: [(u32, u32); 18] = [
    (0x000, 0x4000_1f00),
    (0x004, 0x8000_0000),
    (0x00c, 0x0000_0001),
    (0x010, 0x0001_0301),
    (0x100, 0),
    (0x104, 0),
    (0x108, 0),
    (0x10c, 0),
    (0x110, 0),
    (0x114, 0),
    (0x118, 0),
    (0x120, 0x0000_0040),
    (0x124, 0x0000_0101),
    (0x128, 0x0000_0123),
    (0x12c, 0),
    (0x130, 0),
    (0x134, 0),
    (0x138, 0),
];

/// What a read at an offset of a new port answers: offsets that are not in the table have no register.
fn word_at(off: u32) -> Result<u32, RegFault> {
    for (place, word) in &NEW {
        if *place == off {
            return Ok(*word);
        }
    }
    Err(RegFault::NoSuchRegister)
}

#[test]
fn each_register_of_a_new_port_has_the_value_of_the_table_and_other_offsets_none(rt: HostRuntime) {
    let regs = PortRegs::new(32);
    let unaligned = Err(RegFault::Unaligned);
    for dword in 0..0x90u32 {
        let off = dword * 4;
        let found = [
            regs.read(off),
            regs.read(off + 1),
            regs.read(off + 2),
            regs.read(off + 3),
        ];
        equal(
            &rt,
            dword as usize,
            &found,
            &[word_at(off), unaligned, unaligned, unaligned],
        );
    }
    let found = (regs.read(0xffff_fffc), regs.read(0xffff_ffff));
    equal(
        &rt,
        0x90,
        &found,
        &(Err(RegFault::NoSuchRegister), unaligned),
    );
}

/// What software or the device does, and the state then.
#[derive(Clone, Copy)]
enum Row {
    /// The port is made to receive FISes, and then to process commands.
    Start,
    Write(u32, u32, Result<(), RegFault>),
    Read(u32, Result<u32, RegFault>),
    /// PxSACT and PxCI.
    Commands(u32, u32),
    /// Whether the port is started.
    IsStarted(bool),
    /// A Set Device Bits FIS: status, error, I and SActive.
    Bits(u8, u8, bool, u32),
    /// A D2H Register FIS: status, error, I and its slot.
    Register(u8, u8, bool, u8),
    /// A PIO Setup FIS: status and error.
    Pio(u8, u8),
    /// The end of its data: E_Status, I and its slot.
    EndPio(u8, bool, u8),
}

fn goes(rt: &impl Abort, regs: &mut PortRegs, number: usize, row: Row) {
    match row {
        Row::Start => {
            let found = (regs.write(0x118, 0x10), regs.write(0x118, 0x11));
            equal(rt, number, &found, &(Ok(()), Ok(())));
        }
        Row::Write(off, value, answer) => equal(rt, number, &regs.write(off, value), &answer),
        Row::Read(off, word) => equal(rt, number, &regs.read(off), &word),
        Row::Commands(sact, ci) => equal(rt, number, &(regs.sact(), regs.ci()), &(sact, ci)),
        Row::IsStarted(started) => equal(rt, number, &regs.started(), &started),
        Row::Bits(status, error, i, sactive) => regs.receive_bits(status, error, i, sactive),
        Row::Register(status, error, i, slot) => {
            assert!(rt; slot < 32);
            regs.receive_register(status, error, i, slot);
        }
        Row::Pio(status, error) => regs.receive_pio(status, error),
        Row::EndPio(status, i, slot) => {
            assert!(rt; slot < 32);
            regs.end_pio(status, i, slot);
        }
    }
}

/// Takes a new port of so many slots through the rows of a table.
fn plays(rt: &impl Abort, depth: u32, rows: &[Row])
    requires low { 1 ≤ depth }
    requires high { depth ≤ 32 }
{
    let mut regs = PortRegs::new(depth);
    for (number, row) in rows.iter().enumerate() {
        goes(rt, &mut regs, number, *row);
    }
}

static STARTING: [Row; 15] = [
    Write(0x138, 0x01, Err(RegFault::NotStarted)),
    Write(0x134, 0x00, Err(RegFault::NotStarted)),
    Write(0x118, 0x01, Err(RegFault::NotReceiving)),
    Write(0x118, 0x11, Err(RegFault::NotReceiving)),
    Write(0x118, 0x10, Ok(())),
    Write(0x118, 0x01, Err(RegFault::NotReceiving)),
    Write(0x118, 0x11, Ok(())),
    Write(0x118, 0x01, Err(RegFault::Running)),
    Write(0x118, 0x00, Err(RegFault::Running)),
    Write(0x102, 0x00, Err(RegFault::Unaligned)),
    Write(0x11c, 0x00, Err(RegFault::NoSuchRegister)),
    Write(0x120, 0xff, Ok(())),
    IsStarted(true),
    Read(0x118, Ok(0x0000_c011)),
    Read(0x120, Ok(0x0000_0040)),
];

#[test]
fn a_port_starts_once_it_receives_fises(rt: HostRuntime) {
    plays(&rt, 32, STARTING.as_slice());
}

static BASES: [Row; 10] = [
    Write(0x100, 0x0001_03ff, Ok(())),
    Write(0x108, 0x0001_04ff, Ok(())),
    Write(0x118, 0x10, Ok(())),
    Write(0x118, 0x11, Ok(())),
    Write(0x100, 0x0001_0001, Ok(())),
    Write(0x100, 0x0001_0400, Err(RegFault::Running)),
    Write(0x108, 0x0001_0401, Ok(())),
    Write(0x108, 0x0001_0500, Err(RegFault::Running)),
    Read(0x100, Ok(0x0001_0000)),
    Read(0x108, Ok(0x0001_0400)),
];

#[test]
fn the_bases_move_only_while_the_port_is_stopped(rt: HostRuntime) {
    plays(&rt, 1, BASES.as_slice());
}

static DEPTH: [Row; 6] = [
    Start,
    Write(0x134, 0xffff_ffff, Ok(())),
    Commands(0x0000_000f, 0),
    Write(0x134, 0, Ok(())),
    Commands(0x0000_000f, 0),
    Read(0x000, Ok(0x4000_0300)),
];

#[test]
fn commands_are_kept_below_the_depth_and_a_written_0_keeps_them(rt: HostRuntime) {
    plays(&rt, 4, DEPTH.as_slice());
}

static SACTIVE: [Row; 8] = [
    Start,
    Write(0x134, 0x23, Ok(())),
    Bits(0x40, 0, true, 0x20),
    Read(0x134, Ok(0x0000_0003)),
    Read(0x110, Ok(0x0000_0008)),
    Bits(0x41, 0x40, true, 0),
    Read(0x120, Ok(0x0000_4041)),
    Read(0x110, Ok(0x4000_0008)),
];

#[test]
fn set_device_bits_ends_the_commands_in_sactive(rt: HostRuntime) {
    plays(&rt, 32, SACTIVE.as_slice());
}

static FAILED: [Row; 10] = [
    Start,
    Write(0x138, 4, Ok(())),
    Row::Register(0x41, 0x10, true, 2),
    Commands(0, 0x0000_0004),
    Read(0x120, Ok(0x0000_1041)),
    Read(0x110, Ok(0x4000_0001)),
    Write(0x110, 0x4000_0000, Ok(())),
    Read(0x110, Ok(0x0000_0001)),
    Row::Register(0x40, 0, false, 2),
    Read(0x138, Ok(0)),
];

#[test]
fn a_failed_command_keeps_its_slot_and_raises_tfes(rt: HostRuntime) {
    plays(&rt, 32, FAILED.as_slice());
}

static SECOND_STATUS: [Row; 9] = [
    Start,
    Write(0x138, 1, Ok(())),
    Pio(0x48, 0),
    Read(0x120, Ok(0x0000_0048)),
    Commands(0, 0x0000_0001),
    EndPio(0x40, true, 0),
    Read(0x120, Ok(0x0000_0040)),
    Read(0x110, Ok(0x0000_0002)),
    Commands(0, 0),
];

#[test]
fn a_pio_setup_shows_its_second_status_after_its_data(rt: HostRuntime) {
    plays(&rt, 32, SECOND_STATUS.as_slice());
}

static STOPPED: [Row; 6] = [
    Start,
    Write(0x134, 0xffff_ffff, Ok(())),
    Write(0x138, 0xffff_ffff, Ok(())),
    Commands(0xffff_ffff, 0xffff_ffff),
    Write(0x118, 0x10, Ok(())),
    Commands(0, 0),
];

#[test]
fn stopping_the_port_drops_every_command(rt: HostRuntime) {
    plays(&rt, 32, STOPPED.as_slice());
}

#[test]
fn only_implemented_interrupts_are_enabled(rt: HostRuntime) {
    let rows = [
        Write(Register::PxIe.offset(), 0xffff_ffff, Ok(())),
        Read(0x114, Ok(0x4000_000f)),
    ];
    plays(&rt, 1, rows.as_slice());
}
