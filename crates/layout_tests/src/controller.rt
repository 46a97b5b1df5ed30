//! The registers of a whole controller: the table after power-on at every offset and size, what accesses and the device's moves
//! change, and the rows of real drivers.
use crate::table::equal;
use Row::{Bits, Commands, Does, Halted, Line, Read, Register, Signature, Write};
use events::{Happens, take_place};
use hba_regs::{AccessSize, Consequence, DeviceKind, Fatal, HbaRegs, Slot};
use std::process::Abort;

mod capabilities;
mod drivers;
mod events;
mod links;
mod sizes;

/// Each register that isn't 0 after power-on, and its word.
static NEW: [(u32, u32); 10] = [
    (0x000, 0xc124_9f00),
    (0x004, 0x8000_0000),
    (0x00c, 0x0000_0001),
    (0x010, 0x0001_0301),
    (0x110, 0x0040_0040),
    (0x118, 0x0000_0006),
    (0x120, 0x0000_0080),
    (0x124, 0xffff_ffff),
    (0x128, 0x0000_0123),
    (0x130, 0x0405_0000),
];

/// The word at an offset after power-on.
fn word_at(off: u32) -> u32 {
    for (place, word) in &NEW {
        if *place == off {
            return *word;
        }
    }
    0
}

#[test]
fn each_word_after_power_on_is_that_of_the_table_in_every_size(rt: HostRuntime) {
    let regs = HbaRegs::new();
    for dword in 0..0x90u32 {
        let off = dword * 4;
        let word = u64::from(word_at(off));
        let found = (
            regs.read(off, AccessSize::Four),
            regs.read(off, AccessSize::Two),
            regs.read(off + 2, AccessSize::Two),
            regs.read(off, AccessSize::One),
            regs.read(off + 3, AccessSize::One),
        );
        let wanted = (word, word & 0xffff, word >> 16, word & 0xff, word >> 24);
        equal(&rt, dword as usize, &found, &wanted);
        let unaligned = (
            regs.read(off + 2, AccessSize::Four),
            regs.read(off + 1, AccessSize::Two),
            regs.read(off | 4, AccessSize::Eight),
        );
        equal(&rt, dword as usize, &unaligned, &(0, 0, 0));
    }
    let last = (
        regs.read(0xffff_fffc, AccessSize::Four),
        regs.read(0xffff_fff8, AccessSize::Eight),
        regs.read(0xffff_ffff, AccessSize::One),
    );
    equal(&rt, 0x90, &last, &(0, 0, 0));
}

/// What software or the device does, and the state then.
#[derive(Clone, Copy)]
enum Row {
    /// A word that is read at an offset.
    Read(u32, u32),
    /// A word that is written at an offset, and has no consequence.
    Write(u32, u32),
    /// A word that is written at an offset, and its consequence.
    Does(u32, u32, Consequence),
    /// Bytes that are written at an offset, and their consequence.
    Bytes(u32, AccessSize, u64, Consequence),
    /// Bytes that are read at an offset.
    Found(u32, AccessSize, u64),
    /// PxSACT and PxCI.
    Commands(u32, u32),
    /// The level of the interrupt line.
    Line(bool),
    /// Whether the port is halted.
    Halted(bool),
    /// Whether the port is started, receives FISes, and has a link.
    Stands(bool, bool, bool),
    /// The bases of the command list and of the received FIS area.
    Bases(u64, u64),
    /// Whether the FIS of the device's signature can be taken, or posted, now.
    Due(bool),
    /// It is taken, or posted.
    Signature,
    /// Whether BSY and DRQ are 0.
    Free(bool),
    /// The slot with the highest priority to issue from.
    First(u8),
    /// A slot's command is selected, and its command FIS sent.
    Send(u8),
    /// A slot's command is selected.
    Select(u8),
    /// The command FIS of a slot is sent, with C in its header.
    Clears(u8),
    /// A D2H Register FIS: status, error, I and its slot.
    Register(u8, u8, bool, u8),
    /// A Set Device Bits FIS: status, error, I and SActive.
    Bits(u8, u8, bool, u32),
    /// A PIO Setup FIS: status.
    Pio(u8),
    /// The end of its data: E_Status, error, I and its slot.
    EndPio(u8, u8, bool, u8),
    /// A D2H Register FIS that no command asks for.
    Unsolicited,
    /// The device takes the control FIS of a slot, which sets SRST or clears it.
    Reset(bool, u8),
    /// The list of the device's data has no room for them.
    Overflows,
    /// The data have the last byte of an entry with I.
    Processes,
    Fails(Fatal),
    Event(Happens),
}

/// What is compared.
fn stands(rt: &impl Abort, regs: &HbaRegs, number: usize, row: Row) {
    match row {
        Row::Read(off, word) => equal(
            rt,
            number,
            &regs.read(off, AccessSize::Four),
            &u64::from(word),
        ),
        Row::Found(off, size, value) => equal(rt, number, &regs.read(off, size), &value),
        Row::Commands(sact, ci) => equal(rt, number, &(regs.sact(), regs.ci()), &(sact, ci)),
        Row::Line(level) => equal(rt, number, &regs.interrupt(), &level),
        Row::Halted(halted) => equal(rt, number, &regs.is_halted(), &halted),
        Row::Stands(started, receives, up) => {
            let found = (regs.is_started(), regs.is_receiving(), regs.link_is_up());
            equal(rt, number, &found, &(started, receives, up));
        }
        Row::Bases(list, received) => {
            let found = (regs.list_base(), regs.received_base());
            equal(rt, number, &found, &(list, received));
        }
        Row::Due(due) => equal(rt, number, &regs.signature_moves(), &due),
        Row::Free(free) => equal(rt, number, &regs.is_free(), &free),
        Row::First(slot) => equal(rt, number, &regs.first_slot(), &slot),
        _ => {}
    }
}

/// What changes the registers.
fn goes(rt: &impl Abort, regs: &mut HbaRegs, number: usize, row: Row) {
    match row {
        Row::Write(off, value) => {
            let found = regs.write(off, AccessSize::Four, u64::from(value));
            equal(rt, number, &found, &Consequence::Nothing);
        }
        Row::Does(off, value, consequence) => {
            let found = regs.write(off, AccessSize::Four, u64::from(value));
            equal(rt, number, &found, &consequence);
        }
        Row::Bytes(off, size, value, consequence) => {
            equal(rt, number, &regs.write(off, size, value), &consequence);
        }
        Row::Bits(status, error, i, sactive) => regs.receive_bits(status, error, i, sactive),
        Row::Pio(status) => regs.receive_pio(status),
        Row::Unsolicited => regs.receive_unsolicited(),
        Row::Fails(fatal) => regs.fail_fatally(fatal),
        Row::Overflows => regs.overflow(),
        Row::Processes => regs.process_descriptor(),
        Row::Event(event) => take_place(regs, event),
        Row::Signature => {
            assert!(rt; regs.signature_moves());
            regs.take_signature(DeviceKind::Disk);
        }
        _ => of_a_slot(rt, regs, number, row),
    }
}

/// What changes the registers for a slot; all else is compared.
fn of_a_slot(rt: &impl Abort, regs: &mut HbaRegs, number: usize, row: Row) {
    match row {
        Row::Send(slot) => {
            regs.select(slot_of(rt, slot));
            regs.send(slot_of(rt, slot), false);
        }
        Row::Select(slot) => regs.select(slot_of(rt, slot)),
        Row::Clears(slot) => regs.send(slot_of(rt, slot), true),
        Row::Register(status, error, i, slot) => {
            regs.receive_register(status, error, i, slot_of(rt, slot));
        }
        Row::EndPio(status, error, i, slot) => {
            regs.end_pio(status, error, i, slot_of(rt, slot));
        }
        Row::Reset(true, _) => regs.set_srst(),
        Row::Reset(false, slot) => regs.clear_srst(slot_of(rt, slot)),
        _ => stands(rt, regs, number, row),
    }
}

/// The slot of a number in a table.
fn slot_of(rt: &impl Abort, number: u8) -> Slot {
    assert!(rt; number < 32);
    let Some(slot) = Slot::of(u32::from(number)) else {
        unreachable!()
    };
    slot
}

/// Takes the registers after power-on through the rows of a table.
fn plays(rt: &impl Abort, rows: &[Row]) {
    plays_on(rt, HbaRegs::new(), rows);
}

/// Takes registers through the rows of a table.
fn plays_on(rt: &impl Abort, mut regs: HbaRegs, rows: &[Row]) {
    for (number, row) in rows.iter().enumerate() {
        goes(rt, &mut regs, number, *row);
    }
}

/// The initialisation that AHCI 1.3.1, section 10.1.2, asks of software, step by step, and the first command.
static INITIALISED: [Row; 36] = [
    Write(0x004, 0x8000_0000),
    Read(0x004, 0x8000_0000),
    Read(0x00c, 0x0000_0001),
    Read(0x118, 0x0000_0006),
    Read(0x000, 0xc124_9f00),
    Write(0x100, 0x1234_5400),
    Write(0x104, 0x0000_0001),
    Write(0x108, 0x1234_5100),
    Write(0x10c, 0x0000_0001),
    Row::Bases(0x1_1234_5400, 0x1_1234_5100),
    Write(0x118, 0x0000_0016),
    Read(0x118, 0x0000_4016),
    Row::Due(true),
    Signature,
    Row::Due(false),
    Write(0x130, 0xffff_ffff),
    Read(0x130, 0),
    Write(0x110, 0xffff_ffff),
    Read(0x110, 0),
    Write(0x008, 0x0000_0001),
    Read(0x008, 0),
    Write(0x114, 0xffff_ffff),
    Read(0x114, 0x7dc0_007f),
    Write(0x004, 0x8000_0002),
    Row::Free(true),
    Read(0x120, 0x0000_0150),
    Read(0x128, 0x0000_0123),
    Write(0x118, 0x0000_0017),
    Row::Stands(true, true, true),
    Write(0x138, 0x0000_0020),
    Row::Send(5),
    Read(0x118, 0x0000_c517),
    Read(0x120, 0x0000_01d0),
    Register(0x50, 0, true, 5),
    Commands(0, 0),
    Line(true),
];

#[test]
fn software_initialises_the_controller_step_by_step(rt: HostRuntime) {
    plays(&rt, INITIALISED.as_slice());
}

static INTERRUPTS: [Row; 22] = [
    Write(0x114, 0x0000_0040),
    Read(0x008, 0x0000_0001),
    Line(false),
    Write(0x004, 0x0000_0002),
    Read(0x004, 0x8000_0002),
    Line(true),
    Write(0x110, 0xffff_ffff),
    Read(0x110, 0x0040_0040),
    Write(0x008, 0x0000_0001),
    Read(0x008, 0x0000_0001),
    Write(0x130, 0x0400_0000),
    Read(0x110, 0x0040_0000),
    Read(0x008, 0x0000_0001),
    Write(0x008, 0x0000_0001),
    Read(0x008, 0),
    Line(false),
    Bits(0x50, 0, true, 0),
    Line(false),
    Write(0x114, 0x0000_0008),
    Line(true),
    Write(0x004, 0),
    Line(false),
];

#[test]
fn an_interrupt_stays_until_its_cause_and_then_is_are_cleared(rt: HostRuntime) {
    plays(&rt, INTERRUPTS.as_slice());
}

static FAILED: [Row; 20] = [
    Write(0x118, 0x0000_0017),
    Signature,
    Write(0x134, 0x0000_0003),
    Write(0x138, 0x0000_0003),
    Row::Send(0),
    Register(0x50, 0, false, 0),
    Commands(0x0000_0003, 0x0000_0002),
    Bits(0x41, 0x40, true, 0),
    Halted(true),
    Read(0x120, 0x0000_4041),
    Write(0x134, 0x0000_0004),
    Write(0x138, 0x0000_0004),
    Commands(0x0000_0007, 0x0000_0006),
    Does(0x118, 0x0000_c016, Consequence::Stopped),
    Halted(false),
    Commands(0, 0),
    Write(0x134, 0x0000_0001),
    Write(0x138, 0x0000_0001),
    Commands(0, 0),
    Does(0x118, 0x0000_0016, Consequence::Nothing),
];

#[test]
fn a_failed_command_halts_the_port_until_st_is_cleared(rt: HostRuntime) {
    plays(&rt, FAILED.as_slice());
}

static FATAL: [Row; 17] = [
    Write(0x130, 0xffff_ffff),
    Write(0x118, 0x0000_0017),
    Row::Fails(Fatal::HostBusFatal),
    Read(0x110, 0x2000_0000),
    Halted(true),
    Row::Fails(Fatal::HostBusData),
    Row::Fails(Fatal::Interface),
    Read(0x110, 0x3800_0000),
    Does(0x118, 0x0000_0006, Consequence::Stopped),
    Write(0x118, 0x0000_0017),
    Halted(false),
    Row::Overflows,
    Halted(false),
    Read(0x110, 0x3900_0000),
    Row::Processes,
    Halted(false),
    Read(0x110, 0x3900_0020),
];

#[test]
fn fatal_errors_halt_the_port_and_have_their_bits(rt: HostRuntime) {
    plays(&rt, FATAL.as_slice());
}

/// A D2H Register FIS that no command asks for, while ST is 0 and then 1 (AHCI 1.3.1, section 5.3: P:RegFisUpdate, RegFIS:SetIntr).
static UNSOLICITED: [Row; 12] = [
    Write(0x130, 0xffff_ffff),
    Write(0x118, 0x0000_0016),
    Row::Signature,
    Read(0x120, 0x0000_0150),
    Row::Unsolicited,
    Read(0x120, 0x0000_0050),
    Read(0x110, 0x0000_0000),
    Write(0x118, 0x0000_0017),
    Row::Unsolicited,
    Read(0x120, 0x0000_0050),
    Read(0x110, 0x0000_0001),
    Halted(false),
];

#[test]
fn a_stopped_port_takes_a_register_fis_without_dhrs(rt: HostRuntime) {
    plays(&rt, UNSOLICITED.as_slice());
}

/// A PIO Setup FIS with ERR: its data move, and then the port halts with the error (AHCI 1.3.1, section 5.3, PIO:Entry and PIO:Update).
static PIO_ERROR: [Row; 12] = [
    Write(0x130, 0xffff_ffff),
    Write(0x118, 0x0000_0017),
    Row::Signature,
    Write(0x138, 0x0000_0001),
    Row::Send(0),
    Row::Pio(0x59),
    Read(0x120, 0x0000_0159),
    Halted(false),
    Row::EndPio(0x51, 0x40, true, 0),
    Read(0x120, 0x0000_4051),
    Read(0x110, 0x4000_0002),
    Halted(true),
];

#[test]
fn a_pio_error_takes_effect_once_the_data_have_moved(rt: HostRuntime) {
    plays(&rt, PIO_ERROR.as_slice());
}
