//! The fields of CAP, and what each one changes (AHCI 1.3.1, section 3.1.1).
use super::Row::{Commands, Does, Read, Signature, Write};
use super::{Row, plays, plays_on};
use crate::table::equal;
use hba_regs::{Capabilities, Consequence, HbaRegs};

/// The usual capabilities with another number of slots and another generation.
fn numbered(ncs: u32, iss: u32) -> Capabilities {
    match Capabilities::new().with_ncs(ncs) {
        Some(more) => more.with_iss(iss).unwrap_or(more),
        None => Capabilities::new(),
    }
}

#[test]
fn each_field_of_cap_is_at_its_place(rt: HostRuntime) {
    let none = Capabilities {
        s64a: false,
        sncq: false,
        sclo: false,
        pmd: false,
        ..numbered(1, 1)
    };
    let words = [
        (none, 0x0014_0000),
        (Capabilities { s64a: true, ..none }, 0x8014_0000),
        (Capabilities { sncq: true, ..none }, 0x4014_0000),
        (Capabilities { sss: true, ..none }, 0x0814_0000),
        (Capabilities { salp: true, ..none }, 0x0414_0000),
        (Capabilities { sclo: true, ..none }, 0x0114_0000),
        (Capabilities { pmd: true, ..none }, 0x0014_8000),
        (numbered(8, 1), 0xc114_8700),
        (numbered(32, 3), 0xc134_9f00),
    ];
    for (number, (capabilities, word)) in words.iter().enumerate() {
        equal(&rt, number, &capabilities.word(), word);
    }
}

#[test]
fn other_numbers_of_slots_and_generations_are_refused(rt: HostRuntime) {
    let usual = Capabilities::new();
    let refused = [
        usual.with_ncs(0),
        usual.with_ncs(33),
        usual.with_ncs(0xffff_ffff),
        usual.with_iss(0),
        usual.with_iss(4),
        usual.with_iss(0x0100_0001),
    ];
    for (number, found) in refused.iter().enumerate() {
        equal(&rt, number, &found.is_none(), &true);
    }
}

static SLOTS: [Row; 12] = [
    Write(0x118, 0x0000_0017),
    Signature,
    Write(0x134, 0xffff_ffff),
    Write(0x138, 0xffff_ff81),
    Commands(0x0000_00ff, 0x0000_0081),
    Row::First(0),
    Row::Send(6),
    Row::First(7),
    Row::Register(0x50, 0, false, 6),
    Row::Select(7),
    Row::First(0),
    Read(0x118, 0x0000_c717),
];

#[test]
fn a_list_of_eight_slots_has_no_other_and_goes_round(rt: HostRuntime) {
    plays_on(
        &rt,
        HbaRegs::with_capabilities(numbered(8, 2)),
        SLOTS.as_slice(),
    );
}

static NEAR: [Row; 8] = [
    Write(0x100, 0x1234_5400),
    Write(0x104, 0x0000_0001),
    Write(0x108, 0x1234_5100),
    Row::Bytes(
        0x108,
        hba_regs::AccessSize::Eight,
        0x0000_0007_1234_5100,
        Consequence::Nothing,
    ),
    Read(0x104, 0),
    Read(0x10c, 0),
    Row::Bases(0x1234_5400, 0x1234_5100),
    Does(0x004, 0x8000_0001, Consequence::Reset),
];

#[test]
fn without_64_bit_addressing_the_upper_words_are_0(rt: HostRuntime) {
    let near = Capabilities {
        s64a: false,
        ..Capabilities::new()
    };
    plays_on(&rt, HbaRegs::with_capabilities(near), NEAR.as_slice());
}

/// Section 10.1.1: software sets SUD, and then waits for the device.
static SPINNING: [Row; 27] = [
    Read(0x118, 0x0000_0004),
    Read(0x128, 0),
    Read(0x120, 0x0000_007f),
    Read(0x124, 0xffff_ffff),
    Read(0x130, 0),
    Row::Due(false),
    Write(0x118, 0x0000_0010),
    Read(0x128, 0),
    Does(0x12c, 0x0000_0301, Consequence::LinkReset),
    Does(0x12c, 0x0000_0300, Consequence::LinkReset),
    Read(0x128, 0),
    Write(0x118, 0x0000_0012),
    Read(0x118, 0x0000_4016),
    Read(0x128, 0x0000_0123),
    Read(0x130, 0x0405_0000),
    Read(0x120, 0x0000_0080),
    Row::Due(true),
    Signature,
    Write(0x118, 0x0000_0010),
    Read(0x118, 0x0000_4014),
    Read(0x128, 0x0000_0123),
    Write(0x130, 0xffff_ffff),
    Does(0x118, 0x0000_0012, Consequence::LinkReset),
    Read(0x130, 0x0405_0000),
    Row::Due(true),
    Does(0x004, 0x8000_0001, Consequence::Reset),
    Read(0x128, 0),
];

/// The registers of an HBA with staggered spin-up.
pub(super) fn staggered() -> HbaRegs {
    HbaRegs::with_capabilities(Capabilities {
        sss: true,
        ..Capabilities::new()
    })
}

#[test]
fn with_staggered_spin_up_the_device_waits_for_sud(rt: HostRuntime) {
    plays_on(&rt, staggered(), SPINNING.as_slice());
}

static STARTED: [Row; 4] = [
    Write(0x118, 0x0c00_0000),
    Read(0x118, 0x0000_0006),
    Write(0x118, 0x0000_0008),
    Read(0x120, 0x0000_0000),
];

#[test]
fn sud_is_1_and_alpe_and_asp_are_0_without_their_capabilities(rt: HostRuntime) {
    plays(&rt, STARTED.as_slice());
}

static SAVING: [Row; 5] = [
    Write(0x118, 0x0c00_0002),
    Read(0x118, 0x0c00_0006),
    Write(0x118, 0x0800_0002),
    Read(0x118, 0x0800_0006),
    Read(0x128, 0x0000_0123),
];

#[test]
fn with_link_power_management_alpe_and_asp_stay_as_written(rt: HostRuntime) {
    let saving = Capabilities {
        salp: true,
        ..Capabilities::new()
    };
    plays_on(&rt, HbaRegs::with_capabilities(saving), SAVING.as_slice());
}

static LOCKED: [Row; 3] = [
    Write(0x118, 0x0000_000a),
    Read(0x120, 0x0000_0080),
    Read(0x118, 0x0000_0006),
];

#[test]
fn clo_has_no_effect_without_its_capability(rt: HostRuntime) {
    let locked = Capabilities {
        sclo: false,
        ..Capabilities::new()
    };
    plays_on(&rt, HbaRegs::with_capabilities(locked), LOCKED.as_slice());
}

/// PxSCTL.SPD, and the generation that PxSSTS shows of an interface of generation 3.
static LIMITS: [Row; 16] = [
    Read(0x128, 0x0000_0133),
    Does(0x12c, 0x0000_0011, Consequence::LinkReset),
    Write(0x12c, 0x0000_0010),
    Read(0x128, 0x0000_0113),
    Does(0x12c, 0x0000_0021, Consequence::LinkReset),
    Write(0x12c, 0x0000_0020),
    Read(0x128, 0x0000_0123),
    Does(0x12c, 0x0000_0031, Consequence::LinkReset),
    Write(0x12c, 0x0000_0030),
    Read(0x128, 0x0000_0133),
    Does(0x12c, 0x0000_0041, Consequence::LinkReset),
    Write(0x12c, 0x0000_0040),
    Read(0x128, 0x0000_0133),
    Does(0x12c, 0x0000_0001, Consequence::LinkReset),
    Write(0x12c, 0x0000_0000),
    Read(0x128, 0x0000_0133),
];

#[test]
fn a_link_comes_up_at_the_lower_of_two_limits(rt: HostRuntime) {
    plays_on(
        &rt,
        HbaRegs::with_capabilities(numbered(32, 3)),
        LIMITS.as_slice(),
    );
    let slow = [
        Read(0x128, 0x0000_0113),
        Does(0x12c, 0x0000_0021, Consequence::LinkReset),
        Write(0x12c, 0x0000_0020),
        Read(0x128, 0x0000_0113),
    ];
    plays_on(&rt, HbaRegs::with_capabilities(numbered(32, 1)), &slow);
}
