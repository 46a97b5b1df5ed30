//! What PxSCTL, GHC.HR and SRST do.
use super::Row::{Commands, Does, Halted, Read, Signature, Write};
use super::{Row, plays};
use hba_regs::Consequence;

static COMRESET: [Row; 24] = [
    Write(0x118, 0x0000_0017),
    Signature,
    Write(0x130, 0xffff_ffff),
    Write(0x134, 0x0000_0003),
    Write(0x138, 0x0000_0003),
    Row::Send(1),
    Row::Bits(0x41, 0x84, true, 0),
    Halted(true),
    Does(0x12c, 0x0000_0301, Consequence::LinkReset),
    Halted(false),
    Commands(0, 0),
    Read(0x130, 0x0001_0000),
    Row::Stands(true, true, false),
    Read(0x118, 0x0000_c117),
    Write(0x12c, 0x0000_0301),
    Write(0x12c, 0x0000_0302),
    Read(0x128, 0),
    Row::Due(false),
    Write(0x130, 0xffff_ffff),
    Write(0x12c, 0xffff_f300),
    Read(0x12c, 0x000f_f300),
    Read(0x130, 0x0405_0000),
    Row::Due(true),
    Read(0x110, 0x4040_0048),
];

#[test]
fn comreset_drops_the_commands_and_brings_the_device_back(rt: HostRuntime) {
    plays(&rt, COMRESET.as_slice());
}

static OFFLINE: [Row; 16] = [
    Write(0x130, 0xffff_ffff),
    Does(0x12c, 0x0000_0304, Consequence::LinkReset),
    Read(0x130, 0x0001_0000),
    Read(0x128, 0x0000_0004),
    Write(0x12c, 0xffff_ff0f),
    Read(0x12c, 0x000f_ff0f),
    Read(0x128, 0x0000_0004),
    Write(0x12c, 0),
    Read(0x128, 0x0000_0123),
    Does(0x12c, 0x0000_0304, Consequence::LinkReset),
    Write(0x130, 0xffff_ffff),
    Does(0x12c, 0x0000_0301, Consequence::LinkReset),
    Read(0x130, 0),
    Read(0x128, 0),
    Write(0x12c, 0x0000_0300),
    Row::Stands(false, false, true),
];

#[test]
fn a_link_that_is_offline_comes_up_by_det_0(rt: HostRuntime) {
    plays(&rt, OFFLINE.as_slice());
}

static RESET: [Row; 17] = [
    Write(0x100, 0x0001_0000),
    Write(0x108, 0x0001_0400),
    Write(0x10c, 0x0000_0002),
    Write(0x114, 0x0000_0001),
    Write(0x004, 0x0000_0002),
    Write(0x118, 0x0000_0017),
    Write(0x12c, 0x0000_0300),
    Signature,
    Write(0x134, 0xffff_ffff),
    Write(0x138, 0xffff_ffff),
    Does(0x004, 0x0000_0003, Consequence::Reset),
    Row::Bases(0x1_0000, 0x2_0001_0400),
    Commands(0, 0),
    Read(0x004, 0x8000_0000),
    Read(0x114, 0),
    Read(0x12c, 0),
    Read(0x120, 0x0000_0080),
];

#[test]
fn a_reset_of_the_hba_leaves_the_bases_alone(rt: HostRuntime) {
    plays(&rt, RESET.as_slice());
}

/// AHCI 1.3.1, section 10.4.1: the first control FIS has C, so it leaves neither BSY nor its bit of PxCI; those of the second one stay until
/// the signature.
static SOFT_RESET: [Row; 20] = [
    Write(0x118, 0x0000_0017),
    Signature,
    Write(0x138, 0x0000_0003),
    Row::Select(0),
    Row::Clears(0),
    Row::Reset(true, 0),
    Read(0x120, 0x0000_0150),
    Row::Free(true),
    Commands(0, 0x0000_0002),
    Row::Due(false),
    Row::Send(1),
    Row::Reset(false, 1),
    Read(0x120, 0x0000_01d0),
    Commands(0, 0x0000_0002),
    Row::Due(true),
    Signature,
    Read(0x120, 0x0000_0150),
    Commands(0, 0),
    Row::Due(false),
    Read(0x110, 0x0040_0040),
];

#[test]
fn a_software_reset_ends_with_the_signature(rt: HostRuntime) {
    plays(&rt, SOFT_RESET.as_slice());
}

/// A control FIS with SRST 0 that follows none with SRST 1 does nothing but what C of its header says.
static LONE_CONTROL: [Row; 10] = [
    Write(0x118, 0x0000_0017),
    Signature,
    Write(0x138, 0x0000_0003),
    Row::Select(0),
    Row::Clears(0),
    Row::Reset(false, 0),
    Row::Due(false),
    Commands(0, 0x0000_0002),
    Read(0x120, 0x0000_0150),
    Read(0x124, 0x0000_0101),
];

#[test]
fn a_control_fis_without_a_reset_does_nothing(rt: HostRuntime) {
    plays(&rt, LONE_CONTROL.as_slice());
}

/// AHCI 1.3.1, section 3.3.7 (FRE): the first FIS after a reset is taken though FRE is 0, and posted once it is 1.
static UNPOSTED: [Row; 11] = [
    Row::Due(true),
    Signature,
    Read(0x120, 0x0000_0150),
    Read(0x124, 0x0000_0101),
    Row::Due(false),
    Write(0x118, 0x0000_0016),
    Row::Due(true),
    Signature,
    Row::Due(false),
    Read(0x120, 0x0000_0150),
    Read(0x124, 0x0000_0101),
];

#[test]
fn the_first_fis_is_taken_with_fre_0_and_posted_later(rt: HostRuntime) {
    plays(&rt, UNPOSTED.as_slice());
}

/// AHCI 1.3.1, section 3.3.7 (CCS): slot 0 first, then the slots behind CCS.
static ORDER: [Row; 12] = [
    Write(0x118, 0x0000_0017),
    Signature,
    Row::First(0),
    Row::Select(4),
    Read(0x118, 0x0000_c417),
    Row::First(5),
    Row::Select(31),
    Read(0x118, 0x0000_df17),
    Row::First(0),
    Row::Select(9),
    Does(0x118, 0x0000_0016, Consequence::Stopped),
    Row::First(0),
];

#[test]
fn slots_are_issued_from_the_one_behind_ccs_on(rt: HostRuntime) {
    plays(&rt, ORDER.as_slice());
}

/// AHCI 1.3.1, sections 3.3.10 and 3.3.11 (SPD): the link comes up at the generation that PxSCTL allows, once it comes up anew.
static SPEED: [Row; 10] = [
    Read(0x128, 0x0000_0123),
    Write(0x12c, 0x0000_0310),
    Read(0x128, 0x0000_0123),
    Does(0x12c, 0x0000_0311, Consequence::LinkReset),
    Write(0x12c, 0x0000_0310),
    Read(0x128, 0x0000_0113),
    Does(0x12c, 0x0000_0321, Consequence::LinkReset),
    Write(0x12c, 0x0000_0320),
    Read(0x128, 0x0000_0123),
    Read(0x12c, 0x0000_0320),
];

#[test]
fn the_link_comes_up_at_the_speed_that_is_allowed(rt: HostRuntime) {
    plays(&rt, SPEED.as_slice());
}

/// AHCI 1.3.1, section 3.3.7: ATAPI and DLAE can be written; ALPE, ASP and PMA read 0 without their capabilities.
static LIGHTS: [Row; 4] = [
    Write(0x118, 0x0f02_0006),
    Read(0x118, 0x0300_0006),
    Write(0x118, 0x0100_0016),
    Read(0x118, 0x0100_4016),
];

#[test]
fn atapi_and_dlae_are_kept(rt: HostRuntime) {
    plays(&rt, LIGHTS.as_slice());
}

static CLEARED: [Row; 5] = [
    Read(0x120, 0x0000_0080),
    Write(0x118, 0x0000_001e),
    Read(0x118, 0x0000_4016),
    Read(0x120, 0),
    Row::Due(true),
];

#[test]
fn clo_clears_bsy_and_drq(rt: HostRuntime) {
    plays(&rt, CLEARED.as_slice());
}
