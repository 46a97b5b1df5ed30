//! The rules for command headers and command FISes.

ghost use Rattle.std.specs.Prelude.{◌≡◌, ◌≤◌, ◌+◌};
ghost use Rattle.sata_fis.specs.Places.{number};
ghost use Rattle.hba_rules.specs.Commands.{command_breaks, fis_rule, flag_rule, has_direction, has_length, has_other_tag, has_reserved_bit, has_reserved_fis, has_wrong_flags, is_packet, is_queued, is_right_bist, is_wrong_bist, names_multiplier, prefetches, queue_rule, reserved_dwords, resets};

use crate::rule::Rule;
use byteorder::{ByteOrder, LittleEndian};
use hba_command::{CommandHeader, Task, command_fis, task_of};
use hba_memory::{is_write, moved_by};
use sata_fis::H2d;

/// Whether the command of a slot breaks a rule: its header, and the first 20 bytes of its command table. `active` is its bit of PxSACT.
pub fn command_breaks(rule: Rule, slot: u8, active: bool, header: &[u8; 32], fis: &[u8; 20]) -> bool
    ensures { result ≡ command_breaks rule slot active header.now fis.now }
{
    match rule {
        Rule::FisLength => !has_length(header, fis),
        Rule::AtapiFlag => CommandHeader::at(header).atapi && !is_packet(fis),
        Rule::ReservedHeader => has_reserved_bit(header) || reserved_dwords(header) != 0,
        Rule::TableUnaligned => header[8] % 128 != 0,
        Rule::PortOfMultiplier => names_multiplier(header, fis),
        Rule::BistFlag => is_wrong_bist(header, fis),
        _ => fis_rule(rule, slot, active, header, fis, &command_fis(fis)),
    }
}

/// Whether P of a header is 1.
fn prefetches(header: &[u8; 32]) -> bool
    ensures { result ≡ prefetches header.now }
{
    header[0] / 128 == 1
}

/// Bit 11 of a header's dword 0.
fn has_reserved_bit(header: &[u8; 32]) -> bool
    ensures { result ≡ has_reserved_bit header.now }
{
    header[1] / 8 % 2 == 1
}

/// Whether a header or a FIS names a port of a port multiplier.
fn names_multiplier(header: &[u8; 32], fis: &[u8; 20]) -> bool
    ensures { result ≡ names_multiplier header.now fis.now }
{
    header[1] / 16 != 0 || fis[1] % 16 != 0
}

/// Whether B of a header is 1 for another FIS than BIST Activate.
fn is_wrong_bist(header: &[u8; 32], fis: &[u8; 20]) -> bool
    ensures { result ≡ is_wrong_bist header.now fis.now }
{
    CommandHeader::at(header).bist && fis[0] != 0x58
}

/// Whether B of a header is 1 for a BIST Activate FIS.
fn is_right_bist(header: &[u8; 32], fis: &[u8; 20]) -> bool
    ensures { result ≡ is_right_bist header.now fis.now }
{
    CommandHeader::at(header).bist && fis[0] == 0x58
}

/// Whether CFL of a header is the length of its FIS.
fn has_length(header: &[u8; 32], fis: &[u8; 20]) -> bool
    ensures { result ≡ has_length header.now fis.now }
{
    let dwords = if is_right_bist(header, fis) { 3 } else { 5 };
    CommandHeader::at(header).fis_dwords == dwords
}

/// Whether reserved bits of a Register FIS - Host to Device are not 0.
fn has_reserved_fis(fis: &[u8; 20], queued: bool) -> bool
    ensures { result ≡ has_reserved_fis fis.now queued }
{
    fis[1] / 16 % 8 != 0 || (!queued && LittleEndian::read_u32(&fis[16..]) != 0)
}

/// Whether a FIS has the command PACKET.
fn is_packet(fis: &[u8; 20]) -> bool
    ensures { result ≡ is_packet fis.now }
{
    fis[0] == 0x27 && fis[1] / 128 == 1 && fis[2] == 0xA0
}

/// Dwords 4 to 7 of a header, all bits together.
fn reserved_dwords(header: &[u8; 32]) -> u32
    ensures { result ≡ reserved_dwords header.now }
{
    dword(header, 16) | dword(header, 20) | dword(header, 24) | dword(header, 28)
}

/// The dword of a header at a place.
fn dword(header: &[u8; 32], place: usize) -> u32
    requires { place + 4 ≤ 32 }
    ensures { result ≡ number place 4 header.now }
{
    LittleEndian::read_u32(&header[place..])
}

/// The rules for the command FIS.
fn fis_rule(
    rule: Rule,
    slot: u8,
    active: bool,
    header: &[u8; 32],
    bytes: &[u8; 20],
    fis: &Option<H2d>,
) -> bool
    ensures { result ≡ fis_rule rule slot active header.now bytes.now fis.now }
{
    match fis {
        Some(fis) => flag_rule(rule, slot, active, header, bytes, fis),
        None => matches!(rule, Rule::NoCommandFis) && !is_right_bist(header, bytes),
    }
}

/// The rules for the flags of a header, and for the reserved bits of a FIS.
fn flag_rule(
    rule: Rule,
    slot: u8,
    active: bool,
    header: &[u8; 32],
    bytes: &[u8; 20],
    fis: &H2d,
) -> bool
    ensures { result ≡ flag_rule rule slot active header.now bytes.now fis.now }
{
    match rule {
        Rule::WriteFlag => !has_direction(&task_of(fis), CommandHeader::at(header).write),
        Rule::PrefetchWithQueue => prefetches(header) && is_queued(fis),
        Rule::ResetFlags => has_wrong_flags(&CommandHeader::at(header), &task_of(fis)),
        Rule::ReservedFis => has_reserved_fis(bytes, is_queued(fis)),
        _ => queue_rule(rule, slot, active, fis),
    }
}

/// Whether R and C of a header are not those of a command.
fn has_wrong_flags(header: &CommandHeader, task: &Task) -> bool
    ensures { result ≡ has_wrong_flags header.now task.now }
{
    if resets(task) {
        !(header.reset && header.clears_busy)
    } else {
        header.reset || header.clears_busy
    }
}

/// Whether a command sets SRST.
fn resets(task: &Task) -> bool
    ensures { result ≡ resets task.now }
{
    match task {
        Task::Control { reset } => *reset,
        _ => false,
    }
}

/// The rules for a queued command and its slot.
fn queue_rule(rule: Rule, slot: u8, active: bool, fis: &H2d) -> bool
    ensures { result ≡ queue_rule rule slot active fis.now }
{
    match rule {
        Rule::ActiveWithoutQueue => active && !is_queued(fis),
        Rule::QueueWithoutActive => is_queued(fis) && !active,
        Rule::TagNotSlot => has_other_tag(fis, slot),
        _ => false,
    }
}

/// Whether a command has this W, if it moves data.
fn has_direction(task: &Task, write: bool) -> bool
    ensures { result ≡ has_direction task.now write }
{
    if moved_by(task) == 0 {
        true
    } else if is_write(task) {
        write
    } else {
        !write
    }
}

/// Whether a command is one of the NCQ feature set.
fn is_queued(fis: &H2d) -> bool
    ensures { result ≡ is_queued fis.now }
{
    fis.c && matches!(fis.command, 0x60 | 0x61 | 0x63 | 0x64 | 0x65)
}

/// Whether the tag of a queued command is another than its slot.
fn has_other_tag(fis: &H2d, slot: u8) -> bool
    ensures { result ≡ has_other_tag fis.now slot }
{
    is_queued(fis) && fis.count / 8 % 32 != u16::from(slot)
}
