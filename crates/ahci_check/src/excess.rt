//! The limits of the port that a line passes: the first one, in the order of the port's refusals.

ghost use Rattle.std.specs.Prelude.{◌≡◌, IfOk};
ghost use Rattle.ahci_regs.specs.RegisterTable.{register_at};
ghost use Rattle.ahci_script.specs.Lines.{HasSmallTag};
ghost use Rattle.ahci_check.specs.Limits.{count_excess, disk_excess, excess_at, excess_after_disk, excess_in, fail_excess, register_excess, sector_excess, tag_excess, transfer_excess};

use crate::limit::Limit;
use crate::place::Place;
use crate::tags::tags_excess;
use crate::windows::raw_excess;
use ahci_port::MOST_FIRST;
use ahci_regs::{RegFault, Register};
use ahci_script::{ScriptCommand, after_first};
use ncq_core::{MAX_DEPTH, MAX_SECTORS};
use ncq_journal::{LBA_LIMIT, MAX_COUNT};
use std::alloc::{AllocError, Allocator};

/// Where a line passes a limit of the port: how many bytes of the line there are from there on, and the limit.
#[derive(Clone, Copy, Debug, PartialEq, Eq)]
pub(crate) struct Excess {
    pub left: usize,
    pub limit: Limit,
}

/// A limit is passed where this end of a line begins.
pub(crate) fn excess_at(end: &[u8], limit: Limit) -> Option<Excess>
    ensures { result ≡ excess_at end.now limit }
{
    Some(Excess {
        left: end.len(),
        limit,
    })
}

/// The first limit that a line passes. Memory is taken for the bytes of a window alone.
pub(crate) fn excess_of<A: Allocator>(
    alloc: A,
    place: Place,
    line: &[u8],
    command: &ScriptCommand<'_>,
) -> Result<Option<Excess>, AllocError>
    requires { HasSmallTag command.now }
    ensures { IfOk result (λ excess. excess ≡ excess_in place line.now command.now) }
{
    let words = after_first(line);
    match (place, command) {
        (Place::AfterDisk { sectors, depth }, _) => {
            excess_after_disk(alloc, sectors, depth, words, command)
        }
        (
            Place::BeforeDisk,
            ScriptCommand::Disk {
                sectors,
                depth,
                first,
            },
        ) => Ok(disk_excess(words, *sectors, *depth, *first)),
        _ => Ok(None),
    }
}

/// The first limit that a line passes after a disk of so many sectors and slots.
fn excess_after_disk<A: Allocator>(
    alloc: A,
    sectors: u64,
    depth: u64,
    words: &[u8],
    command: &ScriptCommand<'_>,
) -> Result<Option<Excess>, AllocError>
    requires { HasSmallTag command.now }
    ensures { IfOk result (λ excess. excess ≡ excess_after_disk sectors depth words.now command.now) }
{
    match command {
        ScriptCommand::Write {
            tag,
            lba,
            sectors: count,
            ..
        }
        | ScriptCommand::Read {
            tag,
            lba,
            sectors: count,
        } => Ok(transfer_excess(depth, words, *tag, *lba, *count)),
        ScriptCommand::Raw { tag, window } => raw_excess(alloc, depth, words, *tag, window),
        ScriptCommand::Accept { tag }
        | ScriptCommand::Collect { tag, .. }
        | ScriptCommand::Reissue { tag } => Ok(tag_excess(depth, words, *tag)),
        ScriptCommand::Serve { tags } => Ok(tags_excess(depth, words, tags)),
        ScriptCommand::Fail { tag, lba, .. } => {
            Ok(fail_excess(sectors, depth, words, *tag, *lba))
        }
        ScriptCommand::Reg { off } => Ok(register_excess(words, *off)),
        ScriptCommand::Show { lba } => Ok(sector_excess(sectors, words, *lba)),
        _ => Ok(None),
    }
}

/// The first limit that a disk's numbers pass: the words begin with the number of sectors.
pub(crate) fn disk_excess(
    words: &[u8],
    sectors: u64,
    depth: u64,
    first: Option<u64>,
) -> Option<Excess>
    ensures { result ≡ disk_excess words.now sectors depth first }
{
    let number = first.unwrap_or(0);
    if sectors == 0 {
        excess_at(words, Limit::EmptyDisk)
    } else if sectors > u64::from(MAX_SECTORS) {
        excess_at(words, Limit::LargeDisk(sectors))
    } else if depth == 0 {
        excess_at(after_first(words), Limit::NoSlots)
    } else if depth > u64::from(MAX_DEPTH) {
        excess_at(after_first(words), Limit::ManySlots(depth))
    } else if number > MOST_FIRST {
        excess_at(after_first(after_first(words)), Limit::LargeFirst(number))
    } else {
        None
    }
}

/// The port has no slot for a tag, with which the words begin.
pub(crate) fn tag_excess(depth: u64, words: &[u8], tag: u8) -> Option<Excess>
    ensures { result ≡ tag_excess depth words.now tag }
{
    if u64::from(tag) >= depth {
        excess_at(words, Limit::FarTag(tag, depth))
    } else {
        None
    }
}

/// The disk lacks a sector, with whose LBA the words begin.
fn sector_excess(sectors: u64, words: &[u8], lba: u64) -> Option<Excess>
    ensures { result ≡ sector_excess sectors words.now lba }
{
    if lba >= sectors {
        excess_at(words, Limit::NoSuchSector(lba, sectors))
    } else {
        None
    }
}

/// The first limit that the count and the LBA of a read or a write pass: the words begin with the LBA.
pub(crate) fn count_excess(words: &[u8], lba: u64, count: u32) -> Option<Excess>
    ensures { result ≡ count_excess words.now lba count }
{
    if count == 0 {
        excess_at(after_first(words), Limit::NoSectors)
    } else if count > MAX_COUNT {
        excess_at(after_first(words), Limit::ManySectors(u64::from(count)))
    } else if lba >= LBA_LIMIT {
        excess_at(words, Limit::FarSector(lba))
    } else {
        None
    }
}

/// The first limit that a read or a write passes: the words begin with the tag.
fn transfer_excess(depth: u64, words: &[u8], tag: u8, lba: u64, count: u32) -> Option<Excess>
    ensures { result ≡ transfer_excess depth words.now tag lba count }
{
    count_excess(after_first(words), lba, count).or(tag_excess(depth, words, tag))
}

/// The first limit that a failure passes: the words begin with the tag, and end with the LBA.
fn fail_excess(sectors: u64, depth: u64, words: &[u8], tag: u8, lba: u64) -> Option<Excess>
    ensures { result ≡ fail_excess sectors depth words.now tag lba }
{
    let last = after_first(after_first(words));
    tag_excess(depth, words, tag).or(sector_excess(sectors, last, lba))
}

/// There is no register at the offset with which the words begin.
fn register_excess(words: &[u8], off: u32) -> Option<Excess>
    ensures { result ≡ register_excess words.now (register_at off) }
{
    match Register::at(off) {
        Ok(_) => None,
        Err(RegFault::Unaligned) => excess_at(words, Limit::Unaligned),
        Err(_) => excess_at(words, Limit::NoSuchRegister),
    }
}
