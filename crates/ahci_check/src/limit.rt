//! The limits of the port that a line of a script can pass.

use ahci_table::TableFault;
use std::fmt;

/// A limit of the port that a line passes. Every port refuses it, and `replay` goes on.
#[derive(Clone, Copy, Debug, PartialEq, Eq)]
pub enum Limit {
    /// A `write` or `read` of 0 sectors.
    NoSectors,
    /// A `write` or `read` of more than 65,536 sectors.
    ManySectors(u64),
    /// A `write` or `read` from an LBA of 2^48 or more.
    FarSector(u64),
    /// A `disk` of 0 sectors.
    EmptyDisk,
    /// A `disk` of more than 131,072 sectors.
    LargeDisk(u64),
    /// A `disk` with a depth of 0.
    NoSlots,
    /// A `disk` with a depth over 32.
    ManySlots(u64),
    /// A `disk` whose first number is over 2^63.
    LargeFirst(u64),
    /// A tag for which the port has no slot, and how many it has.
    FarTag(u8, u64),
    /// A `serve` that names a tag twice.
    TagTwice(u8),
    /// A `show` or `fail` at a sector that the disk lacks, and how many it has.
    NoSuchSector(u64, u64),
    /// A `raw` whose window the port doesn't take: the first rule that it breaks.
    Window(TableFault),
    /// A `reg` whose offset is no multiple of 4.
    Unaligned,
    /// A `reg` whose offset is no register's.
    NoSuchRegister,
}

impl fmt::Display for Limit {
    ghost use Rattle.std.specs.Prelude.{Some};
    ghost use Rattle.ahci_check.specs.Texts.{limit_text};

    ghost output = { λ limit. Some (limit_text limit) };

    fn fmt<W: fmt::Write>(&self, f: &mut fmt::Formatter<W>) -> fmt::Result {
        match self {
            Limit::NoSectors => write!(f, "0 sectors, at least 1"),
            Limit::ManySectors(count) => write!(f, "{count} sectors, at most 65536"),
            Limit::FarSector(lba) => write!(f, "LBA {lba}, at most 281474976710655"),
            Limit::EmptyDisk => write!(f, "a disk of 0 sectors, at least 1"),
            Limit::LargeDisk(sectors) => write!(f, "a disk of {sectors} sectors, at most 131072"),
            Limit::NoSlots => write!(f, "0 slots, at least 1"),
            Limit::ManySlots(depth) => write!(f, "{depth} slots, at most 32"),
            Limit::LargeFirst(first) => {
                write!(f, "first number {first}, at most 9223372036854775808")
            }
            Limit::FarTag(tag, depth) => write!(f, "tag {tag} of {depth} slots"),
            Limit::TagTwice(tag) => write!(f, "tag {tag} twice"),
            Limit::NoSuchSector(lba, sectors) => write!(f, "LBA {lba} of {sectors} sectors"),
            Limit::Window(TableFault::BadHeader) => write!(f, "a bad command header"),
            Limit::Window(TableFault::BadCommand) => write!(f, "a bad command FIS"),
            Limit::Window(TableFault::WrongTag) => write!(f, "another tag in the command FIS"),
            Limit::Window(TableFault::BadList) => write!(f, "a bad PRDT"),
            Limit::Unaligned => write!(f, "an offset that is no multiple of 4"),
            Limit::NoSuchRegister => write!(f, "no register at this offset"),
        }
    }
}
