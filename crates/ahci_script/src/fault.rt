//! The rules of the language, by the reasons for which a line is refused.

use std::fmt;

/// A rule of the language, or of the order of lines, that a line breaks. `replay` ends at the line.
#[derive(Clone, Copy, Debug, PartialEq, Eq)]
pub enum Fault {
    /// The first word names no command.
    UnknownCommand,
    /// The line ends before its last word.
    MissingWord,
    /// There is a word after the last.
    SpareWord,
    /// Two spaces, or a space at an end of the line.
    SpareSpace,
    /// A word that has to be a decimal number has another byte than a digit.
    NotDecimal,
    /// A decimal number of more than 20 digits.
    LongNumber,
    /// A decimal number of at most 20 digits whose value doesn't fit 64 bits.
    WideNumber,
    /// A tag over 31.
    LargeTag(u64),
    /// A number of sectors over 131,072.
    LargeCount(u64),
    /// A word of the identify page over 255.
    LargeWord(u64),
    /// A word that has to be hexadecimal digits has another byte.
    NotHexadecimal,
    /// A byte that hasn't two hexadecimal digits.
    NotTwoDigits,
    /// A command header that hasn't 64 hexadecimal digits.
    NotSixtyFourDigits,
    /// Bytes with an odd number of hexadecimal digits.
    OddDigits,
    /// An offset or a mask of more than 8 hexadecimal digits.
    LongRegister,
    /// More than 32 tags.
    ManyTags,
    /// A byte over 127, in a comment too.
    HighByte,
    /// The bytes EF BB BF at the beginning of a line.
    ByteOrderMark,
    /// A carriage return in a line that is no comment.
    CarriageReturn,
    /// A tab in a line that is no comment.
    Tab,
    /// Another byte below 32, or byte 127, in a line that is no comment.
    ControlByte(u8),
    /// More than 4,096 bytes.
    LongLine,
    /// A command other than `disk`, where no disk was accepted yet.
    BeforeDisk,
    /// A `disk` after one that was accepted.
    SecondDisk,
}

impl fmt::Display for Fault {
    ghost use Rattle.std.specs.Prelude.{Some};
    ghost use Rattle.ahci_script.specs.Faults.{fault_text};

    ghost output = { λ fault. Some (fault_text fault) };

    fn fmt<W: fmt::Write>(&self, f: &mut fmt::Formatter<W>) -> fmt::Result {
        match self {
            Fault::UnknownCommand => write!(f, "no such command"),
            Fault::MissingWord => write!(f, "a word is missing"),
            Fault::SpareWord => write!(f, "a word too many"),
            Fault::SpareSpace => write!(f, "a space too many"),
            Fault::NotDecimal => write!(f, "not a decimal number"),
            Fault::LongNumber => write!(f, "more than 20 digits"),
            Fault::WideNumber => write!(f, "a number of 2^64 or more"),
            Fault::LargeTag(tag) => write!(f, "tag {tag}, at most 31"),
            Fault::LargeCount(count) => write!(f, "{count} sectors, at most 131072"),
            Fault::LargeWord(word) => write!(f, "word {word}, at most 255"),
            Fault::NotHexadecimal => write!(f, "not hexadecimal digits"),
            Fault::NotTwoDigits => write!(f, "not two hexadecimal digits"),
            Fault::NotSixtyFourDigits => write!(f, "not 64 hexadecimal digits"),
            Fault::OddDigits => write!(f, "an odd number of digits"),
            Fault::LongRegister => write!(f, "more than 8 digits"),
            Fault::ManyTags => write!(f, "more than 32 tags"),
            Fault::HighByte => write!(f, "a byte over 127"),
            Fault::ByteOrderMark => write!(f, "a byte order mark"),
            Fault::CarriageReturn => write!(f, "a carriage return"),
            Fault::Tab => write!(f, "a tab"),
            Fault::ControlByte(byte) => write!(f, "control byte {byte}"),
            Fault::LongLine => write!(f, "more than 4096 bytes"),
            Fault::BeforeDisk => write!(f, "a command before the disk"),
            Fault::SecondDisk => write!(f, "a second disk"),
        }
    }
}
