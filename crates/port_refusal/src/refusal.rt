//! The reasons for which calls on a port are refused.

ghost use Rattle.std.specs.Prelude.{◌≡◌, ◌≤◌, length};

use thiserror::Error;

/// Why a call on a port, on its disk or on its registers is refused. Each call has an enum of its own faults, each of which is
/// one of these. Its text as an error says what is wrong; its name is what a script's answer and C's status show.
#[derive(Clone, Copy, Debug, PartialEq, Eq, Error)]
pub enum Refusal {
    #[error("the image is not 1 to 131,072 whole sectors of 512 bytes")]
    BadSize,
    #[error("the depth is not 1 to 32")]
    BadDepth,
    #[error("the number of the first entry is over 2^63")]
    BadFirst,
    #[error("not 1 to 65,536 whole sectors")]
    BadCount,
    #[error("the LBA does not fit 48 bits")]
    BadLba,
    #[error("the tag is not below the depth")]
    NoSuchTag,
    #[error("the slot has a request")]
    SlotOwned,
    #[error("the port does not take such a command header")]
    BadHeader,
    #[error("CFIS is no READ or WRITE FPDMA QUEUED in the direction of its header")]
    BadCommand,
    #[error("the command's tag is not that of its slot")]
    WrongTag,
    #[error("the port does not take such a PRDT")]
    BadList,
    #[error("a command has failed, and the port has not recovered")]
    Halted,
    #[error("the tag's command does not wait for the device")]
    NotIssued,
    #[error("the device has not accepted the tag's command")]
    NotAccepted,
    #[error("the list has no tag, or one tag twice")]
    BadTags,
    #[error("the sector is not one of the command's")]
    OutsideCommand,
    #[error("no command has failed")]
    NotHalted,
    #[error("the tag's command is not held")]
    NotHeld,
    #[error("a queued command waits for the device or is outstanding in it")]
    QueueBusy,
    #[error("the slot is free, or its request has another number")]
    Stranger,
    #[error("the request has no answer yet")]
    NotYet,
    #[error("the offset is not a multiple of 4")]
    Unaligned,
    #[error("no register has this offset")]
    NoSuchRegister,
    #[error("PxCMD.ST is 0")]
    NotStarted,
    #[error("PxCMD.ST would be set without PxCMD.FRE")]
    NotReceiving,
    #[error("PxCMD.FRE, PxCLB or PxFB would change while PxCMD.ST is 1")]
    Running,
    #[error("a bit of PxCI is set whose bit of PxSACT was not set before")]
    NotQueued,
    #[error("the LBA is past the last sector")]
    NoSuchSector,
    #[error("some slot is not free")]
    Busy,
    #[error("the number of the next entry is over 2^63")]
    Spent,
    #[error("out of memory")]
    OutOfMemory,
}

impl Refusal {
    ghost use Rattle.port_refusal.specs.Names.{name_of};

    /// Its name, which is the variant's.
    pub fn name(self) -> &'static str
        ensures name { result.now ≡ name_of self }
        ensures short { length result.now ≤ 20 }
    {
        match self {
            Refusal::BadSize => "BadSize",
            Refusal::BadDepth => "BadDepth",
            Refusal::BadFirst => "BadFirst",
            Refusal::BadCount => "BadCount",
            Refusal::BadLba => "BadLba",
            Refusal::NoSuchTag => "NoSuchTag",
            Refusal::SlotOwned => "SlotOwned",
            Refusal::BadHeader => "BadHeader",
            Refusal::BadCommand => "BadCommand",
            Refusal::WrongTag => "WrongTag",
            Refusal::BadList => "BadList",
            Refusal::Halted => "Halted",
            Refusal::NotIssued => "NotIssued",
            Refusal::NotAccepted => "NotAccepted",
            Refusal::BadTags => "BadTags",
            Refusal::OutsideCommand => "OutsideCommand",
            Refusal::NotHalted => "NotHalted",
            Refusal::NotHeld => "NotHeld",
            Refusal::QueueBusy => "QueueBusy",
            Refusal::Stranger => "Stranger",
            Refusal::NotYet => "NotYet",
            Refusal::Unaligned => "Unaligned",
            Refusal::NoSuchRegister => "NoSuchRegister",
            Refusal::NotStarted => "NotStarted",
            Refusal::NotReceiving => "NotReceiving",
            Refusal::Running => "Running",
            Refusal::NotQueued => "NotQueued",
            Refusal::NoSuchSector => "NoSuchSector",
            Refusal::Busy => "Busy",
            Refusal::Spent => "Spent",
            Refusal::OutOfMemory => "OutOfMemory",
        }
    }
}
