//! The statuses, with their numbers and names.

ghost use Rattle.std.specs.Prelude.{◌≡◌};
ghost use Rattle.ahci_ffi.specs.Status.{code_of, name_of, refused_code};

use port_refusal::Refusal;
use std::alloc::AllocError;

/// What a call answers: that it is done, or the one reason for which it was refused.
#[derive(Clone, Copy, Debug, PartialEq, Eq)]
pub enum Status {
    /// The call is carried out.
    Done,
    /// The place is empty.
    NoPort,
    /// The place has a port already.
    PortThere,
    /// The answer has more bytes than the buffer.
    BufferTooSmall,
    /// A buffer of one fixed length has another.
    WrongLength,
    /// The tag is not 0 to 31.
    BadTag,
    /// The kind is none of those that the call knows.
    BadKind,
    /// The journal has no entry of this number, or it has no bytes.
    NoSuchEntry,
    /// A list of over 32 tags.
    TooManyTags,
    /// There are no bytes.
    EmptyFis,
    /// The type is none of the seven.
    UnknownType,
    /// The type doesn't have so many bytes.
    WrongFisLength,
    /// A flag that is neither 0 nor 1.
    BadFlag,
    /// Bit 7 or 3 of a Set Device Bits FIS's status is 1.
    BadStatus,
    /// The payload of a Data FIS is not 4 to 8,192 bytes, a multiple of 4.
    BadPayload,
    /// An event that can't come at its place.
    NotAllowed,
    /// The controller can't take the step now.
    NotReady,
    /// The port, its disk or its registers refuse it.
    Refused(Refusal),
}

impl From<AllocError> for Status {
    ghost use Rattle.std.specs.Prelude.{◌≡◌};
    ghost use Rattle.port_refusal.specs.declared.refusal.Refusal.TheVariants as the-refusal;
    ghost use Rattle.ahci_ffi.specs.declared.status.Status.TheVariants as the-status;

    ghost from_gives = { λ _ status. status ≡ the-status.Refused the-refusal.OutOfMemory };

    fn from(_refused: AllocError) -> Status {
        Status::Refused(Refusal::OutOfMemory)
    }
}

impl Status {
    /// Its number for C.
    pub fn code(self) -> u32
        ensures { result ≡ code_of self }
    {
        match self {
            Status::Done => 0,
            Status::NoPort => 1,
            Status::PortThere => 2,
            Status::BufferTooSmall => 4,
            Status::WrongLength => 5,
            Status::BadTag => 6,
            Status::BadKind => 7,
            Status::NoSuchEntry => 9,
            Status::TooManyTags => 10,
            Status::EmptyFis => 64,
            Status::UnknownType => 65,
            Status::WrongFisLength => 66,
            Status::BadFlag => 67,
            Status::BadStatus => 68,
            Status::BadPayload => 69,
            Status::NotAllowed => 80,
            Status::NotReady => 52,
            Status::Refused(refusal) => refused_code(refusal),
        }
    }

    /// Its name, as `ahci replay` shows that of a refusal.
    pub fn name(self) -> &'static str
        ensures { result.now ≡ name_of self }
    {
        match self {
            Status::Done => "Ok",
            Status::NoPort => "NoPort",
            Status::PortThere => "PortThere",
            Status::BufferTooSmall => "BufferTooSmall",
            Status::WrongLength => "WrongLength",
            Status::BadTag => "BadTag",
            Status::BadKind => "BadKind",
            Status::NoSuchEntry => "NoSuchEntry",
            Status::TooManyTags => "TooManyTags",
            Status::EmptyFis => "EmptyFis",
            Status::UnknownType => "UnknownType",
            Status::WrongFisLength => "WrongFisLength",
            Status::BadFlag => "BadFlag",
            Status::BadStatus => "BadStatus",
            Status::BadPayload => "BadPayload",
            Status::NotAllowed => "NotAllowed",
            Status::NotReady => "NotReady",
            Status::Refused(refusal) => refusal.name(),
        }
    }
}

/// The number of a refusal.
fn refused_code(refusal: Refusal) -> u32
    ensures { result ≡ refused_code refusal }
{
    match refusal {
        Refusal::OutOfMemory => 3,
        Refusal::NoSuchSector => 8,
        Refusal::BadSize => 11,
        Refusal::BadDepth => 12,
        Refusal::BadFirst => 13,
        Refusal::Unaligned => 16,
        Refusal::NoSuchRegister => 17,
        Refusal::NotStarted => 18,
        Refusal::NotReceiving => 19,
        Refusal::Running => 20,
        Refusal::NotQueued => 21,
        Refusal::Halted => 32,
        Refusal::NoSuchTag => 33,
        Refusal::SlotOwned => 34,
        Refusal::BadHeader => 35,
        Refusal::BadCommand => 36,
        Refusal::WrongTag => 37,
        Refusal::BadList => 38,
        Refusal::BadCount => 39,
        Refusal::BadLba => 40,
        Refusal::NotIssued => 41,
        Refusal::NotAccepted => 42,
        Refusal::OutsideCommand => 43,
        Refusal::BadTags => 44,
        Refusal::NotHalted => 45,
        Refusal::NotHeld => 46,
        Refusal::QueueBusy => 47,
        Refusal::Stranger => 48,
        Refusal::NotYet => 49,
        Refusal::Busy => 50,
        Refusal::Spent => 51,
    }
}
