//! The statuses by their numbers and names.

ghost use Rattle.std.specs.Prelude.{◌≡◌, MatchOption};
ghost use Rattle.ahci_ffi.specs.{Names.{AnswersName, AnswersText, IsNoStatus}, Status.{code_of}};

use crate::status::Status;
use port_refusal::Refusal;

/// Copies the name of the status of a number, with a 0 after it. `len` is the name's length then.
pub fn status_text(number: u32, out: &mut [u8], len: &mut usize) -> Status
    ensures { AnswersText number result out.old out.new len.old len.new }
{
    match numbered(number) {
        Some(status) => put_name(status.name().as_bytes(), out, len),
        None => Status::BadKind,
    }
}

/// Copies a name, and a 0 after it.
fn put_name(name: &[u8], out: &mut [u8], len: &mut usize) -> Status
    ensures { AnswersName name.now result out.old out.new len.old len.new }
{
    if out.len() <= name.len() {
        return Status::BufferTooSmall;
    }
    out[..name.len()].copy_from_slice(name);
    out[name.len()] = 0;
    *len = name.len();
    Status::Done
}

/// The status of a number, where there is one.
fn numbered(number: u32) -> Option<Status>
    ensures { MatchOption result (IsNoStatus number) (λ status. code_of status ≡ number) }
{
    Some(match number {
        0 => Status::Done,
        1 => Status::NoPort,
        2 => Status::PortThere,
        3 => Status::Refused(Refusal::OutOfMemory),
        4 => Status::BufferTooSmall,
        5 => Status::WrongLength,
        6 => Status::BadTag,
        7 => Status::BadKind,
        8 => Status::Refused(Refusal::NoSuchSector),
        9 => Status::NoSuchEntry,
        10 => Status::TooManyTags,
        11 => Status::Refused(Refusal::BadSize),
        12 => Status::Refused(Refusal::BadDepth),
        13 => Status::Refused(Refusal::BadFirst),
        16 => Status::Refused(Refusal::Unaligned),
        17 => Status::Refused(Refusal::NoSuchRegister),
        18 => Status::Refused(Refusal::NotStarted),
        19 => Status::Refused(Refusal::NotReceiving),
        20 => Status::Refused(Refusal::Running),
        21 => Status::Refused(Refusal::NotQueued),
        32 => Status::Refused(Refusal::Halted),
        33 => Status::Refused(Refusal::NoSuchTag),
        34 => Status::Refused(Refusal::SlotOwned),
        35 => Status::Refused(Refusal::BadHeader),
        36 => Status::Refused(Refusal::BadCommand),
        37 => Status::Refused(Refusal::WrongTag),
        38 => Status::Refused(Refusal::BadList),
        39 => Status::Refused(Refusal::BadCount),
        40 => Status::Refused(Refusal::BadLba),
        41 => Status::Refused(Refusal::NotIssued),
        42 => Status::Refused(Refusal::NotAccepted),
        43 => Status::Refused(Refusal::OutsideCommand),
        44 => Status::Refused(Refusal::BadTags),
        45 => Status::Refused(Refusal::NotHalted),
        46 => Status::Refused(Refusal::NotHeld),
        47 => Status::Refused(Refusal::QueueBusy),
        48 => Status::Refused(Refusal::Stranger),
        49 => Status::Refused(Refusal::NotYet),
        50 => Status::Refused(Refusal::Busy),
        51 => Status::Refused(Refusal::Spent),
        52 => Status::NotReady,
        64 => Status::EmptyFis,
        65 => Status::UnknownType,
        66 => Status::WrongFisLength,
        67 => Status::BadFlag,
        68 => Status::BadStatus,
        69 => Status::BadPayload,
        80 => Status::NotAllowed,
        _ => return None,
    })
}
