//! Why each call of a port is refused, an enum a call, in the order of its tests. As an error a fault shows its refusal's text.

ghost use Rattle.std.specs.Prelude.{◌≡◌};
ghost use Rattle.ahci_port.specs.declared.fault.IssueFault.TheVariants as issue;
ghost use Rattle.ahci_port.specs.declared.fault.PlainFault.TheVariants as plain;
ghost use Rattle.ahci_port.specs.declared.fault.RecoverFault.TheVariants as recover;
ghost use Rattle.ahci_port.specs.declared.fault.ZeroFault.TheVariants as zero;

use ahci_regs::RegFault;
use port_refusal::Refusal;
use std::alloc::AllocError;
use thiserror::Error;

/// Why a command was not issued. The cases are tested in this order.
#[derive(Clone, Copy, Debug, PartialEq, Eq, Error)]
#[error("{}", Refusal::from(*self))]
pub enum IssueFault {
    /// A command has failed, and the port has not recovered.
    Halted,
    /// The window's tag is not below the depth.
    NoSuchTag,
    /// The slot has a request.
    SlotOwned,
    /// The command header is none that the port takes.
    BadHeader,
    /// CFIS is no READ or WRITE FPDMA QUEUED in the header's direction.
    BadCommand,
    /// The command's tag is not the window's.
    WrongTag,
    /// The PRDT is none that the port takes.
    BadList,
    /// Room for a write's bytes, for the pages that they go to, or for the request's entries was refused.
    OutOfMemory,
}

impl From<AllocError> for IssueFault {
    ghost from_gives = { λ _ fault. fault ≡ issue.OutOfMemory };

    fn from(_refused: AllocError) -> IssueFault {
        IssueFault::OutOfMemory
    }
}

/// Why a command was not submitted. The cases are tested in this order, and then those of an issue.
#[derive(Clone, Copy, Debug, PartialEq, Eq, Error)]
#[error("{}", Refusal::from(*self))]
pub enum SubmitFault {
    /// The command has no sectors or over 65,536, or the bytes of a write aren't whole sectors.
    BadCount,
    /// The LBA doesn't fit 48 bits.
    BadLba,
    /// The port did not issue it: `Halted`, `NoSuchTag`, `SlotOwned`, or `OutOfMemory` where room for the window, for the pages
    /// that a write goes to, or for the request's entries was refused.
    Issue(IssueFault),
}

/// Why the device did not take a step. The cases are tested in this order.
#[derive(Clone, Copy, Debug, PartialEq, Eq, Error)]
#[error("{}", Refusal::from(*self))]
pub enum StepFault {
    /// A command has failed, and the port has not recovered.
    Halted,
    /// An Accept, and the tag's command does not wait for the device.
    NotIssued,
    /// A Serve or a Fail, and the command of the tag, or of some tag of the list, is not accepted.
    NotAccepted,
    /// A Fail at a sector that is not one of the command's.
    OutsideCommand,
    /// A Serve of no tag, or of one tag twice.
    BadTags,
}

/// Why a request was not collected. The cases are tested in this order.
#[derive(Clone, Copy, Debug, PartialEq, Eq, Error)]
#[error("{}", Refusal::from(*self))]
pub enum CollectFault {
    /// The slot is free, or its request has another number.
    Stranger,
    /// The request is not done.
    NotYet,
}

/// Why no port was made that goes on from an image and a number. The cases are tested in this order.
#[derive(Clone, Copy, Debug, PartialEq, Eq, Error)]
#[error("{}", Refusal::from(*self))]
pub enum ResumeFault {
    /// The image is not 1 to 131,072 whole sectors of 512 bytes.
    BadSize,
    /// The depth is not 1 to 32.
    BadDepth,
    /// The number of the first entry is over 2^63.
    BadFirst,
    /// Room for the image or the journal was refused.
    OutOfMemory,
}

/// Why the journal was not handed out. The cases are tested in this order.
#[derive(Clone, Copy, Debug, PartialEq, Eq, Error)]
#[error("{}", Refusal::from(*self))]
pub enum TrimFault {
    /// Some slot is not free, so also where the port is halted.
    Busy,
    /// The number of the next entry is over 2^63.
    Spent,
}

/// Why the port was not reset.
#[derive(Clone, Copy, Debug, PartialEq, Eq, Error)]
#[error("{}", Refusal::from(*self))]
pub enum ResetFault {
    /// The number of the next entry is over 2^63.
    Spent,
}

/// Why the port did not recover. The cases are tested in this order.
#[derive(Clone, Copy, Debug, PartialEq, Eq, Error)]
#[error("{}", Refusal::from(*self))]
pub enum RecoverFault {
    /// No command has failed.
    NotHalted,
    /// Room for the entries that follow was refused.
    OutOfMemory,
}

impl From<AllocError> for RecoverFault {
    ghost from_gives = { λ _ fault. fault ≡ recover.OutOfMemory };

    fn from(_refused: AllocError) -> RecoverFault {
        RecoverFault::OutOfMemory
    }
}

/// Why a held command was not issued again. The cases are tested in this order.
#[derive(Clone, Copy, Debug, PartialEq, Eq, Error)]
#[error("{}", Refusal::from(*self))]
pub enum ReissueFault {
    /// A command has failed, and the port has not recovered.
    Halted,
    /// The tag's command is not held.
    NotHeld,
}

/// Why a command that is not queued was not sent. The cases are tested in this order.
#[derive(Clone, Copy, Debug, PartialEq, Eq, Error)]
#[error("{}", Refusal::from(*self))]
pub enum PlainFault {
    /// A command has failed, and the port has not recovered.
    Halted,
    /// A queued command waits for the device or is outstanding in it.
    QueueBusy,
    /// Room for the command's entry was refused.
    OutOfMemory,
}

impl From<AllocError> for PlainFault {
    ghost from_gives = { λ _ fault. fault ≡ plain.OutOfMemory };

    fn from(_refused: AllocError) -> PlainFault {
        PlainFault::OutOfMemory
    }
}

/// Why sectors were not made zeros. The cases are tested in this order.
#[derive(Clone, Copy, Debug, PartialEq, Eq, Error)]
#[error("{}", Refusal::from(*self))]
pub enum ZeroFault {
    /// A command has failed, and the port has not recovered.
    Halted,
    /// A queued command waits for the device or is outstanding in it.
    QueueBusy,
    /// Some slot has a request, and memory for the sectors of its write may be reserved.
    SlotOwned,
    /// There are no sectors, or not all of them are the disk's.
    NoSuchSector,
    /// Room for the command's entry, or memory that the store needs, was refused.
    OutOfMemory,
}

impl From<AllocError> for ZeroFault {
    ghost from_gives = { λ _ fault. fault ≡ zero.OutOfMemory };

    fn from(_refused: AllocError) -> ZeroFault {
        ZeroFault::OutOfMemory
    }
}

/// Why a write to a register was not taken. Of each register the cases are tested in this order.
#[derive(Clone, Copy, Debug, PartialEq, Eq, Error)]
#[error("{}", Refusal::from(*self))]
pub enum WriteFault {
    /// By the register table: there is no register at the offset, or FRE would be cleared, or PxCLB or PxFB moved.
    Register(RegFault),
    /// PxSACT or PxCI, while a command has failed and the port has not recovered.
    Halted,
    /// PxCMD without ST, while no command has failed: the model's port stops on its way back alone.
    NotHalted,
    /// PxCI, and a newly set bit whose bit of PxSACT was not written before: a command that is not queued.
    NotQueued,
    /// PxCI, and the command of this slot is not issued. Those of the slots below it are.
    Issue { slot: u8, fault: IssueFault },
    /// Room for a recovery's entries was refused.
    OutOfMemory,
}
