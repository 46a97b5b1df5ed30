//! The faults of the port's calls as refusals: each by its own name, or as the fault that it wraps.

ghost use Rattle.std.specs.Prelude.{◌≡◌};
ghost use Rattle.ahci_port.specs.Refusals.{of_collect, of_issue, of_plain, of_recover, of_reissue, of_reset, of_resume, of_step, of_submit, of_trim, of_write, of_zero};

use crate::fault::{
    CollectFault, IssueFault, PlainFault, RecoverFault, ReissueFault, ResetFault, ResumeFault,
    StepFault, SubmitFault, TrimFault, WriteFault, ZeroFault,
};
use port_refusal::{Refusal, same_name};

impl From<IssueFault> for Refusal {
    ghost from_gives = { λ fault refusal. refusal ≡ of_issue fault };

    fn from(fault: IssueFault) -> Refusal {
        same_name!(
            fault,
            IssueFault: Halted, NoSuchTag, SlotOwned, BadHeader, BadCommand, WrongTag, BadList, OutOfMemory
        )
    }
}

impl From<SubmitFault> for Refusal {
    ghost from_gives = { λ fault refusal. refusal ≡ of_submit fault };

    fn from(fault: SubmitFault) -> Refusal {
        match fault {
            SubmitFault::BadCount => Refusal::BadCount,
            SubmitFault::BadLba => Refusal::BadLba,
            SubmitFault::Issue(fault) => Refusal::from(fault),
        }
    }
}

impl From<StepFault> for Refusal {
    ghost from_gives = { λ fault refusal. refusal ≡ of_step fault };

    fn from(fault: StepFault) -> Refusal {
        same_name!(fault, StepFault: Halted, NotIssued, NotAccepted, OutsideCommand, BadTags)
    }
}

impl From<CollectFault> for Refusal {
    ghost from_gives = { λ fault refusal. refusal ≡ of_collect fault };

    fn from(fault: CollectFault) -> Refusal {
        same_name!(fault, CollectFault: Stranger, NotYet)
    }
}

impl From<ResumeFault> for Refusal {
    ghost from_gives = { λ fault refusal. refusal ≡ of_resume fault };

    fn from(fault: ResumeFault) -> Refusal {
        same_name!(fault, ResumeFault: BadSize, BadDepth, BadFirst, OutOfMemory)
    }
}

impl From<TrimFault> for Refusal {
    ghost from_gives = { λ fault refusal. refusal ≡ of_trim fault };

    fn from(fault: TrimFault) -> Refusal {
        same_name!(fault, TrimFault: Busy, Spent)
    }
}

impl From<ResetFault> for Refusal {
    ghost from_gives = { λ fault refusal. refusal ≡ of_reset fault };

    fn from(fault: ResetFault) -> Refusal {
        same_name!(fault, ResetFault: Spent)
    }
}

impl From<RecoverFault> for Refusal {
    ghost from_gives = { λ fault refusal. refusal ≡ of_recover fault };

    fn from(fault: RecoverFault) -> Refusal {
        same_name!(fault, RecoverFault: NotHalted, OutOfMemory)
    }
}

impl From<ReissueFault> for Refusal {
    ghost from_gives = { λ fault refusal. refusal ≡ of_reissue fault };

    fn from(fault: ReissueFault) -> Refusal {
        same_name!(fault, ReissueFault: Halted, NotHeld)
    }
}

impl From<PlainFault> for Refusal {
    ghost from_gives = { λ fault refusal. refusal ≡ of_plain fault };

    fn from(fault: PlainFault) -> Refusal {
        same_name!(fault, PlainFault: Halted, QueueBusy, OutOfMemory)
    }
}

impl From<ZeroFault> for Refusal {
    ghost from_gives = { λ fault refusal. refusal ≡ of_zero fault };

    fn from(fault: ZeroFault) -> Refusal {
        same_name!(fault, ZeroFault: Halted, QueueBusy, SlotOwned, NoSuchSector, OutOfMemory)
    }
}

impl From<WriteFault> for Refusal {
    ghost from_gives = { λ fault refusal. refusal ≡ of_write fault };

    fn from(fault: WriteFault) -> Refusal {
        match fault {
            WriteFault::Register(fault) => Refusal::from(fault),
            WriteFault::Halted => Refusal::Halted,
            WriteFault::NotHalted => Refusal::NotHalted,
            WriteFault::NotQueued => Refusal::NotQueued,
            WriteFault::Issue { fault, .. } => Refusal::from(fault),
            WriteFault::OutOfMemory => Refusal::OutOfMemory,
        }
    }
}
