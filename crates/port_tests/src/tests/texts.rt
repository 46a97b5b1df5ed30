//! The texts that faults show as errors.
use ahci_port::{
    BuildFault, CollectFault, DiskFault, IssueFault, PlainFault, RecoverFault, Refusal, RegFault,
    ReissueFault, ResetFault, ResumeFault, StepFault, SubmitFault, TrimFault, WriteFault,
    ZeroFault,
};
use ahci_table::TableFault;
use std::alloc::Global;
use std::fmt::{Debug, Display};
use std::process::Abort;
use std::test::Fail;

/// The text of each refusal.
static REFUSALS: [(Refusal, &str); 31] = [
    (
        Refusal::BadSize,
        "the image is not 1 to 131,072 whole sectors of 512 bytes",
    ),
    (Refusal::BadDepth, "the depth is not 1 to 32"),
    (
        Refusal::BadFirst,
        "the number of the first entry is over 2^63",
    ),
    (Refusal::BadCount, "not 1 to 65,536 whole sectors"),
    (Refusal::BadLba, "the LBA does not fit 48 bits"),
    (Refusal::NoSuchTag, "the tag is not below the depth"),
    (Refusal::SlotOwned, "the slot has a request"),
    (
        Refusal::BadHeader,
        "the port does not take such a command header",
    ),
    (
        Refusal::BadCommand,
        "CFIS is no READ or WRITE FPDMA QUEUED in the direction of its header",
    ),
    (
        Refusal::WrongTag,
        "the command's tag is not that of its slot",
    ),
    (Refusal::BadList, "the port does not take such a PRDT"),
    (
        Refusal::Halted,
        "a command has failed, and the port has not recovered",
    ),
    (
        Refusal::NotIssued,
        "the tag's command does not wait for the device",
    ),
    (
        Refusal::NotAccepted,
        "the device has not accepted the tag's command",
    ),
    (Refusal::BadTags, "the list has no tag, or one tag twice"),
    (
        Refusal::OutsideCommand,
        "the sector is not one of the command's",
    ),
    (Refusal::NotHalted, "no command has failed"),
    (Refusal::NotHeld, "the tag's command is not held"),
    (
        Refusal::QueueBusy,
        "a queued command waits for the device or is outstanding in it",
    ),
    (
        Refusal::Stranger,
        "the slot is free, or its request has another number",
    ),
    (Refusal::NotYet, "the request has no answer yet"),
    (Refusal::Unaligned, "the offset is not a multiple of 4"),
    (Refusal::NoSuchRegister, "no register has this offset"),
    (Refusal::NotStarted, "PxCMD.ST is 0"),
    (
        Refusal::NotReceiving,
        "PxCMD.ST would be set without PxCMD.FRE",
    ),
    (
        Refusal::Running,
        "PxCMD.FRE, PxCLB or PxFB would change while PxCMD.ST is 1",
    ),
    (
        Refusal::NotQueued,
        "a bit of PxCI is set whose bit of PxSACT was not set before",
    ),
    (Refusal::NoSuchSector, "the LBA is past the last sector"),
    (Refusal::Busy, "some slot is not free"),
    (Refusal::Spent, "the number of the next entry is over 2^63"),
    (Refusal::OutOfMemory, "out of memory"),
];

/// The text of each reason for which no window is built.
static BUILD_FAULTS: [(BuildFault, &str); 9] = [
    (BuildFault::BadCount, "not 1 to 65,536 whole sectors"),
    (BuildFault::BadLba, "the LBA does not fit 48 bits"),
    (BuildFault::NoPieces, "there are no pieces"),
    (BuildFault::TooManyPieces, "there are over 32 pieces"),
    (
        BuildFault::OddPiece,
        "a piece has an odd place, an odd length, no bytes or over 4,194,304",
    ),
    (
        BuildFault::PieceOutside,
        "a piece begins before the end of the command table, or ends past 67,108,864",
    ),
    (BuildFault::PiecesOverlap, "two pieces share a byte"),
    (
        BuildFault::WrongTotal,
        "the pieces' lengths do not add up to the command's bytes",
    ),
    (BuildFault::OutOfMemory, "out of memory"),
];

/// Compares the text of each fault with its row's.
fn texts_are<F>(rt: &impl Abort, alloc: Global, rows: &[(F, &str)]) -> Result<(), Fail>
where
    F: Copy + Debug + Display,
{
    for (fault, wanted) in rows {
        let text = format!(in alloc; "{fault}")?;
        assert_eq!(rt; text.as_str(), *wanted, "of {fault:?}");
    }
    Ok(())
}

/// Compares the text of each fault with that of the refusal that it is.
fn refuses<F>(rt: &impl Abort, alloc: Global, faults: &[F]) -> Result<(), Fail>
where
    F: Copy + Debug + Display,
    Refusal: From<F>,
{
    for fault in faults {
        let text = format!(in alloc; "{fault}")?;
        let wanted = format!(in alloc; "{}", Refusal::from(*fault))?;
        assert_eq!(rt; text.as_str(), wanted.as_str(), "of {fault:?}");
    }
    Ok(())
}

#[test]
fn a_refusal_and_a_window_s_fault_show_their_texts(rt: HostRuntime) -> Result<(), Fail> {
    texts_are(&rt, rt.alloc(), &REFUSALS)?;
    texts_are(&rt, rt.alloc(), &BUILD_FAULTS)
}

#[test]
fn a_fault_of_a_command_s_way_shows_its_refusal(rt: HostRuntime) -> Result<(), Fail> {
    let alloc = rt.alloc();
    let issues = [
        IssueFault::Halted,
        IssueFault::NoSuchTag,
        IssueFault::SlotOwned,
        IssueFault::BadHeader,
        IssueFault::BadCommand,
        IssueFault::WrongTag,
        IssueFault::BadList,
        IssueFault::OutOfMemory,
    ];
    refuses(&rt, alloc, &issues)?;
    let submits = [
        SubmitFault::BadCount,
        SubmitFault::BadLba,
        SubmitFault::Issue(IssueFault::Halted),
        SubmitFault::Issue(IssueFault::SlotOwned),
    ];
    refuses(&rt, alloc, &submits)?;
    let steps = [
        StepFault::Halted,
        StepFault::NotIssued,
        StepFault::NotAccepted,
        StepFault::OutsideCommand,
        StepFault::BadTags,
    ];
    refuses(&rt, alloc, &steps)?;
    refuses(&rt, alloc, &[CollectFault::Stranger, CollectFault::NotYet])?;
    refuses(&rt, alloc, &[ReissueFault::Halted, ReissueFault::NotHeld])?;
    let plains = [
        PlainFault::Halted,
        PlainFault::QueueBusy,
        PlainFault::OutOfMemory,
    ];
    refuses(&rt, alloc, &plains)?;
    let zeros = [
        ZeroFault::Halted,
        ZeroFault::QueueBusy,
        ZeroFault::SlotOwned,
        ZeroFault::NoSuchSector,
        ZeroFault::OutOfMemory,
    ];
    refuses(&rt, alloc, &zeros)
}

#[test]
fn a_fault_of_a_window_a_disk_or_a_register_shows_its_refusal(rt: HostRuntime) -> Result<(), Fail> {
    let alloc = rt.alloc();
    let tables = [
        TableFault::BadHeader,
        TableFault::BadCommand,
        TableFault::WrongTag,
        TableFault::BadList,
    ];
    refuses(&rt, alloc, &tables)?;
    let disks = [
        DiskFault::BadSize,
        DiskFault::BadDepth,
        DiskFault::OutOfMemory,
    ];
    refuses(&rt, alloc, &disks)?;
    let registers = [
        RegFault::Unaligned,
        RegFault::NoSuchRegister,
        RegFault::NotStarted,
        RegFault::NotReceiving,
        RegFault::Running,
    ];
    refuses(&rt, alloc, &registers)
}

#[test]
fn a_fault_of_the_port_s_own_life_shows_its_refusal(rt: HostRuntime) -> Result<(), Fail> {
    let alloc = rt.alloc();
    let resumes = [
        ResumeFault::BadSize,
        ResumeFault::BadDepth,
        ResumeFault::BadFirst,
        ResumeFault::OutOfMemory,
    ];
    refuses(&rt, alloc, &resumes)?;
    refuses(&rt, alloc, &[TrimFault::Busy, TrimFault::Spent])?;
    refuses(&rt, alloc, &[ResetFault::Spent])?;
    refuses(
        &rt,
        alloc,
        &[RecoverFault::NotHalted, RecoverFault::OutOfMemory],
    )?;
    let writes = [
        WriteFault::Register(RegFault::Unaligned),
        WriteFault::Register(RegFault::Running),
        WriteFault::Halted,
        WriteFault::NotHalted,
        WriteFault::NotQueued,
        WriteFault::Issue {
            slot: 3,
            fault: IssueFault::BadList,
        },
        WriteFault::OutOfMemory,
    ];
    refuses(&rt, alloc, &writes)
}
