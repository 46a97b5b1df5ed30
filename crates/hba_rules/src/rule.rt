//! The rules, with their names, their sections and what it means to break them.

ghost use Rattle.std.specs.Prelude.{◌≡◌, ◌<◌};
ghost use Rattle.hba_rules.specs.Rules.{name_of, number_of, section_of, verdict_of};

use crate::verdict::Verdict;

/// A rule of AHCI 1.3.1 for the software that drives a controller. A rule is named for what breaks it.
#[derive(Clone, Copy, Debug, PartialEq, Eq)]
pub enum Rule {
    /// ST is set while FRE is 0 and stays 0 (section 10.3.1).
    StartWithoutReceiving,
    /// ST and FRE are set by one write (section 10.3.1).
    StartWithReceiving,
    /// ST is set while BSY or DRQ is 1 (section 10.3.1).
    StartWhileBusy,
    /// ST is set while PxSSTS.DET is not 3 (section 10.3.1).
    StartWithoutDevice,
    /// FRE is cleared while ST is 1 (section 10.3.2).
    ReceivingClearedWhileStarted,
    /// PxCLB or PxCLBU is changed while ST is 1 (section 10.3.1).
    ListMovedWhileStarted,
    /// PxFB or PxFBU is changed while FRE is 1 (section 3.3.7).
    AreaMovedWhileReceiving,
    /// CLO is set while ST is 1 (section 3.3.7).
    ClearBusyWhileStarted,
    /// PxSCTL.DET is changed while ST is 1 (section 3.3.11).
    LinkChangedWhileStarted,
    /// PxSCTL.DET is set to a reserved value (section 3.3.11).
    ReservedLinkState,
    /// A bit of PxSACT is set while ST is 0 (section 3.3.13).
    ActiveWhileStopped,
    /// A bit of PxCI is set while ST is 0 (section 3.3.14).
    CommandWhileStopped,
    /// A bit of PxCI is set after an error and before ST is cleared (section 6.2.2).
    CommandWhileHalted,
    /// Queued commands and others begin to be outstanding together (section 5.5.1).
    MixedCommands,
    /// IS is cleared while an enabled bit of PxIS is 1: it comes again (section 10.7.2).
    InterruptNotCleared,
    /// Reserved bits of a register are written 1 (section 3).
    ReservedBits,
    /// CFL is not the five dwords of a Register FIS - Host to Device, or the three of BIST Activate (section 4.2.2).
    FisLength,
    /// CFIS is no Register FIS - Host to Device, and no BIST Activate FIS with B (section 4.2.3).
    NoCommandFis,
    /// A is 1 for another command than PACKET (section 4.2.2).
    AtapiFlag,
    /// W is not the direction of the data (section 4.2.2).
    WriteFlag,
    /// PxSACT has the slot of a command that is not queued (section 3.3.13).
    ActiveWithoutQueue,
    /// PxSACT does not have the slot of a queued command (section 5.5.1).
    QueueWithoutActive,
    /// The tag of a queued command is not its slot (section 3.3.13).
    TagNotSlot,
    /// Reserved bits of a command header are not 0 (section 4.2.2).
    ReservedHeader,
    /// CTBA is not a multiple of 128 (section 4.2.2).
    TableUnaligned,
    /// DBA of a PRDT entry is odd (section 4.2.3).
    OddAddress,
    /// Bit 0 of DBC is 0: the length is odd (section 4.2.3).
    EvenCount,
    /// The PRDT has fewer bytes than the command moves (section 6.1.5).
    ListTooShort,
    /// The PRDT has more bytes than the command moves (section 6.1.6).
    ListTooLong,
    /// PxCLB is written an address that is not a multiple of 1,024 (section 3.3.1).
    ListUnaligned,
    /// PxFB is written an address that is not a multiple of 256 (section 3.3.3).
    AreaUnaligned,
    /// A slot is used while PxCI or PxSACT still has it (section 5.5.1).
    SlotUsedAgain,
    /// A bit of PxSACT is set after its bit of PxCI, not before (section 3.3.13).
    ActiveAfterIssue,
    /// ST is set while TFES, HBFS, HBDS or IFS of PxIS is 1 (section 6.2.2).
    StartWithErrors,
    /// ST is set while PxSERR is not 0 (section 10.1.2).
    StartWithSerr,
    /// PxIE or GHC.IE enables what PxIS or IS already has (section 10.1.2).
    EnableOverStatus,
    /// PxSCTL.SPD is above CAP.ISS, or reserved (section 3.3.11).
    SpeedAboveInterface,
    /// ICC, ALPE or ASP is set without the capability (section 3.1.1).
    PowerWithoutCapability,
    /// A bit of PxSACT is set while CAP.SNCQ is 0 (section 3.1.1).
    QueueWithoutCapability,
    /// P is 1 for a queued command (section 4.2.2).
    PrefetchWithQueue,
    /// PMP of a header or PM Port of a FIS is not 0, without port multipliers (section 4.2.2).
    PortOfMultiplier,
    /// B is 1 for a FIS that is no BIST Activate FIS (section 4.2.2).
    BistFlag,
    /// R and C are not 1 for the FIS that sets SRST, or are 1 for another (section 10.4.1).
    ResetFlags,
    /// Reserved bits of a Register FIS - Host to Device are not 0 (section 4.2.3).
    ReservedFis,
    /// Reserved bits of a PRDT entry are not 0 (section 4.2.3).
    ReservedEntry,
    /// A bit of PxSACT or PxCI is set for a slot at or above CAP.NCS (section 3.1.1).
    SlotAboveList,
}

impl Rule {
    /// How many rules there are. They are numbered from 0.
    pub const COUNT: u32 = 46;

    /// The rule's number, below `COUNT`.
    pub fn number(self) -> u32
        ensures value { result ≡ number_of self }
        ensures small { result < 46 }
    {
        match self {
            Rule::StartWithoutReceiving => 0,
            Rule::StartWithReceiving => 1,
            Rule::StartWhileBusy => 2,
            Rule::StartWithoutDevice => 3,
            Rule::ReceivingClearedWhileStarted => 4,
            Rule::ListMovedWhileStarted => 5,
            Rule::AreaMovedWhileReceiving => 6,
            Rule::ClearBusyWhileStarted => 7,
            Rule::LinkChangedWhileStarted => 8,
            Rule::ReservedLinkState => 9,
            Rule::ActiveWhileStopped => 10,
            Rule::CommandWhileStopped => 11,
            Rule::CommandWhileHalted => 12,
            Rule::MixedCommands => 13,
            Rule::InterruptNotCleared => 14,
            Rule::ReservedBits => 15,
            Rule::FisLength => 16,
            Rule::NoCommandFis => 17,
            Rule::AtapiFlag => 18,
            Rule::WriteFlag => 19,
            Rule::ActiveWithoutQueue => 20,
            Rule::QueueWithoutActive => 21,
            Rule::TagNotSlot => 22,
            Rule::ReservedHeader => 23,
            Rule::TableUnaligned => 24,
            Rule::OddAddress => 25,
            Rule::EvenCount => 26,
            Rule::ListTooShort => 27,
            Rule::ListTooLong => 28,
            Rule::ListUnaligned => 29,
            Rule::AreaUnaligned => 30,
            Rule::SlotUsedAgain => 31,
            Rule::ActiveAfterIssue => 32,
            Rule::StartWithErrors => 33,
            Rule::StartWithSerr => 34,
            Rule::EnableOverStatus => 35,
            Rule::SpeedAboveInterface => 36,
            Rule::PowerWithoutCapability => 37,
            Rule::QueueWithoutCapability => 38,
            Rule::PrefetchWithQueue => 39,
            Rule::PortOfMultiplier => 40,
            Rule::BistFlag => 41,
            Rule::ResetFlags => 42,
            Rule::ReservedFis => 43,
            Rule::ReservedEntry => 44,
            Rule::SlotAboveList => 45,
        }
    }

    /// Its name.
    pub fn name(self) -> &'static str
        ensures { result.now ≡ name_of self }
    {
        match self {
            Rule::StartWithoutReceiving => "StartWithoutReceiving",
            Rule::StartWithReceiving => "StartWithReceiving",
            Rule::StartWhileBusy => "StartWhileBusy",
            Rule::StartWithoutDevice => "StartWithoutDevice",
            Rule::ReceivingClearedWhileStarted => "ReceivingClearedWhileStarted",
            Rule::ListMovedWhileStarted => "ListMovedWhileStarted",
            Rule::AreaMovedWhileReceiving => "AreaMovedWhileReceiving",
            Rule::ClearBusyWhileStarted => "ClearBusyWhileStarted",
            Rule::LinkChangedWhileStarted => "LinkChangedWhileStarted",
            Rule::ReservedLinkState => "ReservedLinkState",
            Rule::ActiveWhileStopped => "ActiveWhileStopped",
            Rule::CommandWhileStopped => "CommandWhileStopped",
            Rule::CommandWhileHalted => "CommandWhileHalted",
            Rule::MixedCommands => "MixedCommands",
            Rule::InterruptNotCleared => "InterruptNotCleared",
            Rule::ReservedBits => "ReservedBits",
            Rule::FisLength => "FisLength",
            Rule::NoCommandFis => "NoCommandFis",
            Rule::AtapiFlag => "AtapiFlag",
            Rule::WriteFlag => "WriteFlag",
            Rule::ActiveWithoutQueue => "ActiveWithoutQueue",
            Rule::QueueWithoutActive => "QueueWithoutActive",
            Rule::TagNotSlot => "TagNotSlot",
            Rule::ReservedHeader => "ReservedHeader",
            Rule::TableUnaligned => "TableUnaligned",
            Rule::OddAddress => "OddAddress",
            Rule::EvenCount => "EvenCount",
            Rule::ListTooShort => "ListTooShort",
            Rule::ListTooLong => "ListTooLong",
            Rule::ListUnaligned => "ListUnaligned",
            Rule::AreaUnaligned => "AreaUnaligned",
            Rule::SlotUsedAgain => "SlotUsedAgain",
            Rule::ActiveAfterIssue => "ActiveAfterIssue",
            Rule::StartWithErrors => "StartWithErrors",
            Rule::StartWithSerr => "StartWithSerr",
            Rule::EnableOverStatus => "EnableOverStatus",
            Rule::SpeedAboveInterface => "SpeedAboveInterface",
            Rule::PowerWithoutCapability => "PowerWithoutCapability",
            Rule::QueueWithoutCapability => "QueueWithoutCapability",
            Rule::PrefetchWithQueue => "PrefetchWithQueue",
            Rule::PortOfMultiplier => "PortOfMultiplier",
            Rule::BistFlag => "BistFlag",
            Rule::ResetFlags => "ResetFlags",
            Rule::ReservedFis => "ReservedFis",
            Rule::ReservedEntry => "ReservedEntry",
            Rule::SlotAboveList => "SlotAboveList",
        }
    }

    /// The section of AHCI 1.3.1 that has it.
    pub fn section(self) -> &'static str
        ensures { result.now ≡ section_of self }
    {
        match self {
            Rule::StartWithoutReceiving
            | Rule::StartWithReceiving
            | Rule::StartWhileBusy
            | Rule::StartWithoutDevice
            | Rule::ListMovedWhileStarted => "10.3.1",
            Rule::ReceivingClearedWhileStarted => "10.3.2",
            Rule::ClearBusyWhileStarted | Rule::AreaMovedWhileReceiving => "3.3.7",
            Rule::LinkChangedWhileStarted | Rule::ReservedLinkState | Rule::SpeedAboveInterface =>
                "3.3.11",
            Rule::ActiveWhileStopped
            | Rule::ActiveWithoutQueue
            | Rule::TagNotSlot
            | Rule::ActiveAfterIssue => "3.3.13",
            Rule::CommandWhileStopped => "3.3.14",
            Rule::CommandWhileHalted | Rule::StartWithErrors => "6.2.2",
            Rule::MixedCommands | Rule::QueueWithoutActive | Rule::SlotUsedAgain => "5.5.1",
            Rule::InterruptNotCleared => "10.7.2",
            Rule::ReservedBits => "3",
            Rule::FisLength
            | Rule::AtapiFlag
            | Rule::WriteFlag
            | Rule::ReservedHeader
            | Rule::TableUnaligned
            | Rule::PrefetchWithQueue
            | Rule::PortOfMultiplier
            | Rule::BistFlag => "4.2.2",
            Rule::NoCommandFis
            | Rule::OddAddress
            | Rule::EvenCount
            | Rule::ReservedFis
            | Rule::ReservedEntry => "4.2.3",
            Rule::ListTooShort => "6.1.5",
            Rule::ListTooLong => "6.1.6",
            Rule::ListUnaligned => "3.3.1",
            Rule::AreaUnaligned => "3.3.3",
            Rule::StartWithSerr | Rule::EnableOverStatus => "10.1.2",
            Rule::ResetFlags => "10.4.1",
            Rule::PowerWithoutCapability | Rule::QueueWithoutCapability | Rule::SlotAboveList =>
                "3.1.1",
        }
    }

    /// What it means to break it.
    pub fn verdict(self) -> Verdict
        ensures { result ≡ verdict_of self }
    {
        match self {
            Rule::StartWithReceiving => Verdict::Open,
            Rule::ActiveWhileStopped
            | Rule::CommandWhileHalted
            | Rule::InterruptNotCleared
            | Rule::ListTooLong
            | Rule::SpeedAboveInterface
            | Rule::QueueWithoutCapability => Verdict::Odd,
            _ => Verdict::Broken,
        }
    }
}
