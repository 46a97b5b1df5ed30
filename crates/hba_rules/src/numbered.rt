//! The rules by their numbers.

ghost use Rattle.std.specs.Prelude.{◌≡◌, MatchOption};
ghost use Rattle.hba_rules.specs.Rules.{IsNoRule, number_of};

use crate::rule::Rule;

impl Rule {
    /// The rule of a number.
    pub fn of(number: u32) -> Option<Rule>
        ensures { MatchOption result (IsNoRule number) (λ rule. number_of rule ≡ number) }
    {
        Some(match number {
            0 => Rule::StartWithoutReceiving,
            1 => Rule::StartWithReceiving,
            2 => Rule::StartWhileBusy,
            3 => Rule::StartWithoutDevice,
            4 => Rule::ReceivingClearedWhileStarted,
            5 => Rule::ListMovedWhileStarted,
            6 => Rule::AreaMovedWhileReceiving,
            7 => Rule::ClearBusyWhileStarted,
            8 => Rule::LinkChangedWhileStarted,
            9 => Rule::ReservedLinkState,
            10 => Rule::ActiveWhileStopped,
            11 => Rule::CommandWhileStopped,
            12 => Rule::CommandWhileHalted,
            13 => Rule::MixedCommands,
            14 => Rule::InterruptNotCleared,
            15 => Rule::ReservedBits,
            16 => Rule::FisLength,
            17 => Rule::NoCommandFis,
            18 => Rule::AtapiFlag,
            19 => Rule::WriteFlag,
            20 => Rule::ActiveWithoutQueue,
            21 => Rule::QueueWithoutActive,
            22 => Rule::TagNotSlot,
            23 => Rule::ReservedHeader,
            24 => Rule::TableUnaligned,
            25 => Rule::OddAddress,
            26 => Rule::EvenCount,
            27 => Rule::ListTooShort,
            28 => Rule::ListTooLong,
            29 => Rule::ListUnaligned,
            30 => Rule::AreaUnaligned,
            31 => Rule::SlotUsedAgain,
            32 => Rule::ActiveAfterIssue,
            33 => Rule::StartWithErrors,
            34 => Rule::StartWithSerr,
            35 => Rule::EnableOverStatus,
            36 => Rule::SpeedAboveInterface,
            37 => Rule::PowerWithoutCapability,
            38 => Rule::QueueWithoutCapability,
            39 => Rule::PrefetchWithQueue,
            40 => Rule::PortOfMultiplier,
            41 => Rule::BistFlag,
            42 => Rule::ResetFlags,
            43 => Rule::ReservedFis,
            44 => Rule::ReservedEntry,
            45 => Rule::SlotAboveList,
            _ => return None,
        })
    }
}
