use crate::addressing::Addressing;
use crate::change::Change;
use crate::power::Power;
use crate::span::Span;

/// What a D2H Register FIS alone answers, of a command that moves nothing (ACS-3, by the commands' titles).
#[derive(Clone, Copy, Debug, PartialEq, Eq)]
pub enum Reply {
    /// The command is done.
    Done,
    /// The sectors are on the disk, or not.
    Verified(Span),
    /// The sectors are marked uncorrectable; they are not on the disk, or there is no room for their marks.
    Marked(Span),
    /// The LBA of the last sector.
    NativeMax(Addressing),
    /// The count that names the power mode.
    PowerMode,
    /// The command is done, and the device is in this power mode.
    Entered(Power),
    /// The change is made, or the command is aborted if it isn't possible.
    Changed(Change),
    /// No attribute of SMART has exceeded its threshold; aborted while SMART operations are disabled.
    SmartStatus,
    /// The signature of a disk: the device has passed its diagnostic.
    Diagnosed,
    /// The command is aborted with the signature of a disk.
    Packet,
}
