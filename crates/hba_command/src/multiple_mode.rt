//! How many sectors a DRQ data block has (ACS-3, "SET MULTIPLE MODE").

ghost use Rattle.std.specs.Prelude.{◌≡◌, ◌≤◌};
ghost use Rattle.hba_command.specs.MultipleMode.{block_sectors, lacks_blocks, multiple_sectors};

use crate::protocol::Protocol;

/// What SET MULTIPLE MODE has set for READ and WRITE MULTIPLE: how many sectors a block of theirs has, or that they are aborted.
#[derive(Clone, Copy, Debug, PartialEq, Eq)]
pub enum MultipleMode {
    /// The commands are aborted.
    Disabled,
    One,
    Two,
    Four,
    Eight,
    /// The most, as IDENTIFY DEVICE reports it: a Data FIS has no room for more.
    Sixteen,
}

/// How many sectors a block of READ and WRITE MULTIPLE has; 0 if they are disabled.
pub(crate) fn multiple_sectors(mode: MultipleMode) -> u16
    ensures value { result ≡ multiple_sectors mode }
    ensures most { result ≤ 16 }
{
    match mode {
        MultipleMode::Disabled => 0,
        MultipleMode::One => 1,
        MultipleMode::Two => 2,
        MultipleMode::Four => 4,
        MultipleMode::Eight => 8,
        MultipleMode::Sixteen => 16,
    }
}

/// Whether a command that moves its data so is aborted in this mode, since it has no block size.
pub fn lacks_blocks(mode: MultipleMode, protocol: Protocol) -> bool
    ensures { result ≡ lacks_blocks mode protocol }
{
    match protocol {
        Protocol::Multiple => multiple_sectors(mode) == 0,
        Protocol::Pio | Protocol::Dma => false,
    }
}

/// How many sectors a block has of a command that moves its data so, in this mode. At least one.
pub fn block_sectors(mode: MultipleMode, protocol: Protocol) -> u32
    ensures value { result ≡ block_sectors mode protocol }
    ensures some { 1 ≤ result }
    ensures most { result ≤ 16 }
{
    match protocol {
        Protocol::Multiple => u32::from(multiple_sectors(mode)).max(1),
        Protocol::Pio | Protocol::Dma => 1,
    }
}
