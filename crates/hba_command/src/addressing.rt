ghost use Rattle.std.specs.Prelude.{◌≡◌, ◌<◌, ◌≤◌, ◌^◌};
ghost use Rattle.hba_command.specs.Addressing.{addressed, addressing_of, log_addressing, reached, reply_addressing};

use crate::action::Action;
use crate::disk_page::page_addressing;
use crate::log::Log;
use crate::page::Page;
use crate::reply::Reply;
use crate::store::store_addressing;
use sata_fis::D2h;

/// How many bits the LBA of a command has (ACS-3, "28-bit and 48-bit commands"), by which its answer names an LBA too.
#[derive(Clone, Copy, Debug, PartialEq, Eq)]
pub enum Addressing {
    /// LBA 27:24 are device 3:0, in the command FIS and in its answer.
    Bits28,
    /// LBA 47:0 are the six bytes of the FIS.
    Bits48,
}

/// How many sectors of a disk with so many the commands reach: those of 28 bits no more than IDENTIFY DEVICE says (ACS-3, "IDENTIFY DEVICE", words 60 and 61).
pub fn reached(addressing: Addressing, sectors: u64) -> u64
    ensures value { result ≡ reached addressing sectors }
    ensures most { result ≤ sectors }
{
    match addressing {
        Addressing::Bits28 => sectors.min(0x0FFF_FFFF),
        Addressing::Bits48 => sectors,
    }
}

/// The FIS with an LBA, as the answer to a command of these bits names it.
pub fn addressed(addressing: Addressing, fis: D2h, lba: u64) -> D2h
    requires { lba < 2 ^ 48 }
    ensures { result ≡ addressed addressing fis lba }
{
    match addressing {
        Addressing::Bits28 => D2h {
            lba: lba % (1 << 24),
            device: (lba / (1 << 24) % 16) as u8,
            ..fis
        },
        Addressing::Bits48 => D2h { lba, ..fis },
    }
}

/// How many bits a reply's LBA has.
fn reply_addressing(reply: &Reply) -> Addressing
    ensures { result ≡ reply_addressing reply.now }
{
    match reply {
        Reply::Verified(span) | Reply::Marked(span) => span.addressing,
        Reply::NativeMax(addressing) => *addressing,
        Reply::Done | Reply::PowerMode | Reply::Entered(_) => Addressing::Bits28,
        Reply::Diagnosed | Reply::Packet | Reply::Changed(_) | Reply::SmartStatus =>
            Addressing::Bits28,
    }
}

/// How many bits the LBA of the command has that reads a log.
fn log_addressing(log: &Log) -> Addressing
    ensures { result ≡ log_addressing log.now }
{
    match log {
        Log::QueuedError | Log::Pages(_, _) => Addressing::Bits48,
        Log::Host(pages) => pages.addressing,
    }
}

/// How many bits the LBA of a command has.
pub fn addressing_of(action: &Action) -> Addressing
    ensures { result ≡ addressing_of action.now }
{
    match action {
        Action::Queue(_) => Addressing::Bits48,
        Action::Sectors { span, .. } => span.addressing,
        Action::Page(Page::Identify, _) => Addressing::Bits28,
        Action::Page(Page::Log(log), _) => log_addressing(log),
        Action::Page(Page::Disk(page), _) => page_addressing(*page),
        Action::Store(store, _) => store_addressing(store),
        Action::Flush(addressing) => *addressing,
        Action::Reply(reply) => reply_addressing(reply),
        Action::Control { .. } | Action::Abort => Addressing::Bits28,
    }
}
