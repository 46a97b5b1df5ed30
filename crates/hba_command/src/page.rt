ghost use Rattle.std.specs.Prelude.{◌≡◌, ◌≤◌};
ghost use Rattle.hba_command.specs.Action.{pages_in_log, pages_of};

use crate::disk_page::DiskPage;
use crate::log::Log;

/// Pages of 512 bytes that the disk answers with (ACS-3, by the commands' titles).
#[derive(Clone, Copy, Debug, PartialEq, Eq)]
pub enum Page {
    /// IDENTIFY DEVICE.
    Identify,
    /// READ LOG EXT, READ LOG DMA EXT and SMART READ LOG, of pages that there are.
    Log(Log),
    /// A page that the disk has ready.
    Disk(DiskPage),
}

/// How many pages are read of a log.
pub fn pages_in_log(log: &Log) -> u32
    ensures value { result ≡ pages_in_log log.now }
    ensures most { result ≤ 16 }
{
    match log {
        Log::QueuedError => 1,
        Log::Pages(_, pages) => pages.count,
        Log::Host(pages) => pages.count,
    }
}

/// How many pages of 512 bytes they are.
pub fn pages_of(page: &Page) -> u32
    ensures value { result ≡ pages_of page.now }
    ensures most { result ≤ 16 }
{
    match page {
        Page::Identify | Page::Disk(_) => 1,
        Page::Log(log) => pages_in_log(log),
    }
}
