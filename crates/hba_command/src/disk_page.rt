ghost use Rattle.std.specs.Prelude.{◌≡◌};
ghost use Rattle.hba_command.specs.DiskPage.{needs_smart, page_addressing};

use crate::addressing::Addressing;

/// A page of 512 bytes that the disk has ready (ACS-3, by the titles of commands and logs).
#[derive(Clone, Copy, Debug, PartialEq, Eq)]
pub enum DiskPage {
    /// Log 00h by READ LOG EXT, "General Purpose Log directory".
    Directory,
    /// Log 03h by READ LOG EXT, "Extended Comprehensive SMART Error log".
    Errors,
    /// Log 07h by READ LOG EXT, "Extended SMART Self-Test log".
    Tests,
    /// Log 11h by READ LOG EXT, "SATA Phy Event Counters log", after which the counters are reset or not (Serial ATA, "Phy Event Counters").
    PhyEvents { resets: bool },
    /// SMART READ DATA.
    SmartData,
    /// SMART READ THRESHOLDS.
    SmartThresholds,
    /// Log 00h by SMART READ LOG, "SMART Log directory".
    SmartDirectory,
    /// Log 01h by SMART READ LOG, "Summary SMART Error log".
    SmartErrors,
    /// Log 06h by SMART READ LOG, "SMART Self-Test log".
    SmartTests,
    /// READ BUFFER, with DMA or without.
    Buffer,
}

/// Whether a page is of the SMART feature set, so that it is read only while SMART operations are enabled.
pub(crate) fn needs_smart(page: DiskPage) -> bool
    ensures { result ≡ needs_smart page }
{
    match page {
        DiskPage::Directory | DiskPage::PhyEvents { .. } | DiskPage::Buffer => false,
        DiskPage::Errors | DiskPage::Tests => true,
        DiskPage::SmartData | DiskPage::SmartThresholds => true,
        DiskPage::SmartDirectory | DiskPage::SmartErrors | DiskPage::SmartTests => true,
    }
}

/// How many bits the LBA of the command has that reads a page: READ LOG EXT and READ LOG DMA EXT have 48.
pub(crate) fn page_addressing(page: DiskPage) -> Addressing
    ensures { result ≡ page_addressing page }
{
    match page {
        DiskPage::Directory | DiskPage::Errors | DiskPage::Tests | DiskPage::PhyEvents { .. } =>
            Addressing::Bits48,
        DiskPage::SmartData | DiskPage::SmartThresholds | DiskPage::SmartDirectory =>
            Addressing::Bits28,
        DiskPage::SmartErrors | DiskPage::SmartTests | DiskPage::Buffer => Addressing::Bits28,
    }
}
