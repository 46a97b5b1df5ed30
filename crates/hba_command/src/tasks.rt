//! The commands by their codes (ACS-3).

ghost use Rattle.std.specs.Prelude.{◌≡◌, ◌%◌, ◌<◌, ◌^◌, true};
ghost use Rattle.hba_command.specs.Task.{features_task, first_page, host_pages_asked, is_host_log, is_in_log, log_of, log_task, long_span, mark_task, marks_sectors, mode_task, multiple_task, names_host_pages};
ghost use Rattle.hba_command.specs.Task.{offline_task, pages_in, settings_task, short_span, smart_page_task, smart_pages, smart_read_task, smart_task, smart_write_task, task_by, task_of, transfer_task, write_log_task};

use crate::addressing::Addressing;
use crate::change::Change;
use crate::disk_page::DiskPage;
use crate::host_pages::HostPages;
use crate::log::{Log, LongLog};
use crate::log_pages::LogPages;
use crate::multiple_mode::MultipleMode;
use crate::protocol::Protocol;
use crate::span::Span;
use crate::store::Store;
use crate::task::Task;
use sata_fis::{H2d, is_set, queued};

/// The sectors that a command of 28 bits names: LBA 27:24 are in the device field, and a count of 0 means 256.
fn short_span(h2d: &H2d) -> Span
    ensures { result ≡ short_span h2d.now }
{
    let low = h2d.lba % (1 << 24);
    let high = u64::from(h2d.device % 16);
    let sectors = u32::from(h2d.count % 256);
    Span {
        lba: low + (high << 24),
        sectors: if sectors == 0 { 256 } else { sectors },
        addressing: Addressing::Bits28,
    }
}

/// The sectors that a command of 48 bits names: a count of 0 means 65,536.
fn long_span(h2d: &H2d) -> Span
    ensures { result ≡ long_span h2d.now }
{
    let sectors = u32::from(h2d.count);
    Span {
        lba: h2d.lba,
        sectors: if sectors == 0 { 65_536 } else { sectors },
        addressing: Addressing::Bits48,
    }
}

/// Whether a log is one of the host's.
fn is_host_log(log: u8) -> bool
    ensures { result ≡ is_host_log log }
{
    matches!(log, 0x80..=0x9F)
}

/// How many pages a log has; 0 of one that there is not.
fn pages_in(log: u8) -> u32
    ensures { result ≡ pages_in log }
{
    match log {
        0x00 | 0x03 | 0x07 | 0x10 | 0x11 => 1,
        0x04 => 2,
        0x30 => 7,
        0x80..=0x9F => 16,
        _ => 0,
    }
}

/// The first page that READ LOG EXT and READ LOG DMA EXT ask for: LBA 15:8 and 39:32.
fn first_page(h2d: &H2d) -> u32
    ensures { result ≡ first_page h2d.now }
{
    (h2d.lba / 256 % 256 + 256 * ((h2d.lba >> 32) % 256)) as u32
}

/// The log, LBA 7:0.
fn log_of(h2d: &H2d) -> u8
    ensures { result ≡ log_of h2d.now }
{
    (h2d.lba % 256) as u8
}

/// Whether the log has each page that is asked for, at least one.
fn is_in_log(h2d: &H2d) -> bool
    ensures { result ≡ is_in_log h2d.now }
{
    h2d.count != 0 && first_page(h2d) + u32::from(h2d.count) <= pages_in(log_of(h2d))
}

/// The pages of a log of the host's that are asked for.
fn host_pages_asked(h2d: &H2d) -> HostPages
    requires host { is_host_log (log_of h2d.now) ≡ true }
    requires there { is_in_log h2d.now ≡ true }
    ensures { result ≡ host_pages_asked h2d.now }
{
    HostPages {
        log: log_of(h2d),
        first: first_page(h2d),
        count: u32::from(h2d.count),
        addressing: Addressing::Bits48,
    }
}

/// READ LOG EXT and READ LOG DMA EXT: the log is named by LBA 7:0, and it has each page that is asked for, at least one.
fn log_task(h2d: &H2d, protocol: Protocol) -> Task
    ensures { result ≡ log_task h2d.now protocol }
{
    if !is_in_log(h2d) {
        return Task::Unknown;
    }
    let first = first_page(h2d);
    let count = u32::from(h2d.count);
    match log_of(h2d) {
        0x00 => Task::ReadPage(DiskPage::Directory, protocol),
        0x03 => Task::ReadPage(DiskPage::Errors, protocol),
        0x04 => Task::ReadLog(
            Log::Pages(LongLog::Statistics, LogPages { first, count }),
            protocol,
        ),
        0x07 => Task::ReadPage(DiskPage::Tests, protocol),
        0x10 => Task::ReadLog(Log::QueuedError, protocol),
        0x11 => Task::ReadPage(
            DiskPage::PhyEvents {
                resets: h2d.features % 2 == 1,
            },
            protocol,
        ),
        0x30 => {
            Task::ReadLog(
                Log::Pages(LongLog::IdentifyData, LogPages { first, count }),
                protocol,
            )
        }
        0x80..=0x9F => Task::ReadLog(Log::Host(host_pages_asked(h2d)), protocol),
        _ => Task::Unknown,
    }
}

/// WRITE LOG EXT and WRITE LOG DMA EXT: of a log of the host's, since each other one is read-only.
fn write_log_task(h2d: &H2d, protocol: Protocol) -> Task
    ensures { result ≡ write_log_task h2d.now protocol }
{
    if is_host_log(log_of(h2d)) && is_in_log(h2d) {
        Task::Store(Store::Log(host_pages_asked(h2d)), protocol)
    } else {
        Task::Unknown
    }
}

/// SET FEATURES 03h (ACS-3, "Set transfer mode"), by its count: the default PIO mode, PIO modes 0 to 4, multiword DMA modes 0 to 2, Ultra DMA
/// modes 0 to 5.
fn transfer_task(mode: u8) -> Task
    ensures { result ≡ transfer_task mode }
{
    match mode {
        0x00 | 0x01 | 0x08..=0x0C => Task::Nothing,
        0x20..=0x22 | 0x40..=0x45 => Task::Change(Change::DmaMode(mode)),
        _ => Task::Unknown,
    }
}

/// SET FEATURES, by its subcommand.
fn features_task(subcommand: u16, count: u16) -> Task
    ensures { result ≡ features_task subcommand count }
{
    match subcommand {
        0x02 => Task::Change(Change::WriteCache(true)),
        0x03 => transfer_task((count % 256) as u8),
        0x05 if count % 256 != 0 && count % 256 != 0xFF => {
            Task::Change(Change::PowerLevel((count % 256) as u8))
        }
        0x55 => Task::Change(Change::LookAhead(false)),
        0x66 => Task::Change(Change::Reverting(false)),
        0x82 => Task::Change(Change::WriteCache(false)),
        0x85 => Task::Change(Change::PowerLevel(0)),
        0xAA => Task::Change(Change::LookAhead(true)),
        0xCC => Task::Change(Change::Reverting(true)),
        _ => Task::Unknown,
    }
}

/// SMART EXECUTE OFF-LINE IMMEDIATE, by its subcommand.
fn offline_task(subcommand: u8) -> Task
    ensures { result ≡ offline_task subcommand }
{
    match subcommand {
        0x00 | 0x7F => Task::Change(Change::NothingSmart), // the off-line routine; abort of a self-test
        0x01 | 0x02 | 0x81 | 0x82 => Task::Change(Change::Test(subcommand)), // short and extended, off-line and captive
        _ => Task::Unknown,
    }
}

/// Whether SMART READ LOG or SMART WRITE LOG names pages of a log of the host's, from the first one on.
fn names_host_pages(log: u8, count: u8) -> bool
    ensures { result ≡ names_host_pages log count }
{
    is_host_log(log) && 1 <= count && count <= 16
}

/// These pages.
fn smart_pages(log: u8, count: u8) -> HostPages
    requires { names_host_pages log count ≡ true }
    ensures { result ≡ smart_pages log count }
{
    HostPages {
        log,
        first: 0,
        count: u32::from(count),
        addressing: Addressing::Bits28,
    }
}

/// SMART READ LOG of a log that has one page.
fn smart_page_task(log: u8) -> Task
    ensures { result ≡ smart_page_task log }
{
    match log {
        0x00 => Task::ReadPage(DiskPage::SmartDirectory, Protocol::Pio),
        0x01 => Task::ReadPage(DiskPage::SmartErrors, Protocol::Pio),
        0x06 => Task::ReadPage(DiskPage::SmartTests, Protocol::Pio),
        _ => Task::Unknown,
    }
}

/// SMART READ LOG.
fn smart_read_task(log: u8, count: u8) -> Task
    ensures { result ≡ smart_read_task log count }
{
    if names_host_pages(log, count) {
        Task::ReadLog(Log::Host(smart_pages(log, count)), Protocol::Pio)
    } else if count == 1 {
        smart_page_task(log)
    } else {
        Task::Unknown
    }
}

/// SMART WRITE LOG.
fn smart_write_task(log: u8, count: u8) -> Task
    ensures { result ≡ smart_write_task log count }
{
    if names_host_pages(log, count) {
        Task::Store(Store::Log(smart_pages(log, count)), Protocol::Pio)
    } else {
        Task::Unknown
    }
}

/// SMART, by its subcommand.
fn smart_task(subcommand: u16, low: u8, count: u16) -> Task
    ensures { result ≡ smart_task subcommand low count }
{
    match subcommand {
        0xD0 => Task::ReadPage(DiskPage::SmartData, Protocol::Pio), // SMART READ DATA
        0xD1 => Task::ReadPage(DiskPage::SmartThresholds, Protocol::Pio), // SMART READ THRESHOLDS
        0xD2 if count % 256 == 0x00 || count % 256 == 0xF1 => Task::Change(Change::NothingSmart), // SMART ENABLE/DISABLE ATTRIBUTE AUTOSAVE
        0xD4 => offline_task(low), // SMART EXECUTE OFF-LINE IMMEDIATE
        0xD5 => smart_read_task(low, (count % 256) as u8), // SMART READ LOG
        0xD6 => smart_write_task(low, (count % 256) as u8), // SMART WRITE LOG
        0xD8 => Task::Change(Change::Smart(true)), // SMART ENABLE OPERATIONS
        0xD9 => Task::Change(Change::Smart(false)), // SMART DISABLE OPERATIONS
        0xDA => Task::SmartStatus, // SMART RETURN STATUS
        _ => Task::Unknown,
    }
}

/// What a command asks by its code that is of settings, of SMART, or of data that are no sectors.
fn settings_task(code: u8, h2d: &H2d) -> Task
    ensures { result ≡ settings_task code h2d.now }
{
    let subcommand = h2d.features % 256;
    match code {
        0x06 if subcommand % 2 == 1 && 1 <= h2d.count && h2d.count <= 8 => {
            Task::Store(Store::Trim(h2d.count as u8), Protocol::Dma) // DATA SET MANAGEMENT with TRIM
        }
        0xB0 if h2d.lba / 256 % (1 << 16) == 0xC24F => {
            smart_task(subcommand, (h2d.lba % 256) as u8, h2d.count)
        }
        0xE4 => Task::ReadPage(DiskPage::Buffer, Protocol::Pio), // READ BUFFER
        0xE8 => Task::Store(Store::Buffer, Protocol::Pio), // WRITE BUFFER
        0xE9 => Task::ReadPage(DiskPage::Buffer, Protocol::Dma), // READ BUFFER DMA
        0xEB => Task::Store(Store::Buffer, Protocol::Dma), // WRITE BUFFER DMA
        0xEF => features_task(subcommand, h2d.count), // SET FEATURES
        _ => Task::Unknown,
    }
}

/// SET MULTIPLE MODE, by its count: 0 disables READ and WRITE MULTIPLE, and a block has a power of two of sectors, up to 16.
fn mode_task(count: u8) -> Task
    ensures { result ≡ mode_task count }
{
    match count {
        0 => Task::Change(Change::Multiple(MultipleMode::Disabled)),
        1 => Task::Change(Change::Multiple(MultipleMode::One)),
        2 => Task::Change(Change::Multiple(MultipleMode::Two)),
        4 => Task::Change(Change::Multiple(MultipleMode::Four)),
        8 => Task::Change(Change::Multiple(MultipleMode::Eight)),
        16 => Task::Change(Change::Multiple(MultipleMode::Sixteen)),
        _ => Task::Unknown,
    }
}

/// What a command asks by its code that is of blocks of several sectors, of settings, of SMART, or of data that are no sectors.
fn multiple_task(code: u8, h2d: &H2d) -> Task
    ensures { result ≡ multiple_task code h2d.now }
{
    match code {
        0x29 => Task::Read(long_span(h2d), Protocol::Multiple), // READ MULTIPLE EXT
        0x39 => Task::Write(long_span(h2d), Protocol::Multiple), // WRITE MULTIPLE EXT
        0xC4 => Task::Read(short_span(h2d), Protocol::Multiple), // READ MULTIPLE
        0xC5 => Task::Write(short_span(h2d), Protocol::Multiple), // WRITE MULTIPLE
        0xC6 => mode_task((h2d.count % 256) as u8), // SET MULTIPLE MODE
        0xCE => Task::Write(long_span(h2d), Protocol::Multiple), // WRITE MULTIPLE FUA EXT
        _ => settings_task(code, h2d),
    }
}

/// Whether WRITE UNCORRECTABLE EXT marks sectors with these features: pseudo-uncorrectable or flagged, with logging or without.
fn marks_sectors(features: u16) -> bool
    ensures { result ≡ marks_sectors features }
{
    matches!(features, 0x55 | 0x5A | 0xA5 | 0xAA)
}

/// WRITE UNCORRECTABLE EXT, by its features.
fn mark_task(h2d: &H2d) -> Task
    ensures { result ≡ mark_task h2d.now }
{
    if marks_sectors(h2d.features % 256) {
        Task::Mark(long_span(h2d))
    } else {
        Task::Unknown
    }
}

/// What a command of this code asks, where it is not queued.
fn task_by(code: u8, h2d: &H2d) -> Task
    ensures { result ≡ task_by code h2d.now }
{
    match code {
        0x20 => Task::Read(short_span(h2d), Protocol::Pio), // READ SECTOR(S)
        0x24 => Task::Read(long_span(h2d), Protocol::Pio), // READ SECTOR(S) EXT
        0x25 => Task::Read(long_span(h2d), Protocol::Dma), // READ DMA EXT
        0x27 => Task::NativeMax(Addressing::Bits48), // READ NATIVE MAX ADDRESS EXT
        0x2F => log_task(h2d, Protocol::Pio), // READ LOG EXT
        0x30 => Task::Write(short_span(h2d), Protocol::Pio), // WRITE SECTOR(S)
        0x34 => Task::Write(long_span(h2d), Protocol::Pio), // WRITE SECTOR(S) EXT
        0x35 => Task::Write(long_span(h2d), Protocol::Dma), // WRITE DMA EXT
        0x3D => Task::Write(long_span(h2d), Protocol::Dma), // WRITE DMA FUA EXT
        0x3F => write_log_task(h2d, Protocol::Pio), // WRITE LOG EXT
        0x40 => Task::Verify(short_span(h2d)), // READ VERIFY SECTOR(S)
        0x42 => Task::Verify(long_span(h2d)), // READ VERIFY SECTOR(S) EXT
        0x45 => mark_task(h2d), // WRITE UNCORRECTABLE EXT
        0x47 => log_task(h2d, Protocol::Dma), // READ LOG DMA EXT
        0x57 => write_log_task(h2d, Protocol::Dma), // WRITE LOG DMA EXT
        0x90 => Task::Diagnose, // EXECUTE DEVICE DIAGNOSTIC
        0xA1 => Task::Packet, // IDENTIFY PACKET DEVICE
        0xC8 => Task::Read(short_span(h2d), Protocol::Dma), // READ DMA
        0xCA => Task::Write(short_span(h2d), Protocol::Dma), // WRITE DMA
        0xE0 | 0xE2 => Task::Standby, // STANDBY IMMEDIATE, STANDBY
        0xE1 | 0xE3 => Task::Idle, // IDLE IMMEDIATE, IDLE
        0xE5 => Task::PowerMode, // CHECK POWER MODE
        0xE6 => Task::Sleep, // SLEEP
        0xE7 => Task::Flush(Addressing::Bits28), // FLUSH CACHE
        0xEA => Task::Flush(Addressing::Bits48), // FLUSH CACHE EXT
        0xEC => Task::Identify, // IDENTIFY DEVICE
        0xF8 => Task::NativeMax(Addressing::Bits28), // READ NATIVE MAX ADDRESS
        _ => multiple_task(code, h2d),
    }
}

/// What a command FIS asks of the disk: READ and WRITE FPDMA QUEUED, the commands that are not queued, or the device control
/// register where bit C is 0.
pub fn task_of(h2d: &H2d) -> Task
    ensures { result ≡ task_of h2d.now }
{
    if !h2d.c {
        let reset = is_set(h2d.control, 2); // SRST
        return Task::Control { reset };
    }
    match queued(h2d) {
        Some(command) => Task::Queue(command),
        None => task_by(h2d.command, h2d),
    }
}
