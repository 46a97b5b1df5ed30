//! The pages that the controller's disk answers with (ACS-3).

ghost use Rattle.std.specs.Prelude.{◌≡◌, ◌≤◌};
ghost use Rattle.hba_command.specs.MultipleMode.{multiple_word};
ghost use Rattle.hba_command.specs.Pages.{controller_page, directory_page, enabled, further_enabled, further_supported, multiword_word, not_queued_page, supported, ultra_word, with_capabilities, with_commands, with_cycle_times, with_enabled, with_host_logs, with_identity, with_modes, with_name, with_supported};
ghost use Rattle.hba_command.specs.WideName.{wide_name};

use crate::device::Device;
use crate::identity::Identity;
use crate::multiple_mode::{MultipleMode, multiple_sectors};
use crate::wide_name::wide_name;
use crate::words::{put_text, put_word, put_words};
use ncq_core::identify_page;

/// Puts the cycle times of multiword DMA and PIO into a page, in nanoseconds.
fn put_cycle_times(page: &mut [u8; 512])
    ensures { page.new ≡ with_cycle_times page.old }
{
    put_word(page, 65, 120);
    put_word(page, 66, 120);
    put_word(page, 67, 120);
    put_word(page, 68, 120);
}

/// Puts what names the disk into a page.
fn put_identity(page: &mut [u8; 512], identity: &Identity)
    ensures { page.new ≡ with_identity identity.now page.old }
{
    put_text(page, 10, &identity.serial, 10);
    put_text(page, 23, &identity.firmware, 4);
    put_text(page, 27, &identity.model, 20);
    put_word(page, 217, identity.rotation);
}

/// Word 59: the blocks of READ and WRITE MULTIPLE.
fn multiple_word(mode: MultipleMode) -> u16
    ensures { result ≡ multiple_word mode }
{
    let sectors = multiple_sectors(mode);
    if sectors == 0 { 0 } else { 0x0100 + sectors }
}

/// Puts capabilities into a page.
fn put_capabilities(page: &mut [u8; 512], device: &Device)
    ensures { page.new ≡ with_capabilities device.now page.old }
{
    put_word(page, 47, 0x8010); // a block of READ and WRITE MULTIPLE has 16 sectors at most; the high byte is 80h
    put_word(page, 48, 0x4000); // bit 14 is 1
    put_word(page, 49, 0x0F00); // IORDY, which may be disabled, LBA, DMA
    put_word(page, 50, 0x4000); // bit 14 is 1
    put_word(page, 59, multiple_word(device.multiple));
}

/// Word 63: multiword DMA modes 0 to 2, and which of them is selected.
fn multiword_word(mode: u8) -> u16
    ensures { result ≡ multiword_word mode }
{
    match mode {
        0x20 => 0x0107,
        0x21 => 0x0207,
        0x22 => 0x0407,
        _ => 0x0007,
    }
}

/// Word 88: Ultra DMA modes 0 to 5, and which of them is selected.
fn ultra_word(mode: u8) -> u16
    ensures { result ≡ ultra_word mode }
{
    match mode {
        0x40 => 0x013F,
        0x41 => 0x023F,
        0x42 => 0x043F,
        0x43 => 0x083F,
        0x44 => 0x103F,
        0x45 => 0x203F,
        _ => 0x003F,
    }
}

/// Puts transfer modes into a page.
fn put_modes(page: &mut [u8; 512], device: &Device)
    ensures { page.new ≡ with_modes device.now page.old }
{
    put_word(page, 53, 0x0006); // words 64 to 70 and 88 are valid
    put_word(page, 63, multiword_word(device.dma_mode));
    put_word(page, 64, 0x0003); // PIO modes 3 and 4
    put_cycle_times(page);
    put_word(page, 88, ultra_word(device.dma_mode));
}

/// Puts the world wide name into a page.
fn put_name(page: &mut [u8; 512], identity: &Identity)
    ensures { page.new ≡ with_name (wide_name identity.now) page.old }
{
    let name = wide_name(identity);
    put_word(page, 108, (name / (1 << 48)) as u16);
    put_word(page, 109, (name / (1 << 32) % (1 << 16)) as u16);
    put_word(page, 110, (name / (1 << 16) % (1 << 16)) as u16);
    put_word(page, 111, (name % (1 << 16)) as u16);
}

/// Word 82: the feature sets and commands that are supported.
fn supported(device: &Device) -> u16
    ensures { result ≡ supported device.now }
{
    0x3049 + if device.has_cache { 0x0020 } else { 0 }
}

/// Word 85: those that are enabled.
fn enabled(device: &Device) -> u16
    ensures { result ≡ enabled device.now }
{
    let smart = if device.smart { 0x0001 } else { 0 };
    let cache = if device.cache { 0x0020 } else { 0 };
    let look_ahead = if device.look_ahead { 0x0040 } else { 0 };
    0x3008 + smart + cache + look_ahead
}

/// Word 86: further ones that are enabled; words 119 and 120 are valid.
fn further_enabled(device: &Device) -> u16
    ensures { result ≡ further_enabled device.now }
{
    if device.power_level == 0 {
        0xB400
    } else {
        0xB408
    }
}

/// Puts the feature sets and commands that are supported into a page.
fn put_supported(page: &mut [u8; 512], device: &Device)
    ensures { page.new ≡ with_supported device.now page.old }
{
    put_word(page, 82, supported(device));
    put_word(page, 83, 0x7408); // FLUSH CACHE EXT, FLUSH CACHE, 48-bit addresses, Advanced Power Management
    put_word(page, 84, 0x4163); // a world wide name, WRITE DMA FUA EXT and WRITE MULTIPLE FUA EXT, general purpose logging, SMART self-test, SMART error logging
    put_word(page, 119, 0x400C); // READ LOG DMA EXT, WRITE UNCORRECTABLE EXT
}

/// Puts those that are enabled now into a page.
fn put_enabled(page: &mut [u8; 512], device: &Device)
    ensures { page.new ≡ with_enabled device.now page.old }
{
    put_word(page, 85, enabled(device));
    put_word(page, 86, further_enabled(device));
    put_word(page, 87, 0x4163);
    put_word(page, 91, u16::from(device.power_level));
    put_word(page, 120, 0x400C);
}

/// Word 69: further commands that are supported, and what reads of trimmed sectors are.
fn further_supported(device: &Device) -> u16
    ensures { result ≡ further_supported device.now }
{
    0x0C00 + if device.trim_zeros { 0x4020 } else { 0 }
}

/// Puts further commands and logs that are supported into a page.
fn put_commands(page: &mut [u8; 512], device: &Device)
    ensures { page.new ≡ with_commands device.now page.old }
{
    put_word(page, 69, further_supported(device));
    put_word(page, 76, 0x850E); // READ LOG DMA EXT as READ LOG EXT, the SATA Phy Event Counters log, NCQ, Gen3, Gen2, Gen1
    put_word(page, 105, 0x0008); // DATA SET MANAGEMENT: at most eight blocks
    put_word(page, 169, 0x0001); // and its TRIM
}

/// What IDENTIFY DEVICE reads through the controller: the page of the port's disk, of so many sectors and 1 to 32 tags, with what names the disk,
/// transfer modes, and what is supported and enabled now (ACS-3, "IDENTIFY DEVICE").
pub fn controller_page(sectors: u32, depth: u32, device: &Device) -> [u8; 512]
    requires deep { 1 ≤ depth }
    requires shallow { depth ≤ 32 }
    ensures { result ≡ controller_page sectors depth device.now }
{
    let mut page = identify_page(sectors, depth);
    put_identity(&mut page, &device.identity);
    put_capabilities(&mut page, device);
    put_modes(&mut page, device);
    put_supported(&mut page, device);
    put_enabled(&mut page, device);
    put_commands(&mut page, device);
    put_name(&mut page, &device.identity);
    page
}

/// Puts the logs of the host's into a directory of logs: 16 pages each.
pub(crate) fn put_host_logs(page: &mut [u8; 512])
    ensures { page.new ≡ with_host_logs page.old }
{
    put_words(page, 0x80, 16, 32);
}

/// What READ LOG EXT reads of log 00h: version 1, and how many pages each log has (ACS-3, "General Purpose Log directory").
pub(crate) fn directory_page() -> [u8; 512]
    ensures { result ≡ directory_page }
{
    let mut page = [0; 512];
    put_word(&mut page, 0x00, 0x0001);
    put_word(&mut page, 0x03, 0x0001);
    put_word(&mut page, 0x04, 0x0002);
    put_word(&mut page, 0x07, 0x0001);
    put_word(&mut page, 0x10, 0x0001);
    put_word(&mut page, 0x11, 0x0001);
    put_word(&mut page, 0x30, 0x0007);
    put_host_logs(&mut page);
    page
}

/// What READ LOG EXT reads of log 10h, if no queued command has failed since the last reset or read of that log: NQ is 1, and the
/// bytes sum to 0 modulo 256 (ACS-3, "NCQ Command Error log").
pub fn not_queued_page() -> [u8; 512]
    ensures { result ≡ not_queued_page }
{
    let mut page = [0; 512];
    page[0] = 0x80;
    page[511] = 0x80;
    page
}
