//! The pages that the disk has ready (ACS-3, "SMART", "READ LOG EXT" and "READ BUFFER").

ghost use Rattle.std.specs.Prelude.{◌≡◌};
ghost use Rattle.hba_command.specs.{DiskPages.{ready_page, revision_page, smart_data, smart_directory}, Words.{with_checksum}};

use crate::device::Device;
use crate::disk_page::DiskPage;
use crate::pages::{directory_page, put_host_logs};
use crate::phy_events::events_page;
use crate::words::{put_checksum, put_word};

/// A page with a checksum.
fn checked(page: &[u8; 512]) -> [u8; 512]
    ensures { result ≡ with_checksum page.now }
{
    let mut checked = *page;
    put_checksum(&mut checked);
    checked
}

/// A page with nothing in it but its revision 0001h.
fn revision_page() -> [u8; 512]
    ensures { result ≡ revision_page }
{
    let mut page = [0; 512];
    put_word(&mut page, 0, 0x0001);
    page
}

/// SMART READ DATA without its checksum.
fn smart_data() -> [u8; 512]
    ensures { result ≡ smart_data }
{
    let mut page = [0; 512];
    put_word(&mut page, 0, 0x0001); // of attributes, of which there are none
    put_word(&mut page, 181, 0x0002); // bytes 362 and 363: off-line data and self-test are complete, without error
    put_word(&mut page, 183, 0x1100); // byte 367: EXECUTE OFF-LINE IMMEDIATE, with short and extended self-test
    put_word(&mut page, 184, 0x0003); // bytes 368 and 369: SMART data are saved, also by autosave
    put_word(&mut page, 185, 0x0001); // byte 370: errors are logged
    put_word(&mut page, 186, 0x0101); // bytes 372 and 373: a short self-test takes a minute at most, and so does an extended one
    page
}

/// Log 00h by SMART READ LOG: version 1, logs 01h and 06h have one page each, and those of the host's 16.
fn smart_directory() -> [u8; 512]
    ensures { result ≡ smart_directory }
{
    let mut page = [0; 512];
    put_word(&mut page, 0x00, 0x0001);
    put_word(&mut page, 0x01, 0x0001);
    put_word(&mut page, 0x06, 0x0001);
    put_host_logs(&mut page);
    page
}

/// A page that the disk has ready.
pub fn ready_page(device: &Device, page: DiskPage) -> [u8; 512]
    ensures { result ≡ ready_page device.now page }
{
    match page {
        DiskPage::Directory => directory_page(),
        DiskPage::Errors | DiskPage::SmartErrors | DiskPage::SmartThresholds => {
            checked(&revision_page())
        }
        DiskPage::Tests => checked(&device.more_tests),
        DiskPage::PhyEvents { .. } => checked(&events_page(device.phy)),
        DiskPage::SmartData => checked(&smart_data()),
        DiskPage::SmartDirectory => smart_directory(),
        DiskPage::SmartTests => checked(&device.tests),
        DiskPage::Buffer => device.buffer,
    }
}
