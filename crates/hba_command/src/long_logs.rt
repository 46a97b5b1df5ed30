//! The pages of the logs that have several (ACS-3, "Device Statistics log" and "IDENTIFY DEVICE data log").

ghost use Rattle.std.specs.Prelude.{◌≡◌, ◌≤◌};
ghost use Rattle.hba_command.specs.LongLogs.{general_page, long_log_page, statistics_list, statistics_page};

use crate::device::Device;
use crate::identify_log::identify_log_page;
use crate::log::LongLog;
use crate::words::put_word;

/// Page 00h of log 04h: revision 1, and the list of the two pages that there are.
fn statistics_list() -> [u8; 512]
    ensures { result ≡ statistics_list }
{
    let mut page = [0; 512];
    put_word(&mut page, 0, 0x0001);
    put_word(&mut page, 4, 0x0002); // byte 8: two pages; byte 9: page 00h
    put_word(&mut page, 5, 0x0001); // byte 10: page 01h
    page
}

/// Page 01h of log 04h: the power-on hours, which are 0, since no time passes.
fn general_page() -> [u8; 512]
    ensures { result ≡ general_page }
{
    let mut page = [0; 512];
    put_word(&mut page, 0, 0x0001); // revision 1
    put_word(&mut page, 1, 0x0001); // page 01h
    put_word(&mut page, 11, 0xC000); // bits 63 and 62: the power-on hours are supported and valid
    page
}

/// A page of log 04h: the pages that there are, or the general one.
fn statistics_page(number: u32) -> [u8; 512]
    ensures { result ≡ statistics_page number }
{
    if number == 0 {
        statistics_list()
    } else {
        general_page()
    }
}

/// A page of a log of several, of a disk with so many sectors, and 1 to 32 tags.
pub fn long_log_page(
    log: LongLog,
    number: u32,
    sectors: u32,
    depth: u32,
    device: &Device,
) -> [u8; 512]
    requires deep { 1 ≤ depth }
    requires shallow { depth ≤ 32 }
    ensures { result ≡ long_log_page log sectors depth device.now number }
{
    match log {
        LongLog::Statistics => statistics_page(number),
        LongLog::IdentifyData => identify_log_page(number, sectors, depth, device),
    }
}
