//! The pages of log 30h (ACS-3, "IDENTIFY DEVICE data log").

ghost use Rattle.std.specs.Prelude.{◌≡◌, ◌≤◌, ◌<◌, ◌/◌, ◌%◌, ◌^◌};
ghost use Rattle.hba_command.specs.IdentifyLog.{capabilities, capabilities_page, capacity_page, further_capabilities, headed, identify_log_page, security_page, settings, settings_page, strings_page, supported_pages, with_device, with_wide_name};
ghost use Rattle.hba_command.specs.WideName.{wide_name};

use crate::device::Device;
use crate::identity::Identity;
use crate::pages::controller_page;
use crate::wide_name::wide_name;
use crate::words::{put_text, put_word};

/// A page with its header alone: revision 1, the number of the page, and bit 63, which is 1.
fn headed(number: u16) -> [u8; 512]
    ensures { result ≡ headed number }
{
    let mut page = [0; 512];
    put_word(&mut page, 0, 0x0001);
    put_word(&mut page, 1, number);
    put_word(&mut page, 3, 0x8000);
    page
}

/// Page 00h: revision 1, and the list of the seven pages that there are.
fn supported_pages() -> [u8; 512]
    ensures { result ≡ supported_pages }
{
    let mut page = [0; 512];
    put_word(&mut page, 0, 0x0001);
    put_word(&mut page, 4, 0x0007); // byte 8: seven pages; byte 9: page 00h
    put_word(&mut page, 5, 0x0201); // pages 01h and 02h
    put_word(&mut page, 6, 0x0403);
    put_word(&mut page, 7, 0x0605);
    page
}

/// Page 02h: how many sectors there are, each of 512 bytes and alone in its physical sector.
fn capacity_page(sectors: u32) -> [u8; 512]
    ensures { result ≡ capacity_page sectors }
{
    let mut page = headed(0x02);
    put_word(&mut page, 4, (sectors % (1 << 16)) as u16);
    put_word(&mut page, 5, (sectors >> 16) as u16);
    put_word(&mut page, 7, 0x8000); // bit 63: the capacity is valid
    put_word(&mut page, 11, 0x8000); // bit 63: so is what is said of physical sectors
    page
}

/// Bits 31:16 of the supported capabilities, of which the volatile write cache is one if the disk has it, and zeros after a trim are one if it makes them.
fn capabilities(device: &Device) -> u16
    ensures { result ≡ capabilities device.now }
{
    let cache = if device.has_cache { 0x0100 } else { 0 };
    let zeros = if device.trim_zeros { 0x8000 } else { 0 };
    0x1AD1 + cache + zeros
}

/// Bits 47:32, of which deterministic reads after a trim are one then.
fn further_capabilities(device: &Device) -> u16
    ensures { result ≡ further_capabilities device.now }
{
    0x0018 + if device.trim_zeros { 0x0080 } else { 0 }
}

/// Puts the world wide name into page 03h.
fn put_wide_name(page: &mut [u8; 512], identity: &Identity)
    ensures { page.new ≡ with_wide_name (wide_name identity.now) page.old }
{
    let name = wide_name(identity);
    put_word(page, 28, (name % (1 << 16)) as u16);
    put_word(page, 29, (name / (1 << 16) % (1 << 16)) as u16);
    put_word(page, 30, (name / (1 << 32) % (1 << 16)) as u16);
    put_word(page, 31, (name / (1 << 48)) as u16);
    put_word(page, 35, 0x8000); // bit 127: the name is valid
}

/// Puts what page 03h says of the disk into it: the rotation rate, the world wide name, and DATA SET MANAGEMENT with TRIM.
fn put_device(page: &mut [u8; 512], identity: &Identity)
    ensures { page.new ≡ with_device identity.now page.old }
{
    put_word(page, 12, identity.rotation);
    put_word(page, 15, 0x8000);
    put_wide_name(page, identity);
    put_word(page, 36, 0x0001);
    put_word(page, 39, 0x8000);
}

/// Page 03h: the commands and feature sets that are supported, and what the disk is.
fn capabilities_page(device: &Device) -> [u8; 512]
    ensures { result ≡ capabilities_page device.now }
{
    let mut page = headed(0x03);
    put_word(&mut page, 4, 0x1986);
    put_word(&mut page, 5, capabilities(device));
    put_word(&mut page, 6, further_capabilities(device));
    put_word(&mut page, 7, 0x8000);
    put_device(&mut page, &device.identity);
    page
}

/// Bits 15:0 of the current settings.
fn settings(device: &Device) -> u16
    ensures { result ≡ settings device.now }
{
    let level = if device.power_level == 0 { 0 } else { 0x0010 };
    let smart = if device.smart { 0x0100 } else { 0 };
    let look_ahead = if device.look_ahead { 0x0200 } else { 0 };
    let reverts = if device.reverts { 0x2000 } else { 0 };
    let cache = if device.cache { 0x8000 } else { 0 };
    level + smart + look_ahead + reverts + cache
}

/// Page 04h: what is enabled now, and the level of Advanced Power Management.
fn settings_page(device: &Device) -> [u8; 512]
    ensures { result ≡ settings_page device.now }
{
    let mut page = headed(0x04);
    put_word(&mut page, 4, settings(device));
    put_word(&mut page, 7, 0x8000);
    put_word(&mut page, 8, 256 * u16::from(device.power_level));
    put_word(&mut page, 11, 0x8000);
    page
}

/// Page 05h: serial number, firmware revision and model number.
fn strings_page(identity: &Identity) -> [u8; 512]
    ensures { result ≡ strings_page identity.now }
{
    let mut page = headed(0x05);
    put_text(&mut page, 4, &identity.serial, 10);
    put_text(&mut page, 16, &identity.firmware, 4);
    put_text(&mut page, 24, &identity.model, 20);
    page
}

/// Page 06h: no feature set of security is supported.
fn security_page() -> [u8; 512]
    ensures { result ≡ security_page }
{
    let mut page = headed(0x06);
    put_word(&mut page, 11, 0x8000); // the Security feature set
    put_word(&mut page, 23, 0x8000); // the Trusted Computing feature set
    put_word(&mut page, 27, 0x8000); // the Sanitize Device feature set
    page
}

/// A page of log 30h.
pub(crate) fn identify_log_page(number: u32, sectors: u32, depth: u32, device: &Device) -> [u8; 512]
    requires deep { 1 ≤ depth }
    requires shallow { depth ≤ 32 }
    ensures { result ≡ identify_log_page sectors depth device.now number }
{
    match number {
        0 => supported_pages(),
        1 => controller_page(sectors, depth, device),
        2 => capacity_page(sectors),
        3 => capabilities_page(device),
        4 => settings_page(device),
        5 => strings_page(&device.identity),
        _ => security_page(),
    }
}
