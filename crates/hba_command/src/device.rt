//! What the disk keeps between commands (ACS-3, "SET FEATURES", "SET MULTIPLE MODE", "SMART", "WRITE BUFFER" and "IDENTIFY DEVICE").

ghost use Rattle.std.specs.Prelude.{◌≡◌, replicate};
ghost use Rattle.hba_command.specs.Device.{after_change, after_ending, after_error_log, after_page, after_signature, after_srst, after_store, allows, allows_log, allows_page, buffered};
ghost use Rattle.hba_command.specs.Device.{changed, collided, device_after_reply, is_of_smart, more_tested, named, new_device, power_cycled, reset_device, tested, with_cache, with_trim_zeros};
ghost use Rattle.hba_command.specs.Words.{with_word};

use crate::addressing::Addressing;
use crate::change::Change;
use crate::disk_page::{DiskPage, needs_smart};
use crate::host_pages::HostPages;
use crate::identity::Identity;
use crate::multiple_mode::MultipleMode;
use crate::phy_events::{PhyEvents, with_ending, with_signature};
use crate::reply::Reply;
use crate::store::Store;
use crate::words::put_word;
use sata_fis::is_set;

/// What the disk keeps between commands, besides its sectors, its queue and its power mode.
#[derive(Clone, Copy)]
pub struct Device {
    /// What names it.
    pub identity: Identity,
    /// Whether it has a volatile write cache.
    pub has_cache: bool,
    /// Whether that is enabled.
    pub cache: bool,
    /// Whether trimmed sectors read as zeros; else a trim is advice, and changes none.
    pub trim_zeros: bool,
    /// Whether read look-ahead is enabled.
    pub look_ahead: bool,
    /// The level of Advanced Power Management, 0 if it is disabled.
    pub power_level: u8,
    /// Whether a software reset reverts to defaults.
    pub reverts: bool,
    /// The multiword or Ultra DMA mode that is selected, as the count of SET FEATURES 03h names it.
    pub dma_mode: u8,
    /// The blocks of READ and WRITE MULTIPLE.
    pub multiple: MultipleMode,
    /// Whether SMART operations are enabled.
    pub smart: bool,
    /// The self-tests, as log 06h has them but for its checksum.
    pub tests: [u8; 512],
    /// The same as log 07h has them.
    pub more_tests: [u8; 512],
    /// What WRITE BUFFER has written.
    pub buffer: [u8; 512],
    /// The error of a command that is not queued and came while queued ones were outstanding, until log 10h is read.
    pub collision: Option<u8>,
    /// What log 11h counts.
    pub phy: PhyEvents,
}

/// A log of self-tests with none.
fn no_tests() -> [u8; 512]
    ensures { result ≡ with_word 0 0x0001 (replicate 512 0) }
{
    let mut page = [0; 512];
    put_word(&mut page, 0, 0x0001); // the revision
    page
}

/// Log 06h with one more self-test of this number, which has passed: 21 entries are written in turn, and byte 508 says which is the newest.
fn tested(log: &[u8; 512], test: u8) -> [u8; 512]
    ensures { result ≡ tested test log.now }
{
    let mut page = *log;
    let newest = log[508] % 21 + 1;
    page[24 * usize::from(newest) - 22] = test;
    page[508] = newest;
    page
}

/// The same of log 07h, which has 19 entries, and says it in byte 2.
fn more_tested(log: &[u8; 512], test: u8) -> [u8; 512]
    ensures { result ≡ more_tested test log.now }
{
    let mut page = *log;
    let newest = log[2] % 19 + 1;
    page[26 * usize::from(newest) - 22] = test;
    page[2] = newest;
    page
}

impl Device {
    /// A disk that has never been used, without a volatile write cache, to which a trim is advice.
    #[tactic(auto, unfolding(crate::specs::Device::new_device))]
    pub fn new() -> Self
        ensures { result ≡ new_device }
    {
        Device {
            identity: Identity::new(),
            has_cache: false,
            cache: false,
            trim_zeros: false,
            look_ahead: true,
            power_level: 0,
            reverts: false,
            dma_mode: 0x45, // Ultra DMA mode 5
            multiple: MultipleMode::Disabled,
            smart: true,
            tests: no_tests(),
            more_tests: no_tests(),
            buffer: [0; 512],
            collision: None,
            phy: PhyEvents::new(),
        }
    }
}

/// The disk with a volatile write cache, which is enabled then, or without one.
pub fn with_cache(device: &Device, has_cache: bool) -> Device
    ensures { result ≡ with_cache has_cache device.now }
{
    Device {
        has_cache,
        cache: has_cache,
        ..*device
    }
}

/// The disk whose trimmed sectors read as zeros, or one to which a trim is advice.
pub fn with_trim_zeros(device: &Device, trim_zeros: bool) -> Device
    ensures { result ≡ with_trim_zeros trim_zeros device.now }
{
    Device {
        trim_zeros,
        ..*device
    }
}

/// The disk under another name.
pub fn named(device: &Device, identity: &Identity) -> Device
    ensures { result ≡ named identity.now device.now }
{
    Device {
        identity: *identity,
        ..*device
    }
}

/// The disk behind a hardware reset or power-on: its settings are the defaults, and SMART operations stay enabled or disabled.
pub fn reset_device(device: &Device) -> Device
    ensures { result ≡ reset_device device.now }
{
    Device {
        cache: device.has_cache,
        look_ahead: true,
        power_level: 0,
        reverts: false,
        dma_mode: 0x45, // Ultra DMA mode 5
        multiple: MultipleMode::Disabled,
        collision: None,
        ..*device
    }
}

/// The disk behind power-on, which resets the counters of log 11h too.
pub fn power_cycled(device: &Device) -> Device
    ensures { result ≡ power_cycled device.now }
{
    let reset = reset_device(device);
    Device {
        phy: PhyEvents::new(),
        ..reset
    }
}

/// The disk behind a software reset, which reverts to the defaults only if SET FEATURES CCh has said so.
pub fn after_srst(device: &Device) -> Device
    ensures { result ≡ after_srst device.now }
{
    if device.reverts {
        reset_device(device)
    } else {
        after_error_log(device)
    }
}

/// The error that is pending for log 10h behind a command that has ended.
fn collided(comes_under_queued: bool, status: u8, error: u8, was: Option<u8>) -> Option<u8>
    ensures { result ≡ collided comes_under_queued status error was }
{
    if comes_under_queued && is_set(status, 0) {
        return Some(error);
    }
    was
}

/// The disk behind a command that has ended with this status and error: one that is not queued and has come while queued ones were outstanding, or
/// another one.
pub fn after_ending(device: &Device, comes_under_queued: bool, status: u8, error: u8) -> Device
    ensures { result ≡ after_ending comes_under_queued status error device.now }
{
    Device {
        collision: collided(comes_under_queued, status, error, device.collision),
        phy: with_ending(device.phy, status, error),
        ..*device
    }
}

/// The disk once log 10h is read.
pub fn after_error_log(device: &Device) -> Device
    ensures { result ≡ after_error_log device.now }
{
    Device {
        collision: None,
        ..*device
    }
}

/// The disk once its signature is sent, because of a COMRESET or not.
pub fn after_signature(device: &Device, by_comreset: bool) -> Device
    ensures { result ≡ after_signature by_comreset device.now }
{
    if by_comreset {
        Device {
            phy: with_signature(device.phy),
            ..*device
        }
    } else {
        *device
    }
}

/// The disk once a page that it has ready is read.
pub fn after_page(device: &Device, page: DiskPage) -> Device
    ensures { result ≡ after_page page device.now }
{
    match page {
        DiskPage::PhyEvents { resets: true } => Device {
            phy: PhyEvents::new(),
            ..*device
        },
        _ => *device, // it changes nothing
    }
}

/// Whether a change is possible: of the write cache if there is one, and of what is SMART while that is enabled.
pub fn allows(device: &Device, change: &Change) -> bool
    ensures { result ≡ allows device.now change.now }
{
    match change {
        Change::WriteCache(_) => device.has_cache,
        Change::LookAhead(_) | Change::PowerLevel(_) | Change::Reverting(_) => true,
        Change::DmaMode(_) | Change::Multiple(_) => true,
        Change::Smart(enabled) => *enabled || device.smart,
        Change::Test(_) | Change::NothingSmart => device.smart,
    }
}

/// The disk after a change.
fn changed(device: &Device, change: &Change) -> Device
    ensures { result ≡ changed change.now device.now }
{
    match change {
        Change::WriteCache(enabled) => Device {
            cache: *enabled,
            ..*device
        },
        Change::LookAhead(enabled) => Device {
            look_ahead: *enabled,
            ..*device
        },
        Change::PowerLevel(level) => Device {
            power_level: *level,
            ..*device
        },
        Change::Reverting(reverts) => Device {
            reverts: *reverts,
            ..*device
        },
        Change::DmaMode(mode) => Device {
            dma_mode: *mode,
            ..*device
        },
        Change::Multiple(mode) => Device {
            multiple: *mode,
            ..*device
        },
        Change::Smart(enabled) => Device {
            smart: *enabled,
            ..*device
        },
        Change::Test(test) => Device {
            tests: tested(&device.tests, *test),
            more_tests: more_tested(&device.more_tests, *test),
            ..*device
        },
        Change::NothingSmart => *device,
    }
}

/// The disk after a change, if it is possible.
fn after_change(device: &Device, change: &Change) -> Device
    ensures { result ≡ after_change change.now device.now }
{
    if allows(device, change) {
        changed(device, change)
    } else {
        *device
    }
}

/// The disk behind a command that moves nothing.
pub fn device_after_reply(reply: &Reply, device: &Device) -> Device
    ensures { result ≡ device_after_reply reply.now device.now }
{
    match reply {
        Reply::Changed(change) => after_change(device, change),
        Reply::Done | Reply::Verified(_) | Reply::Marked(_) | Reply::NativeMax(_) => *device,
        Reply::PowerMode => *device,
        Reply::Entered(_) | Reply::Diagnosed | Reply::Packet | Reply::SmartStatus => *device,
    }
}

/// Whether a page that the disk has ready is read.
pub fn allows_page(device: &Device, page: DiskPage) -> bool
    ensures { result ≡ allows_page device.now page }
{
    device.smart || !needs_smart(page)
}

/// Whether a command that names a log so is of the SMART feature set.
fn is_of_smart(addressing: Addressing) -> bool
    ensures { result ≡ is_of_smart addressing }
{
    match addressing {
        Addressing::Bits28 => true,
        Addressing::Bits48 => false,
    }
}

/// Whether a log of the host's is read or written: by SMART only while that is enabled.
pub fn allows_log(device: &Device, pages: &HostPages) -> bool
    ensures { result ≡ allows_log device.now pages.now }
{
    device.smart || !is_of_smart(pages.addressing)
}

/// The disk with other bytes in its buffer, if there are 512.
fn buffered(device: &Device, bytes: &[u8]) -> Device
    ensures { result ≡ buffered bytes.now device.now }
{
    if bytes.len() != 512 {
        return *device; // WRITE BUFFER has 512
    }
    let mut buffer = [0; 512];
    buffer.copy_from_slice(bytes);
    Device { buffer, ..*device }
}

/// The disk with data that are no sectors.
pub fn after_store(store: &Store, device: &Device, bytes: &[u8]) -> Device
    ensures { result ≡ after_store store.now bytes.now device.now }
{
    match store {
        Store::Buffer => buffered(device, bytes),
        Store::Trim(_) | Store::Log(_) => *device,
    }
}
