//! What names the disk, and whether it has a volatile write cache and trimmed sectors that read as zeros.

ghost use Rattle.std.specs.Prelude.{◌≡◌, true};
ghost use Rattle.std.specs.List.{list_all};
ghost use Rattle.ahci_ffi.specs.Flat.{number_if};
ghost use Rattle.ahci_hba.specs.Keeping.{cached, trim_turned};
ghost use Rattle.hba_ffi.specs.Naming.{AnswersNaming, identity_of, is_character, is_identity, is_rotation};

use crate::flat::FlatIdentity;
use ahci_ffi::Status;
use ahci_hba::Hba;
use hba_command::Identity;
use sector_store::SectorStore;
use std::alloc::Allocator;

/// Whether a byte is a character of a text of IDENTIFY DEVICE.
fn is_character(byte: u8) -> bool
    ensures { result ≡ is_character byte }
{
    0x20 <= byte && byte <= 0x7E
}

/// Whether each byte is.
fn is_text(text: &[u8]) -> bool
    ensures { result ≡ list_all is_character text.now }
{
    text.iter().all(|byte| is_character(*byte))
}

/// Whether a nominal media rotation rate is not reserved.
fn is_rotation(rotation: u32) -> bool
    ensures { result ≡ is_rotation rotation }
{
    rotation <= 1 || (0x0401 <= rotation && rotation <= 0xFFFE)
}

/// Whether C names a disk so that IDENTIFY DEVICE can name it.
pub(crate) fn is_identity(flat: &FlatIdentity) -> bool
    ensures { result ≡ is_identity flat.now }
{
    is_text(&flat.serial)
        && is_text(&flat.firmware)
        && is_text(&flat.model)
        && is_rotation(flat.rotation)
}

/// What C names a disk.
pub(crate) fn identity_of(flat: &FlatIdentity) -> Identity
    requires { is_identity flat.now ≡ true }
    ensures { result ≡ identity_of flat.now }
{
    Identity {
        serial: flat.serial,
        firmware: flat.firmware,
        model: flat.model,
        rotation: flat.rotation as u16,
    }
}

/// IDENTIFY DEVICE names the disk so from now on.
pub fn identity<A: Allocator, S: SectorStore>(
    hba: &mut Hba<A, S>,
    identity: &FlatIdentity,
) -> Status
    ensures { AnswersNaming (is_identity identity.now) identity.now result hba.old hba.new }
{
    if !is_identity(identity) {
        return Status::BadKind;
    }
    hba.set_identity(&identity_of(identity));
    Status::Done
}

/// The disk has a volatile write cache, which is enabled from now on, or it has none.
pub fn write_cache<A: Allocator, S: SectorStore>(hba: &mut Hba<A, S>, has_cache: bool) -> Status
    ensures done { result ≡ Status.Done }
    ensures state { hba.new ≡ cached has_cache hba.old }
{
    hba.set_cache(has_cache);
    Status::Done
}

/// Trimmed sectors read as zeros from now on, or a trim is advice.
pub fn trim_zeros<A: Allocator, S: SectorStore>(hba: &mut Hba<A, S>, trim_zeros: bool) -> Status
    ensures done { result ≡ Status.Done }
    ensures state { hba.new ≡ trim_turned trim_zeros hba.old }
{
    hba.set_trim_zeros(trim_zeros);
    Status::Done
}

/// Whether the disk has a volatile write cache that is enabled.
pub fn write_cache_enabled<A: Allocator, S: SectorStore>(
    hba: &Hba<A, S>,
    enabled: &mut u32,
) -> Status
    ensures done { result ≡ Status.Done }
    ensures enabled { enabled.new ≡ number_if hba.now.device.cache }
{
    *enabled = u32::from(hba.device().cache);
    Status::Done
}
