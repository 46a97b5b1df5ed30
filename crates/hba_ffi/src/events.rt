//! What the link, the disk and the interface do by themselves.

ghost use Rattle.std.specs.Prelude.{◌≡◌};
ghost use Rattle.ahci_hba.specs.Events.{device_plugged, device_unplugged, link_found, link_lost, lost_journal, unplugged_journal};
ghost use Rattle.hba_ffi.specs.Events.{AnswersBits, AnswersInterface, AnswersRegister, AnswersSignAs, AnswersUnknown, HasHandedOut, error_numbered, kind_numbered};

use crate::registers::entries_in;
use ahci_ffi::Status;
use ahci_hba::{DeviceKind, Hba, InterfaceError};
use arrayvec::ArrayVec;
use sector_store::SectorStore;
use std::alloc::Allocator;

/// The link is lost. `entries` is how many entries the journal has that is handed out, if the port is reset.
pub fn lose_link<A: Allocator + Copy, S: SectorStore>(
    hba: &mut Hba<A, S>,
    entries: &mut u64,
) -> Status
    ensures done { result ≡ Status.Done }
    ensures state { hba.new ≡ link_lost hba.old }
    ensures counted { HasHandedOut (lost_journal hba.old) entries.new }
{
    *entries = entries_in(&hba.lose_link());
    Status::Done
}

/// The device makes itself known.
pub fn find_link<A: Allocator, S: SectorStore>(hba: &mut Hba<A, S>) -> Status
    ensures done { result ≡ Status.Done }
    ensures state { hba.new ≡ link_found hba.old }
{
    hba.find_link();
    Status::Done
}

/// The disk is pulled out. `entries` is how many entries the journal has that is handed out, if the port is reset.
pub fn unplug<A: Allocator + Copy, S: SectorStore>(hba: &mut Hba<A, S>, entries: &mut u64) -> Status
    ensures done { result ≡ Status.Done }
    ensures state { hba.new ≡ device_unplugged hba.old }
    ensures counted { HasHandedOut (unplugged_journal hba.old) entries.new }
{
    *entries = entries_in(&hba.unplug());
    Status::Done
}

/// The disk is plugged in.
pub fn plug<A: Allocator, S: SectorStore>(hba: &mut Hba<A, S>) -> Status
    ensures done { result ≡ Status.Done }
    ensures state { hba.new ≡ device_plugged hba.old }
{
    hba.plug();
    Status::Done
}

/// The interface fails under a FIS, by the error of this number.
pub fn fail_interface<A: Allocator, S: SectorStore>(
    hba: &mut Hba<A, S>,
    error: u32,
    is_fatal: bool,
) -> Status
    ensures { AnswersInterface (error_numbered error) is_fatal result hba.old hba.new }
{
    match error_numbered(error) {
        Some(error) => {
            hba.fail_interface(error, is_fatal);
            Status::Done
        }
        None => Status::BadKind,
    }
}

/// The error of the interface whose bit in PxSERR has this number.
fn error_numbered(number: u32) -> Option<InterfaceError>
    ensures { result ≡ error_numbered number }
{
    match number {
        19 => Some(InterfaceError::Decode),
        21 => Some(InterfaceError::Crc),
        22 => Some(InterfaceError::Handshake),
        23 => Some(InterfaceError::LinkSequence),
        24 => Some(InterfaceError::TransportState),
        _ => None,
    }
}

/// The device sends the signature of a device of the kind of this number.
pub fn sign_as<A: Allocator + Copy, S: SectorStore>(hba: &mut Hba<A, S>, kind: u32) -> Status
    ensures { AnswersSignAs (kind_numbered kind) result hba.old hba.new }
{
    match kind_numbered(kind) {
        Some(kind) => match hba.sign_as(kind) {
            Ok(()) => Status::Done,
            Err(_) => Status::NotReady,
        },
        None => Status::BadKind,
    }
}

/// The kind of device of this number.
fn kind_numbered(number: u32) -> Option<DeviceKind>
    ensures { result ≡ kind_numbered number }
{
    match number {
        0 => Some(DeviceKind::Disk),
        1 => Some(DeviceKind::Packet),
        2 => Some(DeviceKind::EnclosureBridge),
        3 => Some(DeviceKind::PortMultiplier),
        _ => None,
    }
}

/// The device sends a Set Device Bits FIS that no command asks for.
pub fn receive_bits<A: Allocator + Copy, S: SectorStore>(
    hba: &mut Hba<A, S>,
    notification: bool,
) -> Status
    ensures { AnswersBits notification result hba.old hba.new }
{
    match hba.receive_bits(notification) {
        Ok(()) => Status::Done,
        Err(_) => Status::NotReady,
    }
}

/// The device sends a D2H Register FIS that no command asks for.
pub fn receive_register<A: Allocator + Copy, S: SectorStore>(hba: &mut Hba<A, S>) -> Status
    ensures { AnswersRegister result hba.old hba.new }
{
    match hba.receive_register() {
        Ok(()) => Status::Done,
        Err(_) => Status::NotReady,
    }
}

/// The device sends a FIS of a type that isn't known.
pub fn receive_unknown<A: Allocator + Copy, S: SectorStore>(
    hba: &mut Hba<A, S>,
    fis: &[u8],
) -> Status
    ensures { AnswersUnknown fis.now result hba.old hba.new }
{
    if fis.len() > 28 {
        return Status::WrongLength;
    }
    let mut bytes = ArrayVec::new();
    bytes.try_extend_from_slice(fis).unwrap();
    match hba.receive_unknown(bytes) {
        Ok(()) => Status::Done,
        Err(_) => Status::NotReady,
    }
}
