//! How another disk is plugged in.

ghost use Rattle.std.specs.Prelude.{◌≡◌, ◌/◌, length, false, true, None, IfOk, OnErr, OnOk};
ghost use Rattle.sector_store.specs.Shown.{buffer_sector, joined};
ghost use Rattle.ahci_ffi.specs.Told.{ToldOr};
ghost use Rattle.ahci_port.specs.PortView.{journal_in};
ghost use Rattle.ahci_hba.specs.Plugging.{other_plugged, plug_refusal};
ghost use Rattle.hba_ffi.specs.Naming.{identity_of, is_identity};
ghost use Rattle.hba_ffi.specs.Plugging.{AnswersOther, HasOther, other_refusal};

use crate::flat::FlatIdentity;
use crate::held::CHba;
use crate::settings::{identity_of, is_identity};
use ahci_ffi::{Status, over_refusal};
use ahci_hba::PlugFault;
use ahci_port::{Journal, ResumeFault};
use hba_command::Identity;
use sector_store::{SectorStore, Sectors};
use std::alloc::{AllocError, Global};

/// Why no other disk is plugged in, memory aside.
fn other_refusal(hba: &CHba, sectors: u32, depth: u32, identity: &FlatIdentity) -> Option<Status>
    ensures { result ≡ other_refusal hba.now sectors depth identity.now }
{
    if hba.registers().is_present() {
        return Some(Status::NotReady);
    }
    if let Some(refusal) = over_refusal(sectors, depth, hba.port().journal().end()) {
        return Some(refusal);
    }
    if !is_identity(identity) {
        return Some(Status::BadKind);
    }
    None
}

/// A disk over a store is plugged in, with which nothing is wrong.
fn plug_over(
    hba: &mut CHba,
    store: Sectors,
    depth: u32,
    identity: &Identity,
) -> Result<Journal<Global>, AllocError>
    requires kept { length (⟦<Sectors as SectorStore>⟧.starting store) ≡ length (⟦<Sectors as SectorStore>⟧.image store) }
    requires right { plug_refusal hba.old (length (⟦<Sectors as SectorStore>⟧.image store) / 512) depth ≡ None }
    ensures journal { IfOk result (λ j. j ≡ journal_in hba.old.port) }
    ensures ok { OnOk result (hba.new ≡ other_plugged hba.old (⟦<Sectors as SectorStore>⟧.grows store) (⟦<Sectors as SectorStore>⟧.image store) identity.now depth) }
    ensures err { OnErr result (hba.new ≡ hba.old) }
{
    match hba.plug_other(store, identity, depth) {
        Ok(journal) => Ok(journal),
        Err(PlugFault::Disk(ResumeFault::OutOfMemory)) => Err(AllocError),
        Err(_) => unreachable!(), // nothing is wrong with it
    }
}

/// Another disk is plugged in, of which nothing but memory can be lacking.
fn plug_named(
    hba: &mut CHba,
    heap: Global,
    base: &'static [u8],
    sectors: u32,
    depth: u32,
    identity: &FlatIdentity,
    entries: &mut u64,
) -> Status
    requires { other_refusal hba.old sectors depth identity.now ≡ None }
    ensures { ToldOr result None (HasOther base.now sectors depth identity.now hba.old hba.new entries.new) ((hba.new ≡ hba.old) × (entries.new ≡ entries.old)) }
{
    let store = match Sectors::over(heap, base, u64::from(sectors)) {
        Ok(store) => store,
        Err(refused) => return refused.into(),
    };
    match plug_over(hba, store, depth, &identity_of(identity)) {
        Ok(journal) => {
            *entries = journal.len();
            Status::Done
        }
        Err(refused) => refused.into(),
    }
}

/// Another disk of so many sectors is plugged in, which are those of these bytes, and zeros after them, until they are written. The bytes never change.
/// `entries` is how many entries the journal of the disk had that was pulled out.
pub fn plug_other(
    hba: &mut CHba,
    heap: Global,
    base: &'static [u8],
    sectors: u32,
    depth: u32,
    identity: &FlatIdentity,
    entries: &mut u64,
) -> Status
    ensures { AnswersOther base.now sectors depth identity.now result hba.old hba.new entries.old entries.new }
{
    if let Some(refusal) = other_refusal(hba, sectors, depth, identity) {
        return refusal;
    }
    plug_named(hba, heap, base, sectors, depth, identity, entries)
}
