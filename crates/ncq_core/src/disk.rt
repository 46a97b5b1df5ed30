//! The queueing disk: its image, its outstanding tags, its error.

mod answers;
mod data;
mod error;
mod identify;
mod log;
mod serve;
mod take;

ghost use Rattle.std.specs.Prelude.{◌≡◌, ◌⊎◌, ◌+◌, ◌*◌, ◌/◌, ◌<◌, ◌≤◌, ◌^◌, None, Some, false, true, ◌&&◌, length, is_some, IfOk, IfErr, IfSome, OnOk, OnErr};
ghost use Rattle.std.specs.Option.{option_copied};
ghost use Rattle.word_bits.specs.Places.{bits};
ghost use Rattle.ncq_journal.specs.Image.{IsZeroedOver, sector_at};
ghost use Rattle.sector_store.specs.{Reserved.{AreReserved, StayReserved}, Room.{MakesRoom}, Shown.{ChangesAmong}};
ghost use Rattle.ncq_core.specs.DiskState.{IsDisk, command_of, disk_over, disk_sectors, is_bad_depth, is_reserved_in, is_stopped, new_disk, new_fault, no_commands, outstanding, over_fault, reserved_of, size_fault};
ghost use Rattle.ncq_core.specs.DiskFis.{completed_bytes, pio_bytes, flushed_bytes};
ghost use Rattle.ncq_core.specs.Serving.{HasRoom};
ghost use Rattle.ncq_core.specs.Verdict.{stopped_by};
ghost use Rattle.ncq_core.specs.Identify.{identify_page};

use crate::disk::data::DATA_FIS;
use crate::disk::error::DiskError;
pub use crate::disk::identify::identify_page;
pub use crate::disk::log::log_page;
use crate::disk_fault::DiskFault;
use ncq_journal::Journal;
use sata_fis::Queued;
use sector_store::{SectorStore, Sectors, Single, Whole};
use std::alloc::{AllocError, Allocator};
use std::marker::Model;
use word_bits::with_bit;

/// How many bytes a sector has (ACS-3, "Logical sector").
pub const SECTOR: usize = 512;

/// How many sectors a disk has at most whose image is in memory as a whole.
pub const MAX_SECTORS: u32 = 131_072;

/// How many slots a disk has at most.
pub const MAX_DEPTH: u32 = 32;

/// A queueing disk over what holds its sectors (ACS-3, "Native Command Queuing feature set"). Commands are taken by their
/// FISes, and served or failed in any order. Contracts see a `DiskState`, of which `IsDisk` holds.
#[derive(Drop)]
pub struct Disk<S: SectorStore = Single> {
    store: S,
    depth: u32,
    commands: [Option<Queued>; 32],
    error: Option<DiskError>,
    /// What IDENTIFY DEVICE reads. It depends on the number of sectors and the depth alone, so it is made once.
    page: [u8; 512],
    /// Room in which a Data FIS is put together.
    room: [u8; DATA_FIS],
}

impl<S: SectorStore> Model for Disk<S> {
    ghost use Rattle.std.specs.Prelude.{◌≡◌, ◌/◌, length};
    ghost use Rattle.ncq_core.specs.DiskState.{DiskState, IsDisk, reserved_of};
    ghost use Rattle.ncq_core.specs.Identify.{identify_page};

    ghost Value = { DiskState };

    ghost view = { λ d. record { image = S.image d.store; starting = S.starting d.store; grows = S.grows d.store; reserved = reserved_of (S.is_reserved d.store) (length (S.image d.store) / 512); depth = d.depth; commands = d.commands; error = d.error } };

    ghost invariant = { λ d. IsDisk (record { image = S.image d.store; starting = S.starting d.store; grows = S.grows d.store; reserved = reserved_of (S.is_reserved d.store) (length (S.image d.store) / 512); depth = d.depth; commands = d.commands; error = d.error })
        × (d.page ≡ identify_page (length (S.image d.store) / 512) d.depth) };
}

/// Whether there is no disk of so many tags.
fn is_bad_depth(depth: u32) -> bool
    ensures { result ≡ is_bad_depth depth }
{
    depth == 0 || depth > MAX_DEPTH
}

/// Why no disk is made of an image of so many bytes, with so many tags: `BadSize` where the image is not 1 to 131,072 whole sectors of
/// 512 bytes, `BadDepth` where the depth is not 1 to 32.
pub fn size_fault(bytes: usize, depth: u32) -> Option<DiskFault>
    ensures { result ≡ size_fault bytes depth }
{
    if bytes == 0 || bytes % SECTOR != 0 || bytes / SECTOR > MAX_SECTORS as usize {
        return Some(DiskFault::BadSize);
    }
    if is_bad_depth(depth) {
        return Some(DiskFault::BadDepth);
    }
    None
}

/// Why no disk is made over a store of so many sectors, with so many tags: `BadSize` where it has none or more than 2^32 - 1, `BadDepth`
/// where the depth is not 1 to 32.
pub fn over_fault(sectors: u64, depth: u32) -> Option<DiskFault>
    ensures { result ≡ over_fault sectors depth }
{
    if sectors == 0 || sectors > u64::from(u32::MAX) {
        return Some(DiskFault::BadSize);
    }
    if is_bad_depth(depth) {
        return Some(DiskFault::BadDepth);
    }
    None
}

impl<A: Allocator> Disk<Single<A>> {
    /// A disk over this image, with nothing outstanding and no error. It takes no memory.
    ///
    /// # Errors
    /// `BadSize` where the image is not 1 to 131,072 whole sectors of 512 bytes, `BadDepth` where the depth is not 1 to 32.
    pub fn new(image: Vec<u8, A>, depth: u32) -> Result<Self, DiskFault>
        ensures ok { IfOk result (λ d. (new_fault image.items depth ≡ None) × (d ≡ new_disk image.items depth)) }
        ensures err { IfErr result (λ e. new_fault image.items depth ≡ Some e) }
    {
        match size_fault(image.len(), depth) {
            Some(fault) => Err(fault),
            None => Disk::over(Single::new(image), depth),
        }
    }

    /// The sectors as they are now, one after the other.
    pub fn image(&self) -> &[u8]
        ensures { result.now ≡ self.now.image }
    {
        self.store.bytes()
    }
}

impl<A: Allocator> Disk<Whole<A>> {
    /// The sectors as they were when they were last kept, one after the other.
    pub fn starting_image(&self) -> &[u8]
        ensures { result.now ≡ self.now.starting }
    {
        self.store.starting_bytes()
    }
}

impl<A: Allocator> Disk<Sectors<A>> {
    /// The numbers of the pages of eight sectors that may have changed since they were last kept; nothing if the store doesn't grow, since
    /// that isn't known then.
    pub fn touched(&self) -> Option<&[u32]>
        ensures known { is_some (option_copied result) ≡ self.now.grows }
        ensures pages { IfSome (option_copied result) (λ touched. ChangesAmong touched self.now.image self.now.starting) }
    {
        self.store.touched()
    }
}

impl<S: SectorStore + Drop> Disk<S> {
    /// A disk over a store, with nothing outstanding and no error. It takes no memory.
    ///
    /// # Errors
    /// `BadSize` where the store has no sectors or more than 2^32 - 1, `BadDepth` where the depth is not 1 to 32.
    pub fn over(store: S, depth: u32) -> Result<Self, DiskFault>
        ensures ok { IfOk result (λ d. (over_fault (length (S.image store) / 512) depth ≡ None) × (d ≡ disk_over (S.image store) (S.starting store) (S.grows store) (reserved_of (S.is_reserved store) (length (S.image store) / 512)) depth)) }
        ensures err { IfErr result (λ e. over_fault (length (S.image store) / 512) depth ≡ Some e) }
    {
        let sectors = store.sectors();
        if let Some(fault) = over_fault(sectors, depth) {
            return Err(fault);
        }
        Ok(Disk {
            store,
            depth,
            commands: no_commands(),
            error: None,
            page: identify_page(sectors as u32, depth),
            room: [0; DATA_FIS],
        })
    }
}

impl<S: SectorStore> Disk<S> {
    /// Whether there is an error condition. `read_log` ends it.
    pub fn stopped(&self) -> bool
        ensures { result ≡ is_stopped self.now }
    {
        self.error.is_some()
    }

    /// How many sectors of 512 bytes the image has.
    pub fn sectors(&self) -> u32
        ensures sectors { result ≡ disk_sectors self.now }
        ensures disk { IsDisk self.now }
    {
        self.store.sectors() as u32
    }

    /// How many tags there are.
    pub fn depth(&self) -> u32
        ensures depth { result ≡ self.now.depth }
        ensures disk { IsDisk self.now }
    {
        self.depth
    }

    /// The word with the bit of each tag at which a command is outstanding.
    #[tactic(auto, using(ncq_journal::proofs::SetLemmas::among_none, ncq_journal::proofs::SetLemmas::among_with, ncq_journal::proofs::SetLemmas::among_without))]
    pub fn tags(&self) -> u32
        ensures { bits result ≡ outstanding self.now }
    {
        let mut word = 0;
        for tag in 0..32u8 {
            if self.commands[usize::from(tag)].is_some() {
                word = with_bit(word, tag);
            }
        }
        word
    }

    /// Copies a sector, whose LBA is below `sectors`, into 512 bytes.
    pub fn copy(&self, lba: u64, out: &mut [u8])
        requires sector { lba < disk_sectors self.now }
        requires room { length out.old ≡ 512 }
        ensures { out.new ≡ sector_at self.now.image lba }
    {
        self.store.read(lba, out);
    }

    /// Copies a sector, whose LBA is below `sectors`, as it was when it was last kept, into 512 bytes.
    pub fn copy_starting(&self, lba: u64, out: &mut [u8])
        requires sector { 512 * (lba + 1) ≤ length self.now.starting }
        requires room { length out.old ≡ 512 }
        ensures { out.new ≡ sector_at self.now.starting lba }
    {
        self.store.read_starting(lba, out);
    }

    /// Takes the memory that serving a command needs: none unless it is a write, all of whose sectors are on the disk.
    ///
    /// # Errors
    /// If there is no memory, which only a write lacks, to a store that grows. Nothing but what is reserved has changed then.
    pub fn reserve(&mut self, command: &Queued) -> Result<(), AllocError>
        ensures ok { OnOk result (HasRoom (disk_sectors self.old) self.new.reserved command.now.write command.now.lba command.now.sectors) }
        ensures lacking { OnErr result ((command.now.write ≡ true) × ((S.can_grow && self.old.grows) ≡ true)) }
        ensures stay { StayReserved (is_reserved_in self.old.reserved) (is_reserved_in self.new.reserved) }
        ensures state { self.new ≡ record self.old { reserved = self.new.reserved } }
    {
        if command.write && !self.is_past_end(command) {
            self.reserve_run(command.lba, u64::from(command.sectors))?;
        }
        Ok(())
    }

    /// Takes the memory that a write of these sectors needs.
    #[tactic(auto, using(crate::proofs::DiskLemmas::is_disk_moved, crate::proofs::ReservedLemmas::listed_reserved, crate::proofs::ReservedLemmas::listed_stay))]
    fn reserve_run(&mut self, lba: u64, sectors: u64) -> Result<(), AllocError>
        requires { lba + sectors ≤ disk_sectors self.old }
        ensures ok { OnOk result (AreReserved (is_reserved_in self.new.reserved) lba sectors) }
        ensures lacking { OnErr result ((S.can_grow && self.old.grows) ≡ true) }
        ensures stay { StayReserved (is_reserved_in self.old.reserved) (is_reserved_in self.new.reserved) }
        ensures state { self.new ≡ record self.old { reserved = self.new.reserved } }
    {
        self.store.reserve(lba, sectors)?;
        Ok(())
    }

    /// Makes these sectors zeros, and gives the memory back that the store no longer needs for them. Before the first of them changes, a journal has room
    /// for `count` more entries. What was reserved of them may no longer be.
    ///
    /// # Errors
    /// If there is no memory for the sectors, which only a store lacks that grows, or for the room. No sector and no room changes then, and what was reserved is.
    #[tactic(auto, using(crate::proofs::DiskLemmas::is_disk_moved, crate::proofs::ReservedLemmas::listed_stay))]
    pub fn zero<J: Allocator>(
        &mut self,
        lba: u64,
        sectors: u64,
        journal: &mut Journal<J>,
        count: u64,
    ) -> Result<(), AllocError>
        requires { lba + sectors ≤ disk_sectors self.old }
        ensures ok { OnOk result (IsZeroedOver lba sectors self.old.image self.new.image) }
        ensures err { OnErr result (self.new.image ≡ self.old.image) }
        ensures room { OnOk result (MakesRoom count journal.old journal.new) }
        ensures journal { OnErr result (journal.new ≡ journal.old) }
        ensures lacking { OnErr result (((S.can_grow && self.old.grows) ≡ true) ⊎ (journal.old.held < length journal.old.past + count)) }
        ensures len { length self.new.image ≡ length self.old.image }
        ensures held { OnErr result (StayReserved (is_reserved_in self.old.reserved) (is_reserved_in self.new.reserved)) }
        ensures state { self.new ≡ record self.old { image = self.new.image; reserved = self.new.reserved } }
    {
        self.store.zero(lba, sectors, journal, count)
    }

    /// Keeps the sectors as they are now. It takes no memory, and what was reserved may no longer be.
    #[tactic(auto, using(crate::proofs::DiskLemmas::is_disk_moved))]
    pub fn keep(&mut self)
        requires { length self.old.starting ≡ length self.old.image }
        ensures { self.new ≡ record self.old { starting = self.old.image; reserved = self.new.reserved } }
    {
        self.store.keep();
    }

    /// The page that IDENTIFY DEVICE reads (ACS-3, "IDENTIFY DEVICE").
    pub fn identify(&self) -> [u8; 512]
        ensures { result ≡ identify_page (disk_sectors self.now) self.now.depth }
    {
        self.page
    }

    /// Resets the device (Serial ATA, COMRESET and software reset): every command that is outstanding is dropped, and so is the
    /// error. No sector changes. It takes no memory.
    pub fn reset(&mut self)
        ensures { self.new ≡ record self.old { commands = no_commands; error = None } }
    {
        self.commands = no_commands();
        self.error = None;
    }

    /// The command outstanding at a tag.
    fn command(&self, tag: u8) -> Option<Queued>
        ensures { result ≡ command_of self.now tag }
    {
        self.commands.get(usize::from(tag)).copied().flatten()
    }

    /// Enters an error condition, which ends every command.
    fn stop(&mut self, tag: u8, error: u8, lba: u64)
        requires tag { tag < 32 }
        requires lba { lba < 2 ^ 48 }
        ensures { self.new ≡ stopped_by self.old (record { tag = tag; error = error; lba = lba }) }
    {
        self.commands = no_commands();
        self.error = Some(DiskError { tag, error, lba });
    }
}

// What no disk differs in: a caller of these names no allocator.
impl Disk {
    /// The PIO Setup FIS before the 512 bytes of a page.
    pub fn pio_setup() -> [u8; 20]
        ensures { result ≡ pio_bytes }
    {
        answers::pio_setup()
    }

    /// The Set Device Bits FIS that says that the commands of a word's tags are completed (Serial ATA, "Set Device Bits").
    pub fn completed(word: u32) -> [u8; 8]
        ensures { result ≡ completed_bytes word }
    {
        answers::completed(word)
    }

    /// The Register FIS - Device to Host that ends a FLUSH CACHE EXT.
    pub fn flushed() -> [u8; 20]
        ensures { result ≡ flushed_bytes }
    {
        answers::flushed()
    }
}

/// No command at any of the 32 tags.
#[tactic(auto, unfolding(crate::specs::DiskState::no_commands))]
fn no_commands() -> [Option<Queued>; 32]
    ensures { result ≡ no_commands }
{
    [None; 32]
}
