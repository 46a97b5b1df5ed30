//! The port: what it holds, how one is made, and the calls that read it.

mod collect;
mod issue;
mod query;
mod recover;
mod registers;
mod reset;
mod serve;
mod step;
mod submit;
mod trim;
mod zero;

ghost use Rattle.std.specs.Prelude.{◌≡◌, ◌/◌, ◌<◌, ◌≤◌, None, length, replicate, IfOk};
ghost use Rattle.ahci_regs.specs.Reading.{read_of};
ghost use Rattle.ncq_core.specs.DiskState.{disk_over, new_fault, over_fault, IsDisk};
ghost use Rattle.ncq_journal.specs.{Halted.{halted}, Image.{sector_at}, Numbering.{number_of}, Owed.{owed}, Phase.{phase}, Sector.{sector}};
ghost use Rattle.ahci_port.specs.{Faults.{AnswersOr, most_first, over_refusal, resume_fault_of, resume_refusal}, Headline.{Headline}, PortView.{sectors_in, new_port, owner_of, port_from, port_over}, Registers.{acknowledged}};

use crate::fault::ResumeFault;
use crate::slot::{Slot, phase_in, place_in};
use crate::software::{started, write};
use crate::unqueued::UnqueuedTable;
use ahci_regs::{PortRegs, RegFault, Register};
use ncq_core::{Disk, DiskFault, over_fault, size_fault};
use ncq_journal::{Journal, Phase};
use sector_store::{SectorStore, Whole};
use std::alloc::{AllocError, Allocator, Global};
use std::marker::Model;

/// Room for a call's own entry, and for all that requests can need after it: four entries for each of 32 tags.
const ROOM: u64 = 129;

/// The highest number of a journal's first entry, 2^63: every later one fits a `u64`.
pub const MOST_FIRST: u64 = 1 << 63;

/// One AHCI port: its registers, command list, received FIS area and slots, the queueing disk behind it, and the journal of
/// what it has done. Contracts see a `PortView`, of which `headline` holds.
#[derive(Drop)]
pub struct Port<A: Allocator = Global, S: SectorStore = Whole<A>> {
    alloc: A,
    disk: Disk<S>,
    registers: PortRegs,
    area: [u8; 256],
    headers: [[u8; 32]; 32],
    unqueued: UnqueuedTable,
    slots: Vec<Option<Slot<A>>, A>,
    journal: Journal<A>,
}

impl<A: Allocator, S: SectorStore> Model for Port<A, S> {
    ghost use Rattle.ahci_port.specs.PortView.{PortView};
    ghost use Rattle.ahci_port.specs.Keeping.{Keeps};
    ghost use Rattle.ahci_port.specs.Slots.{view_of};

    ghost Value = { PortView };

    ghost view = { λ p. view_of p.disk.starting p.disk p.registers p.unqueued.sent p.area p.slots.items p.journal };

    ghost invariant = { λ p. Keeps p.disk.starting p.disk p.registers p.slots.items p.headers p.journal.past p.journal.room };
}

/// The fault of a port that goes on, where no disk was made.
fn resume_fault(fault: DiskFault) -> ResumeFault
    ensures { result ≡ resume_fault_of fault }
{
    match fault {
        DiskFault::BadSize => ResumeFault::BadSize,
        DiskFault::BadDepth => ResumeFault::BadDepth,
        DiskFault::OutOfMemory => ResumeFault::OutOfMemory,
    }
}

/// As many free slots as the depth.
fn free_slots<A: Allocator>(alloc: A, depth: u32) -> Result<Vec<Option<Slot<A>>, A>, AllocError>
    ensures { IfOk result (λ v. v.items ≡ replicate depth None) }
{
    let mut slots = Vec::new(alloc);
    for tag in 0..depth {
        slots.push(None)?;
    }
    Ok(slots)
}

/// The number of the entry at a place of a journal, counted back from its end, whose number fits.
fn number_at<A: Allocator>(journal: &Journal<A>, place: u64) -> u64
    requires { place < length journal.now.past }
    ensures { result ≡ number_of journal.now.first place }
{
    journal.end() - (journal.len() - place)
}

/// A received FIS area into which nothing has come.
fn empty_area() -> [u8; 256]
    ensures { result ≡ replicate 256 0 }
{
    [0; 256]
}

/// A command list without a command.
fn no_headers() -> [[u8; 32]; 32]
    ensures { length result ≡ 32 }
{
    [[0; 32]; 32]
}

impl<A: Allocator + Clone> Port<A> {
    /// A port over this image, with `depth` slots, which is started and has done nothing. It keeps a copy of the image as
    /// it is now.
    ///
    /// # Errors
    /// `BadSize` where the image is not 1 to 131,072 whole sectors of 512 bytes, `BadDepth` where the depth is not 1 to 32;
    /// else `OutOfMemory` where a growth was refused.
    pub fn new(alloc: A, image: Vec<u8, A>, depth: u32) -> Result<Self, DiskFault>
        ensures ok { IfOk result (λ p. p ≡ new_port image.items depth) }
        ensures fault { AnswersOr result (new_fault image.items depth) DiskFault.OutOfMemory }
    {
        Self::begin(alloc, image, depth, 0)
    }

    /// A port as `new` makes it, whose journal goes on from another one: its first entry has the number `first`.
    ///
    /// # Errors
    /// `BadSize` and `BadDepth` as for `new`, then `BadFirst` where `first` is over 2^63; else `OutOfMemory` where a growth was
    /// refused.
    pub fn resume(alloc: A, image: Vec<u8, A>, depth: u32, first: u64) -> Result<Self, ResumeFault>
        ensures ok { IfOk result (λ p. p ≡ port_from first image.items depth) }
        ensures fault { AnswersOr result (resume_refusal image.items depth first) ResumeFault.OutOfMemory }
    {
        if first > MOST_FIRST {
            return match size_fault(image.len(), depth) {
                Some(fault) => Err(resume_fault(fault)),
                None => Err(ResumeFault::BadFirst),
            };
        }
        match Self::begin(alloc, image, depth, first) {
            Ok(port) => Ok(port),
            Err(fault) => Err(resume_fault(fault)),
        }
    }

    /// A port over this image, whose journal's first entry has this number.
    fn begin(alloc: A, image: Vec<u8, A>, depth: u32, first: u64) -> Result<Self, DiskFault>
        requires { first ≤ most_first }
        ensures ok { IfOk result (λ p. p ≡ port_from first image.items depth) }
        ensures fault { AnswersOr result (new_fault image.items depth) DiskFault.OutOfMemory }
    {
        if let Some(fault) = size_fault(image.len(), depth) {
            return Err(fault);
        }
        let store = Whole::new(alloc.clone()?, image)?;
        Self::over_from(alloc, store, depth, first)
    }
}

impl<A: Allocator + Clone, S: SectorStore + Drop> Port<A, S> {
    /// A port over a store, with `depth` slots, which is started and has done nothing. The store keeps its sectors as they are now.
    ///
    /// # Errors
    /// `BadSize` where the store has no sectors or more than 2^32 - 1, `BadDepth` where the depth is not 1 to 32; else `OutOfMemory`
    /// where a growth was refused.
    pub fn over(alloc: A, store: S, depth: u32) -> Result<Self, DiskFault>
        requires { length (S.starting store) ≡ length (S.image store) }
        ensures ok { IfOk result (λ p. p ≡ port_over (S.grows store) 0 (S.image store) depth) }
        ensures fault { AnswersOr result (over_fault (length (S.image store) / 512) depth) DiskFault.OutOfMemory }
    {
        Self::over_from(alloc, store, depth, 0)
    }

    /// A port as `over` makes it, whose journal goes on from another one: its first entry has the number `first`.
    ///
    /// # Errors
    /// `BadSize` and `BadDepth` as for `over`, then `BadFirst` where `first` is over 2^63; else `OutOfMemory` where a growth was refused.
    pub fn resume_over(alloc: A, store: S, depth: u32, first: u64) -> Result<Self, ResumeFault>
        requires { length (S.starting store) ≡ length (S.image store) }
        ensures ok { IfOk result (λ p. p ≡ port_over (S.grows store) first (S.image store) depth) }
        ensures fault { AnswersOr result (over_refusal (length (S.image store) / 512) depth first) ResumeFault.OutOfMemory }
    {
        if first > MOST_FIRST {
            return match over_fault(store.sectors(), depth) {
                Some(fault) => Err(resume_fault(fault)),
                None => Err(ResumeFault::BadFirst),
            };
        }
        match Self::over_from(alloc, store, depth, first) {
            Ok(port) => Ok(port),
            Err(fault) => Err(resume_fault(fault)),
        }
    }

    /// A port over a store, whose journal's first entry has this number.
    fn over_from(alloc: A, store: S, depth: u32, first: u64) -> Result<Self, DiskFault>
        requires kept { length (S.starting store) ≡ length (S.image store) }
        requires first { first ≤ most_first }
        ensures ok { IfOk result (λ p. p ≡ port_over (S.grows store) first (S.image store) depth) }
        ensures fault { AnswersOr result (over_fault (length (S.image store) / 512) depth) DiskFault.OutOfMemory }
    {
        let mut disk = Disk::over(store, depth)?;
        disk.keep();
        let depth = disk.depth();
        match Self::made_of(alloc, disk, depth, first) {
            Ok(port) => Ok(port),
            Err(refused) => Err(refused.into()),
        }
    }

    /// The port of a new disk that has kept its image.
    fn made_of(alloc: A, disk: Disk<S>, depth: u32, first: u64) -> Result<Self, AllocError>
        requires new { disk ≡ disk_over disk.image disk.image disk.grows disk.reserved depth }
        requires disk { IsDisk (disk_over disk.image disk.image disk.grows disk.reserved depth) }
        requires first { first ≤ most_first }
        ensures { IfOk result (λ p. p ≡ port_over disk.grows first disk.image depth) }
    {
        let slots = free_slots(alloc.clone()?, depth)?;
        let journal = Journal::starting_at(alloc.clone()?, first);
        Ok(Port {
            alloc,
            disk,
            registers: started(depth),
            area: empty_area(),
            headers: no_headers(),
            unqueued: UnqueuedTable::new(),
            slots,
            journal,
        })
    }
}

impl<A: Allocator + Clone, S: SectorStore> Port<A, S> {
    /// A copy of some bytes.
    fn copy_of(alloc: &A, bytes: &[u8]) -> Result<Vec<u8, A>, AllocError>
        ensures { IfOk result (λ v. v.items ≡ bytes.now) }
    {
        Vec::from_slice(alloc.clone()?, bytes)
    }
}

impl<A: Allocator, S: SectorStore> Port<A, S> {
    /// The phase of a tag, by its slot.
    pub fn phase(&self, tag: u8) -> Phase
        ensures { result ≡ phase self.now.past tag }
    {
        phase_in(&self.slots, tag)
    }

    /// The number of the request that owns a tag's slot.
    pub fn owner(&self, tag: u8) -> Option<u64>
        ensures { result ≡ owner_of self.now tag }
    {
        match place_in(&self.slots, tag) {
            Some(place) => Some(number_at(&self.journal, place)),
            None => None,
        }
    }

    /// The word that a read of the register at an offset gives (AHCI 1.3.1, sections 3.1 and 3.3): `Unaligned` where the
    /// offset isn't a multiple of 4, `NoSuchRegister` if this model has no register there.
    pub fn register(&self, off: u32) -> Result<u32, RegFault>
        ensures { result ≡ read_of self.now.registers off }
    {
        self.registers.read(off)
    }

    /// Software acknowledges interrupts: it writes a word to PxIS, in which a 1 clears (AHCI 1.3.1, section 3.3.5).
    pub fn acknowledge(&mut self, mask: u32)
        ensures { self.new ≡ record self.old { registers = acknowledged self.old.registers mask } }
    {
        write(&mut self.registers, Register::PxIs, mask);
    }

    /// The received FIS area (AHCI 1.3.1, section 4.2.1): the last DMA Setup at 00h, PIO Setup at 20h, D2H Register at 40h
    /// and Set Device Bits at 58h.
    pub fn received(&self) -> &[u8; 256]
        ensures { result.now ≡ self.now.area }
    {
        &self.area
    }

    /// Whether a command has failed and the port has not recovered.
    pub fn halted(&self) -> bool
        ensures { result ≡ halted self.now.past }
    {
        self.disk.stopped()
    }

    /// How many slots there are.
    pub fn depth(&self) -> u32
        ensures { result ≡ self.now.depth }
    {
        self.disk.depth()
    }

    /// How many sectors of 512 bytes the disk has.
    pub fn sectors(&self) -> u32
        ensures { result ≡ sectors_in self.now }
    {
        self.disk.sectors()
    }

    /// What the port has done since it was made, trimmed or reset. There is room in the journal for all that its requests can still
    /// need.
    pub fn journal(&self) -> &Journal<A>
        ensures first { result.now.first ≡ self.now.first }
        ensures past { result.now.past ≡ self.now.past }
        ensures room { owed self.now.past ≤ result.now.room }
        ensures room_is { result.now.room ≡ self.now.room }
        ensures held { result.now.held ≡ self.now.held }
        ensures headline { Headline self.now }
    {
        &self.journal
    }

    /// Copies the sector at `lba` as it is now.
    pub fn copy(&self, lba: u64, out: &mut [u8])
        requires within { lba < sectors_in self.now }
        requires len { length out.old ≡ 512 }
        ensures { out.new ≡ sector self.now.starting self.now.past lba }
    {
        self.disk.copy(lba, out);
    }

    /// Copies the sector at `lba` as it was when the port was made, last trimmed or last reset.
    pub fn starting(&self, lba: u64, out: &mut [u8])
        requires within { lba < sectors_in self.now }
        requires len { length out.old ≡ 512 }
        ensures { out.new ≡ sector_at self.now.starting lba }
    {
        self.disk.copy_starting(lba, out);
    }
}
