//! How the answer to a command is put together.

ghost use Rattle.std.specs.Prelude.{◌≡◌, ◌≤◌, ◌<◌, ◌^◌, not, ◌||◌, true, IfErr, IfOk, OnErr, OnOk};
ghost use Rattle.hba_memory.specs.DmaWrites.{listed};
ghost use Rattle.hba_memory.specs.Processing.{has_processed};
ghost use Rattle.hba_memory.specs.Reading.{is_write};
ghost use Rattle.ahci_table.specs.Fit.{IsFit};
ghost use Rattle.ahci_hba.specs.Delivering.{answer_with, answered, beginning, beginning_by, bytes_for, closing, count_put, d2h_fis, delivered, dma_answer, done, finish_of, fis_ending, is_pio, page_answer, page_writes, queue_answer, queued_answer, queued_writes, read_answer, read_writes, received_put, sectors_answer, sends_data, served_answer, setup_fis, setup_put};
ghost use Rattle.ahci_hba.specs.Stepping.{fault_if, may_deliver};
ghost use Rattle.ahci_hba.specs.Transfer.{fits, moved_to};

use crate::dma_state::DmaState;
use crate::ending::Ending;
use crate::fault::HbaFault;
use crate::hba::Hba;
use crate::hba::answer::{DMA_SETUP, PIO_SETUP, REGISTER, SET_BITS};
use crate::last_fis::LastFis;
use crate::transfer::Transfer;
use ahci_port::Window;
use arrayvec::ArrayVec;
use hba_command::{Action, PrdEntry, Protocol, Task, action_of, block_sectors};
use hba_memory::{Blocks, DmaWrites, Scatter, SmallPut, has_processed, is_write, total};
use hba_regs::Slot;
use sata_fis::{D2h, Fis, PioSetup};
use sector_store::SectorStore;
use std::alloc::{AllocError, Allocator};
use std::mem;

/// A D2H Register FIS with I.
pub(super) fn d2h_fis(status: u8, error: u8, lba: u64, count: u16) -> D2h
    requires { lba < 2 ^ 48 }
    ensures { result ≡ d2h_fis status error lba count }
{
    D2h {
        i: true,
        status,
        error,
        lba,
        device: 0,
        count,
    }
}

/// The FIS of a command that is done.
pub(super) fn done() -> D2h
    ensures { result ≡ done }
{
    d2h_fis(0x40, 0, 0, 0)
}

/// What a D2H Register FIS that ends a slot's command says to the registers.
pub(super) fn fis_ending(slot: Slot, fis: &D2h) -> LastFis
    ensures { result ≡ fis_ending slot fis.now }
{
    LastFis::Register {
        status: fis.status,
        error: fis.error,
        interrupt: true,
        slot,
    }
}

/// Whether a list has room for so many bytes.
pub(super) fn fits(bytes: u32, list: &[PrdEntry]) -> bool
    ensures { result ≡ fits bytes list.now }
{
    u128::from(bytes) <= total(list)
}

/// How many of so many bytes a list has room for.
pub(super) fn moved_to(bytes: u32, list: &[PrdEntry]) -> u32
    ensures { result ≡ moved_to bytes list.now }
{
    u128::from(bytes).min(total(list)) as u32
}

/// The FIS that ends a transfer by PIO that has not failed: a write's; the last block ends a read.
fn finish_of(write: bool) -> Option<D2h>
    ensures { result ≡ finish_of write }
{
    if write { Some(done()) } else { None }
}

/// A PIO Setup FIS for a block of so many sectors, to the host or to the device.
fn setup_fis(d: bool, i: bool, e_status: u8, sectors: u32) -> PioSetup
    requires { sectors ≤ 16 }
    ensures { result ≡ setup_fis d i e_status sectors }
{
    PioSetup {
        i,
        d,
        status: 0x48, // DRDY and DRQ
        error: 0,
        lba: 0,
        device: 0,
        count: 0,
        e_status,
        bytes: (512 * sectors) as u16,
    }
}

/// The bytes of a window that go to the driver: those of a read, none of a write.
fn bytes_for<A: Allocator + Copy>(
    alloc: A,
    task: &Task,
    window: &Window<A>,
) -> Result<Vec<u8, A>, AllocError>
    requires { IsFit window.now }
    ensures ok { IfOk result (λ v. v.items ≡ bytes_for task.now window.now) }
    ensures lacking { OnErr result (not (is_write task.now) ≡ true) }
{
    if is_write(task) {
        return Ok(Vec::new(alloc));
    }
    window.text(alloc)
}

impl<A: Allocator, S: SectorStore> Hba<A, S> {
    /// These bytes, for a place of the driver's received FIS area; none while FRE is 0.
    pub(super) fn received_put(&self, place: u8, bytes: ArrayVec<u8, 28>) -> Option<SmallPut>
        ensures { listed result ≡ received_put self.now.registers place bytes.items }
    {
        if !self.registers.is_receiving() {
            return None;
        }
        let address = self
            .registers
            .received_base()
            .wrapping_add(u64::from(place));
        Some(SmallPut::new(address, bytes))
    }

    /// PRDBC of a slot's header.
    pub(super) fn count_put(&self, slot: Slot, moved: u32) -> Option<SmallPut>
        ensures { listed result ≡ count_put self.now.registers slot moved }
    {
        let place = 32 * u64::from(slot.number()) + 4;
        let mut bytes = ArrayVec::new();
        bytes.try_extend_from_slice(&moved.to_le_bytes()).unwrap();
        let address = self.registers.list_base().wrapping_add(place);
        Some(SmallPut::new(address, bytes))
    }

    /// A PIO Setup FIS for a block of so many sectors, to the host or to the device.
    pub(super) fn setup_put(&self, d: bool, i: bool, e_status: u8, sectors: u32) -> Option<SmallPut>
        requires { sectors ≤ 16 }
        ensures { listed result ≡ setup_put self.now.registers d i e_status sectors }
    {
        let fis = setup_fis(d, i, e_status, sectors);
        self.received_put(PIO_SETUP, Fis::PioSetup(fis).encode())
    }

    /// What the answer to a queued command writes: a DMA Setup FIS, a read's data, and a Set Device Bits FIS.
    fn queued_writes(&self, content: Scatter<A>) -> DmaWrites<A>
        ensures { result ≡ queued_writes self.now.registers self.now.port content }
    {
        DmaWrites::new(
            self.fis_put(DMA_SETUP, 28),
            content,
            None,
            self.fis_put(SET_BITS, 8),
        )
    }

    /// What a read by DMA writes: the data, PRDBC, and a D2H Register FIS.
    fn read_writes(&self, slot: Slot, content: Scatter<A>, moved: u32, fis: D2h) -> DmaWrites<A>
        ensures { result ≡ read_writes self.now.registers slot content moved fis }
    {
        DmaWrites::new(
            None,
            content,
            self.count_put(slot, moved),
            self.received_put(REGISTER, Fis::D2h(fis).encode()),
        )
    }

    /// What the answer with a page by PIO writes: a PIO Setup FIS, the page, and PRDBC.
    fn page_writes(&self, slot: Slot, content: Scatter<A>, moved: u32) -> DmaWrites<A>
        ensures { result ≡ page_writes self.now.registers slot content moved }
    {
        DmaWrites::new(
            self.setup_put(true, true, 0x40, 1),
            content,
            self.count_put(slot, moved),
            None,
        )
    }

    /// The answer to a queued command that the port has done.
    fn queued_answer(
        &mut self,
        slot: Slot,
        list: Vec<PrdEntry, A>,
        bytes: Vec<u8, A>,
        whole: bool,
        count: u32,
    )
        ensures { self.new ≡ queued_answer self.old slot list.items bytes.items whole count }
    {
        let processed = has_processed(&list, count);
        let bits = LastFis::Bits {
            status: 0x40,
            error: 0,
            sactive: 1 << slot.number(),
        };
        let writes = self.queued_writes(Scatter::new(list, bytes));
        self.answer(writes, Ending::of_data(whole, processed, bits));
    }

    /// The answer to a read by DMA, of so many bytes, with the FIS that ends it.
    pub(super) fn read_answer(
        &mut self,
        slot: Slot,
        list: Vec<PrdEntry, A>,
        bytes: Vec<u8, A>,
        count: u32,
        fis: D2h,
    )
        ensures { self.new ≡ read_answer self.old slot list.items bytes.items count fis }
    {
        let whole = fits(count, &list);
        let moved = moved_to(count, &list);
        let processed = has_processed(&list, count);
        let last = fis_ending(slot, &fis);
        let writes = self.read_writes(slot, Scatter::new(list, bytes), moved, fis);
        self.answer(writes, Ending::of_data(whole, processed, last));
    }

    /// The answer with a page by PIO.
    pub(super) fn page_answer(&mut self, slot: Slot, list: Vec<PrdEntry, A>, page: Vec<u8, A>)
        ensures { self.new ≡ page_answer self.old slot list.items page.items }
    {
        let whole = fits(512, &list);
        let moved = moved_to(512, &list);
        let processed = has_processed(&list, 512);
        let last = LastFis::Pio { slot };
        let writes = self.page_writes(slot, Scatter::new(list, page), moved);
        self.answer(writes, Ending::of_data(whole, processed, last));
    }

    /// A transfer by PIO begins, of so many sectors in blocks of at most so many.
    pub(super) fn begin(
        &mut self,
        slot: Slot,
        write: bool,
        sectors: u32,
        most: u32,
        rest: Blocks<A>,
        finish: Option<D2h>,
    )
        requires sectors { sectors ≤ 65536 }
        requires some { 1 ≤ most }
        requires most { most ≤ 16 }
        ensures { self.new ≡ beginning self.old slot write sectors most rest finish }
    {
        let transfer = Transfer::new(slot, write, sectors, most, rest, finish);
        self.turn_to(DmaState::Pio(transfer));
    }

    /// The same for a command that moves its data so.
    pub(super) fn begin_by(
        &mut self,
        slot: Slot,
        protocol: Protocol,
        write: bool,
        sectors: u32,
        rest: Blocks<A>,
        finish: Option<D2h>,
    )
        requires sectors { sectors ≤ 65536 }
        ensures { self.new ≡ beginning_by self.old slot protocol write sectors rest finish }
    {
        let most = block_sectors(self.device.multiple, protocol);
        self.begin(slot, write, sectors, most, rest, finish);
    }
}

impl<A: Allocator + Copy, S: SectorStore> Hba<A, S> {
    /// The end of a command whose data have moved, with the last byte of an entry with I or not: PRDBC, and a D2H Register FIS.
    pub(super) fn close(&mut self, slot: Slot, moved: u32, processed: bool, fis: D2h)
        ensures { self.new ≡ closing self.old slot moved processed fis }
    {
        let last = fis_ending(slot, &fis);
        let content = Scatter::new(Vec::new(self.alloc), Vec::new(self.alloc));
        let writes = self.read_writes(slot, content, moved, fis);
        self.answer(writes, Ending::of_data(true, processed, last));
    }

    /// The answer to a queued command; the list of a write has room for its data.
    fn queue_answer(
        &mut self,
        slot: Slot,
        write: bool,
        list: Vec<PrdEntry, A>,
        bytes: Vec<u8, A>,
        count: u32,
    )
        ensures { self.new ≡ queue_answer self.old slot write list.items bytes.items count }
    {
        let whole = write || fits(count, &list);
        self.queued_answer(slot, list, bytes, whole, count);
    }

    /// The answer to a command by DMA.
    fn dma_answer(
        &mut self,
        slot: Slot,
        write: bool,
        list: Vec<PrdEntry, A>,
        bytes: Vec<u8, A>,
        count: u32,
    )
        ensures { self.new ≡ dma_answer self.old slot write list.items bytes.items count }
    {
        if write {
            self.close(slot, count, has_processed(&list, count), done());
        } else {
            self.read_answer(slot, list, bytes, count, done());
        }
    }

    /// The answer to a command that has moved so many sectors.
    fn sectors_answer(
        &mut self,
        slot: Slot,
        protocol: Protocol,
        write: bool,
        list: Vec<PrdEntry, A>,
        bytes: Vec<u8, A>,
        sectors: u32,
    )
        requires sectors { sectors ≤ 65536 }
        ensures { self.new ≡ sectors_answer self.old slot protocol write list.items bytes.items sectors }
    {
        match protocol {
            Protocol::Dma => self.dma_answer(slot, write, list, bytes, 512 * sectors),
            Protocol::Pio | Protocol::Multiple => {
                let rest = Blocks::new(list, bytes);
                self.begin_by(slot, protocol, write, sectors, rest, finish_of(write));
            }
        }
    }

    /// The answer to a command that the port has done, with a read's bytes: it does queued ones and those that move sectors.
    fn answer_with(
        &mut self,
        slot: Slot,
        list: Vec<PrdEntry, A>,
        bytes: Vec<u8, A>,
        action: &Action,
    )
        ensures { self.new ≡ answer_with self.old slot list.items bytes.items action.now }
    {
        match action {
            Action::Queue(queued) => {
                self.queue_answer(slot, queued.write, list, bytes, 512 * queued.sectors)
            }
            Action::Sectors {
                write,
                span,
                protocol,
            } => self.sectors_answer(slot, *protocol, *write, list, bytes, span.sectors),
            Action::Page(_, _) | Action::Flush(_) | Action::Reply(_) | Action::Control { .. } => {
                self.close(slot, 0, false, done())
            }
            Action::Store(_, _) | Action::Abort => self.close(slot, 0, false, done()),
        }
    }

    /// The bytes that go to the driver.
    fn delivered(&self) -> Result<Vec<u8, A>, AllocError>
        ensures ok { IfOk result (λ v. v.items ≡ delivered self.now.dma) }
        ensures lacking { OnErr result (sends_data self.now.dma ≡ true) }
    {
        match &self.dma {
            DmaState::Served(_, task, window, _) => bytes_for(self.alloc, task, window),
            _ => Ok(Vec::new(self.alloc)),
        }
    }

    /// Puts together the answer to the command that the port has done.
    fn deliver_served(&mut self) -> Result<(), AllocError>
        ensures ok { OnOk result (self.new ≡ served_answer self.old self.old.dma) }
        ensures err { OnErr result (self.new ≡ self.old) }
        ensures lacking { OnErr result (sends_data self.old.dma ≡ true) }
    {
        let bytes = self.delivered()?;
        match mem::replace(&mut self.dma, DmaState::Idle) {
            DmaState::Served(slot, task, _, list) => {
                self.answer_with(slot, list, bytes, &action_of(&task));
            }
            other => self.dma = other,
        }
        Ok(())
    }

    /// Whether it waits for the next block of a transfer by PIO.
    fn is_pio(&self) -> bool
        ensures { result ≡ is_pio self.now.dma }
    {
        matches!(&self.dma, DmaState::Pio(_))
    }

    /// Puts an answer together, or the next block of a transfer by PIO; with nothing done, nothing changes.
    fn put_together(&mut self) -> Result<(), AllocError>
        ensures ok { OnOk result (self.new ≡ answered self.old self.old.dma) }
        ensures err { OnErr result (self.new ≡ self.old) }
        ensures lacking { OnErr result (sends_data self.old.dma ≡ true) }
    {
        if self.is_pio() {
            return self.go_on();
        }
        self.deliver_served()
    }

    /// Puts together the answer to the command of a slot that the port has done: its FISes, a read's data in the order of its list, and PRDBC
    /// if it is not queued. A command by PIO moves block by block, and each call puts the next one together.
    ///
    /// # Errors
    /// `NotReady` exactly if `may_deliver` is false; else `OutOfMemory` if data of a read go to the driver and an allocation failed, and it can be
    /// tried again. Nothing has changed.
    pub fn deliver(&mut self, slot: Slot) -> Result<(), HbaFault>
        ensures ready { OnOk result (may_deliver self.old slot ≡ true) }
        ensures ok { OnOk result (self.new ≡ answered self.old self.old.dma) }
        ensures err { IfErr result (λ e. (e ≡ fault_if (may_deliver self.old slot)) × (self.new ≡ self.old)) }
        ensures lacking { IfErr result (λ e. e ≡ HbaFault.OutOfMemory → sends_data self.old.dma ≡ true) }
    {
        if !self.may_deliver(slot) {
            return Err(HbaFault::NotReady);
        }
        match self.put_together() {
            Ok(()) => Ok(()),
            Err(refused) => Err(refused.into()),
        }
    }
}
