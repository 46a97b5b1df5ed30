//! How the controller reads and writes the driver's memory: it says what comes next, and learns by a call that it is done.

ghost use Rattle.std.specs.Prelude.{◌≡◌, true, length, OnErr, OnOk};
ghost use Rattle.ahci_hba.specs.{HbaView.{command_of, dma_of}, Moving.{address_of, allocates_with, block_ended, ended, ended_by, failed_fatally, host_failed, overflowed, place_of, placed_in, processed, put_done, put_next, read_so_far, run_read, spoiled, stuck_with, supplied, unmapped, want_of}};
ghost use Rattle.ahci_hba.specs.States.{IsSoundDma};

use crate::command::{Command, Listed};
use crate::dma_state::DmaState;
use crate::ending::Ending;
use crate::hba::Hba;
use crate::last_fis::LastFis;
use crate::transfer::Transfer;
use crate::want::Want;
use hba_memory::{Fetch, Reading};
use hba_regs::{Fatal, HbaRegs, Slot};
use sector_store::SectorStore;
use std::alloc::{AllocError, Allocator};
use std::mem;

/// What the last FIS of an answer does to the registers.
#[tactic(auto, unfolding(crate::specs::Moving::ended_by))]
fn end_by(registers: &mut HbaRegs, fis: LastFis)
    ensures { registers.new ≡ ended_by registers.old fis }
{
    match fis {
        LastFis::Register {
            status,
            error,
            interrupt,
            slot,
        } => registers.receive_register(status, error, interrupt, slot),
        LastFis::Bits {
            status,
            error,
            sactive,
        } => registers.receive_bits(status, error, true, sactive),
        LastFis::Pio { slot } => {
            registers.receive_pio(0x48); // DRDY and DRQ
            registers.end_pio(0x40, 0x00, true, slot);
        }
        LastFis::Signature(kind) => {
            if registers.signature_moves() {
                registers.take_signature(kind);
            }
        }
        LastFis::Unsolicited => registers.receive_unsolicited(),
        LastFis::Unknown => registers.receive_unknown(),
    }
}

/// What data without room in their list do to the registers.
fn overflow(registers: &mut HbaRegs, overflow: bool)
    ensures { registers.new ≡ overflowed registers.old overflow }
{
    if overflow {
        registers.overflow();
    }
}

/// What data with the last byte of an entry with I do to the registers.
fn process(registers: &mut HbaRegs, processes: bool)
    ensures { registers.new ≡ processed registers.old processes }
{
    if processes {
        registers.process_descriptor();
    }
}

/// What the end of an answer does to the registers.
pub(super) fn end(registers: &mut HbaRegs, ending: Ending)
    ensures { registers.new ≡ ended registers.old ending }
{
    overflow(registers, ending.overflow);
    process(registers, ending.processed);
    end_by(registers, ending.fis);
}

/// What a block of a transfer does to the registers: its PIO Setup FIS, and the end of its data, after which the device is busy with the next
/// one.
#[tactic(auto, unfolding(crate::specs::Moving::block_ended))]
pub(super) fn end_block<A: Allocator>(registers: &mut HbaRegs, transfer: &Transfer<A>)
    ensures { registers.new ≡ block_ended registers.old transfer.now }
{
    overflow(registers, transfer.is_short());
    process(registers, transfer.has_processed());
    registers.receive_pio(0x48); // DRDY and DRQ
    registers.end_pio(0xC0, 0x00, transfer.has_interrupt(), transfer.slot()); // BSY and DRDY
}

impl<A: Allocator, S: SectorStore> Hba<A, S> {
    /// What the controller does next with the driver's memory.
    pub fn want(&self) -> Want
        ensures { result ≡ want_of self.now.dma }
    {
        match &self.dma {
            DmaState::Fetching(_, _) => Want::Read,
            DmaState::Block(_, _) | DmaState::Writing(_, _) => Want::Write,
            DmaState::Idle | DmaState::Served(_, _, _, _) | DmaState::Pio(_) => Want::Nothing,
        }
    }

    /// Where it reads or writes next; 0 if it does neither. Without CAP.S64A it is below 4 GiB.
    pub fn address(&self) -> u64
        ensures { result ≡ address_of self.now }
    {
        let pointer = self.pointer();
        if self.registers.capabilities().s64a {
            pointer
        } else {
            pointer & 0xffff_ffff
        }
    }

    /// The same with all 64 bits of the driver's pointers.
    fn pointer(&self) -> u64
        ensures { result ≡ place_of self.now.dma }
    {
        match &self.dma {
            DmaState::Fetching(_, fetch) => fetch.address(),
            DmaState::Block(writes, _) => writes.address(),
            DmaState::Writing(writes, _) => writes.address(),
            DmaState::Idle | DmaState::Served(_, _, _, _) | DmaState::Pio(_) => 0,
        }
    }

    /// How many bytes it reads next; 0 if it reads none.
    pub fn read_length(&self) -> usize
        ensures { result ≡ (run_read self.now.dma).length }
    {
        match &self.dma {
            DmaState::Fetching(_, fetch) => fetch.length(),
            _ => 0,
        }
    }

    /// The bytes that it writes next; none if it writes none.
    pub fn bytes(&self) -> &[u8]
        ensures { result.now ≡ (put_next self.now.dma).bytes }
    {
        match &self.dma {
            DmaState::Block(writes, _) => writes.bytes(),
            DmaState::Writing(writes, _) => writes.bytes(),
            _ => &[],
        }
    }

    /// The bytes that it writes are written. With the last ones of an answer or a block, that takes effect.
    pub fn written(&mut self)
        ensures { self.new ≡ put_done self.old self.old.dma }
    {
        match mem::replace(&mut self.dma, DmaState::Idle) {
            DmaState::Block(mut writes, transfer) => {
                writes.advance();
                self.block(writes, transfer);
            }
            DmaState::Writing(mut writes, ending) => {
                writes.advance();
                self.answer(writes, ending);
            }
            other => self.dma = other,
        }
    }

    /// The address that it reads or writes is no memory, a bad pointer of the driver: HBFS (AHCI 1.3.1, sections 3.3.5 and 6.1). The port halts.
    pub fn fail_memory(&mut self)
        ensures { self.new ≡ unmapped self.old self.old.dma }
    {
        self.fail_host(Fatal::HostBusFatal);
    }

    /// The memory that it reads or writes gives or takes wrong data, as by an error that its check bits can't correct: HBDS (sections 3.3.5 and 6.1). The
    /// port halts.
    pub fn fail_data(&mut self)
        ensures { self.new ≡ spoiled self.old self.old.dma }
    {
        self.fail_host(Fatal::HostBusData);
    }

    /// An access to memory ends in a fatal error; without one nothing changes.
    fn fail_host(&mut self, fatal: Fatal)
        ensures { self.new ≡ host_failed fatal self.old self.old.dma }
    {
        match &self.dma {
            DmaState::Fetching(_, _) | DmaState::Block(_, _) | DmaState::Writing(_, _) => {
                self.fail_fatally(fatal)
            }
            DmaState::Idle | DmaState::Served(_, _, _, _) | DmaState::Pio(_) => {}
        }
    }
}

impl<A: Allocator + Copy, S: SectorStore> Hba<A, S> {
    /// Takes the bytes that it reads. Memory for a command's list and a write's data is allocated here, once its FIS is known.
    ///
    /// # Errors
    /// An allocation failed, with the command FIS of a command that moves data; nothing has changed, and the same bytes may be supplied again.
    pub fn supply(&mut self, bytes: &[u8]) -> Result<(), AllocError>
        requires { length bytes.now ≡ (run_read self.old.dma).length }
        ensures ok { OnOk result (self.new ≡ supplied self.old self.old.dma bytes.now) }
        ensures err { OnErr result (self.new ≡ self.old) }
        ensures lacking { OnErr result (allocates_with self.old.dma bytes.now ≡ true) }
    {
        match mem::replace(&mut self.dma, DmaState::Idle) {
            DmaState::Fetching(slot, mut fetch) => match fetch.supply(self.alloc, bytes) {
                Ok(()) => {
                    self.read_so_far(slot, fetch);
                    Ok(())
                }
                Err(fault) => {
                    self.dma = DmaState::Fetching(slot, fetch);
                    Err(fault)
                }
            },
            other => {
                self.dma = other;
                Ok(())
            }
        }
    }
}

impl<A: Allocator, S: SectorStore> Hba<A, S> {
    /// The controller does something else with the driver's memory.
    pub(super) fn turn_to(&mut self, dma: DmaState<A>)
        requires { IsSoundDma (dma_of dma) }
        ensures { self.new ≡ record self.old { dma = dma_of dma } }
    {
        self.dma = dma;
    }

    /// Goes on with a slot's command: it is read further, is in its slot, or ends in a fatal error.
    fn read_so_far(&mut self, slot: Slot, fetch: Fetch<A>)
        ensures { self.new ≡ read_so_far self.old slot fetch }
    {
        if !fetch.is_over() {
            self.turn_to(DmaState::Fetching(slot, fetch));
            return;
        }
        match fetch.into_reading() {
            Reading::Whole(task, clears, list, bytes) => {
                self.place(slot, clears, Command::Fetched(task, list, bytes));
            }
            Reading::Short(clears) => self.stick(slot, clears),
            _ => self.fail_fatally(Fatal::Interface), // it is malformed
        }
    }

    /// Puts a command that was read into its slot, and sends its FIS, with C of its header.
    fn place(&mut self, slot: Slot, clears: bool, command: Command<A>)
        ensures { self.new ≡ placed_in self.old slot clears (command_of command) }
    {
        self.registers.send(slot, clears);
        self.slots[slot.index()] = Some(Listed { command });
        self.dma = DmaState::Idle;
    }

    /// The command FIS of a write is sent whose list is too short: the port is stuck.
    fn stick(&mut self, slot: Slot, clears: bool)
        ensures { self.new ≡ stuck_with self.old slot clears }
    {
        self.registers.stick(slot, clears);
        self.dma = DmaState::Idle;
    }

    /// A fatal error: the port halts, and nothing is read or written any more.
    fn fail_fatally(&mut self, fatal: Fatal)
        ensures { self.new ≡ failed_fatally self.old fatal }
    {
        self.registers.fail_fatally(fatal);
        self.dma = DmaState::Idle;
    }
}
