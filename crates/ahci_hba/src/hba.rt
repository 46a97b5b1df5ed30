//! The controller: what it holds, how one is made, and what a driver reads of it.

mod answer;
mod deliver;
mod events;
mod execute;
mod fail;
mod fetch;
mod keep;
mod log;
mod mark;
mod memory;
mod plug;
mod power;
mod powering_on;
mod queue;
mod recover;
mod reset;
mod send;
mod step;
mod store;
mod transfer;
mod trim;
mod write;
mod zero;

ghost use Rattle.std.specs.Prelude.{◌≡◌, ◌/◌, ◌≤◌, None, IfErr, IfOk, OnOk, length, replicate};
ghost use Rattle.hba_regs.specs.Accessing.{read_of};
ghost use Rattle.hba_regs.specs.Interrupts.{interrupt};
ghost use Rattle.ncq_core.specs.DiskState.{new_fault, over_fault};
ghost use Rattle.ahci_port.specs.{Faults.{AnswersOr}, Headline.{Headline}, PortView.{new_port, port_over}};
ghost use Rattle.ahci_hba.specs.States.{hba_over, hba_with, new_hba};

use crate::command::Listed;
use crate::dma_state::DmaState;
use ahci_port::{DiskFault, Port};
use hba_command::{Device, HostLogs, Power, Uncorrectable};
use hba_regs::{AccessSize, Capabilities, HbaRegs};
use sector_store::{SectorStore, Whole};
use std::alloc::{AllocError, Allocator, Global};
use std::marker::Model;

/// How many slots a command list may have. The port has as many, whatever the disk's queue depth: drivers use any tag.
pub(crate) const SLOTS: u32 = 32;

/// An AHCI controller with one port, and the model's port with its disk and journal behind it. Contracts see an `HbaView`.
#[derive(Drop)]
pub struct Hba<A: Allocator = Global, S: SectorStore = Whole<A>> {
    alloc: A,
    registers: HbaRegs,
    port: Port<A, S>,
    depth: u32,
    power: Power,
    device: Device,
    uncorrectable: Uncorrectable,
    logs: HostLogs<A>,
    slots: Vec<Option<Listed<A>>, A>,
    dma: DmaState<A>,
}

impl<A: Allocator, S: SectorStore> Model for Hba<A, S> {
    ghost use Rattle.std.specs.Prelude.{◌≡◌, ◌≤◌, length};
    ghost use Rattle.ahci_hba.specs.HbaView.{HbaView, dma_of};
    ghost use Rattle.ahci_hba.specs.States.{IsSound};

    ghost Value = { HbaView };

    ghost view = { λ h. record { registers = h.registers; port = h.port; depth = h.depth; power = h.power; device = h.device; marks = h.uncorrectable; logs = h.logs; slots = h.slots.items; dma = dma_of h.dma } };

    ghost invariant = { λ h. IsSound h.port h.depth h.slots.items (dma_of h.dma) };
}

/// The port of a disk with this image, which has a tag for each slot, whatever queue depth is reported.
fn port_for<A: Allocator + Copy>(
    alloc: A,
    image: Vec<u8, A>,
    depth: u32,
) -> Result<Port<A>, DiskFault>
    ensures some { OnOk result (1 ≤ depth) }
    ensures most { OnOk result (depth ≤ 32) }
    ensures port { IfOk result (λ p. p ≡ new_port image.items 32) }
    ensures fault { AnswersOr result (new_fault image.items depth) DiskFault.OutOfMemory }
{
    if depth == 0 || depth > SLOTS {
        return Port::new(alloc, image, depth);
    }
    Port::new(alloc, image, SLOTS)
}

/// The same of a disk over a store.
fn port_on<A: Allocator + Copy, S: SectorStore + Drop>(
    alloc: A,
    store: S,
    depth: u32,
) -> Result<Port<A, S>, DiskFault>
    requires { length (S.starting store) ≡ length (S.image store) }
    ensures some { OnOk result (1 ≤ depth) }
    ensures most { OnOk result (depth ≤ 32) }
    ensures port { IfOk result (λ p. p ≡ port_over (S.grows store) 0 (S.image store) 32) }
    ensures fault { AnswersOr result (over_fault (length (S.image store) / 512) depth) DiskFault.OutOfMemory }
{
    if depth == 0 || depth > SLOTS {
        return Port::over(alloc, store, depth);
    }
    Port::over(alloc, store, SLOTS)
}

/// As many empty slots as the command list has.
fn empty_slots<A: Allocator>(alloc: A) -> Result<Vec<Option<Listed<A>>, A>, AllocError>
    ensures { IfOk result (λ v. v.items ≡ replicate 32 None) }
{
    let mut slots = Vec::new(alloc);
    for slot in 0..SLOTS {
        slots.push(None)?;
    }
    Ok(slots)
}

impl<A: Allocator + Copy> Hba<A> {
    /// A controller after power-on with the usual capabilities, in front of a disk with this image. IDENTIFY DEVICE reports a queue of this depth,
    /// while the command list has 32 slots.
    ///
    /// # Errors
    /// Those of `with_capabilities`.
    pub fn new(alloc: A, image: Vec<u8, A>, depth: u32) -> Result<Self, DiskFault>
        ensures ok { IfOk result (λ h. h ≡ new_hba image.items depth) }
        ensures fault { AnswersOr result (new_fault image.items depth) DiskFault.OutOfMemory }
    {
        Hba::with_capabilities(alloc, image, depth, Capabilities::new())
    }

    /// A controller after power-on that can do this, which its CAP shows.
    ///
    /// # Errors
    /// `BadSize` if the image is not 1 to 131,072 whole sectors of 512 bytes, `BadDepth` if the depth is not 1 to 32; else `OutOfMemory` if
    /// an allocation failed.
    pub fn with_capabilities(
        alloc: A,
        image: Vec<u8, A>,
        depth: u32,
        capabilities: Capabilities,
    ) -> Result<Self, DiskFault>
        ensures ok { IfOk result (λ h. h ≡ hba_with image.items depth capabilities) }
        ensures fault { AnswersOr result (new_fault image.items depth) DiskFault.OutOfMemory }
    {
        let port = port_for(alloc, image, depth)?;
        Hba::assembled(alloc, port, depth, capabilities)
    }
}

impl<A: Allocator + Copy, S: SectorStore + Drop> Hba<A, S> {
    /// A controller after power-on that can do this, in front of a disk over a store. The store keeps its sectors as they are now.
    ///
    /// # Errors
    /// `BadSize` if the store has no sectors or more than 2^32 - 1, `BadDepth` if the depth is not 1 to 32; else `OutOfMemory` if an allocation
    /// failed.
    pub fn over(
        alloc: A,
        store: S,
        depth: u32,
        capabilities: Capabilities,
    ) -> Result<Self, DiskFault>
        requires { length (S.starting store) ≡ length (S.image store) }
        ensures ok { IfOk result (λ h. h ≡ hba_over (S.grows store) (S.image store) depth capabilities) }
        ensures fault { AnswersOr result (over_fault (length (S.image store) / 512) depth) DiskFault.OutOfMemory }
    {
        let port = port_on(alloc, store, depth)?;
        Hba::assembled(alloc, port, depth, capabilities)
    }

    /// A controller after power-on before a new port.
    fn assembled(
        alloc: A,
        port: Port<A, S>,
        depth: u32,
        capabilities: Capabilities,
    ) -> Result<Self, DiskFault>
        requires some { 1 ≤ depth }
        requires most { depth ≤ 32 }
        requires port { port ≡ port_over port.grows 0 port.image 32 }
        ensures ok { IfOk result (λ h. h ≡ hba_over port.grows port.image depth capabilities) }
        ensures err { IfErr result (λ e. e ≡ DiskFault.OutOfMemory) }
    {
        let slots = empty_slots(alloc)?;
        Ok(Hba {
            alloc,
            registers: HbaRegs::with_capabilities(capabilities),
            port,
            depth,
            power: Power::Active,
            device: Device::new(),
            uncorrectable: Uncorrectable::new(),
            logs: HostLogs::new(alloc),
            slots,
            dma: DmaState::Idle,
        })
    }
}

impl<A: Allocator, S: SectorStore> Hba<A, S> {
    /// What a driver reads at an offset of the controller's registers, as `HbaRegs::read` has it.
    pub fn read(&self, offset: u32, size: AccessSize) -> u64
        ensures { result ≡ read_of self.now.registers offset size }
    {
        self.registers.read(offset, size)
    }

    /// The registers, for those who judge a driver's accesses.
    pub fn registers(&self) -> &HbaRegs
        ensures { result.now ≡ self.now.registers }
    {
        &self.registers
    }

    /// The queue depth that IDENTIFY DEVICE reports.
    pub fn depth(&self) -> u32
        ensures { result ≡ self.now.depth }
    {
        self.depth
    }

    /// The level of the interrupt line, to be asked for after each call.
    pub fn interrupt(&self) -> bool
        ensures { result ≡ interrupt self.now.registers }
    {
        self.registers.interrupt()
    }

    /// The port behind the registers. The headline holds of it: its image is the starting image with the journal's completed writes,
    /// those of commands that are not queued among them.
    pub fn port(&self) -> &Port<A, S>
        ensures port { result.now ≡ self.now.port }
        ensures headline { Headline self.now.port }
    {
        self.port.keeps_its_promise();
        &self.port
    }
}
