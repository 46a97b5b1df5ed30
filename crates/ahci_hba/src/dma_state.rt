use crate::ending::Ending;
use crate::transfer::Transfer;
use ahci_port::Window;
use hba_command::{PrdEntry, Task};
use hba_memory::{DmaWrites, Fetch};
use hba_regs::Slot;
use std::alloc::{Allocator, Global};

/// What the controller does with the driver's memory.
#[derive(Drop)]
pub(crate) enum DmaState<A: Allocator = Global> {
    /// Nothing.
    Idle,
    /// It reads the command of a slot.
    Fetching(Slot, Fetch<A>),
    /// A slot's command is done by the port. Its window has the data of a read, which go to the runs of the list.
    Served(Slot, Task, Window<A>, Vec<PrdEntry, A>),
    /// It waits for the next block of a transfer by PIO.
    Pio(Transfer<A>),
    /// It writes a block of a transfer, which goes on so.
    Block(DmaWrites<A>, Transfer<A>),
    /// It writes an answer.
    Writing(DmaWrites<A>, Ending),
}
