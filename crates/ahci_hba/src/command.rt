use hba_command::{PrdEntry, Task};
use std::alloc::{Allocator, Global};
use std::marker::Model;

/// A command that was read from a slot of the command list.
#[derive(Drop)]
pub enum Command<A: Allocator = Global> {
    /// All of it is read: what it asks, its PRDT, its data if it writes.
    Fetched(Task, Vec<PrdEntry, A>, Vec<u8, A>),
    /// It is with the port, or is not for the port: what it asks, and its PRDT.
    Sent(Task, Vec<PrdEntry, A>),
}

/// A command in its slot of the command list.
#[derive(Drop)]
pub(crate) struct Listed<A: Allocator = Global> {
    pub(crate) command: Command<A>,
}

impl<A: Allocator> Model for Listed<A> {
    ghost use Rattle.ahci_hba.specs.HbaView.{CommandView, command_of};

    ghost Value = { CommandView };

    ghost view = { λ s. command_of s.command };
}
