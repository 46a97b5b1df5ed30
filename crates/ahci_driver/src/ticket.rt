use std::alloc::{Allocator, Global};
use std::marker::Model;

/// A request that was submitted: its tag, its number, and the buffer that waits for its answer.
#[derive(Drop)]
#[derive_where(Debug)]
pub struct Ticket<A: Allocator = Global> {
    pub(crate) tag: u8,
    pub(crate) number: u64,
    pub(crate) buffer: Vec<u8, A>,
}

impl<A: Allocator> Model for Ticket<A> {
    ghost use Rattle.ahci_driver.specs.Tickets.{TicketView};

    ghost Value = { TicketView };

    ghost view = { λ t. record { tag = t.tag; number = t.number; buffer = t.buffer.items } };
}

impl<A: Allocator> Ticket<A> {
    ghost use Rattle.std.specs.Prelude.{◌≡◌};

    /// The request's tag.
    pub fn tag(&self) -> u8
        ensures { result ≡ self.now.tag }
    {
        self.tag
    }

    /// The request's number: that of its Issue entry.
    pub fn number(&self) -> u64
        ensures { result ≡ self.now.number }
    {
        self.number
    }
}
