use std::alloc::{Allocator, Global};
use std::marker::Model;

/// The most bytes of a window (profile).
pub const MAX_BYTES: u64 = 0x0400_0000;

/// A tag, the 32 bytes of its command header, and the bytes of memory from the tag's base on: the command table, and the
/// data after it (AHCI 1.3.1, sections 4.2.2 and 4.2.3). The tag is below 32, and nothing else is known of it.
#[derive(Drop)]
#[derive_where(Debug)]
pub struct Window<A: Allocator = Global> {
    pub(crate) tag: u8,
    pub(crate) header: [u8; 32],
    pub(crate) bytes: Vec<u8, A>,
}

impl<A: Allocator> Model for Window<A> {
    ghost use Rattle.std.specs.Prelude.{◌<◌};
    ghost use Rattle.ahci_table.specs.Window.{WindowState};

    ghost Value = { WindowState };

    ghost view = { λ w. record { tag = w.tag; header = w.header; bytes = w.bytes.items } };

    ghost invariant = { λ w. w.tag < 32 };
}

impl<A: Allocator> Window<A> {
    ghost use Rattle.std.specs.Prelude.{◌≡◌, ◌<◌};

    /// The window of these parts. Any bytes will do.
    pub fn from_parts(tag: u8, header: [u8; 32], bytes: Vec<u8, A>) -> Self
        requires { tag < 32 }
        ensures { result ≡ record { tag = tag; header = header; bytes = bytes.items } }
    {
        Window { tag, header, bytes }
    }

    /// The tag of the window's slot, below 32.
    pub fn tag(&self) -> u8
        ensures value { result ≡ self.now.tag }
        ensures small { result < 32 }
    {
        self.tag
    }

    /// The command header.
    pub fn header(&self) -> &[u8; 32]
        ensures { result.now ≡ self.now.header }
    {
        &self.header
    }

    /// The bytes from the base on.
    pub fn bytes(&self) -> &[u8]
        ensures { result.now ≡ self.now.bytes }
    {
        &self.bytes
    }
}
