ghost use Rattle.std.specs.Prelude.{◌≡◌, vec_capacity};

use std::alloc::{Allocator, Global};
use std::marker::Model;

/// The bytes that a command writes. Contracts see the list of them, and for how many bytes memory is held.
#[derive(Drop)]
#[derive_where(Debug)]
pub struct Bytes<A: Allocator = Global> {
    bytes: Vec<u8, A>,
}

impl<A: Allocator> Model for Bytes<A> {
    ghost use Rattle.std.specs.Prelude.{vec_capacity};
    ghost use Rattle.ncq_journal.specs.HeldBytes.{HeldBytes};

    ghost Value = { HeldBytes };

    ghost view = { λ b. record { bytes = b.bytes.items; held = vec_capacity b.bytes } };
}

impl<A: Allocator> Bytes<A> {
    /// The bytes of a `Vec`, which is not copied.
    pub fn from_vec(bytes: Vec<u8, A>) -> Self
        ensures bytes { result.bytes ≡ bytes.items }
        ensures held { result.held ≡ vec_capacity bytes }
    {
        Bytes { bytes }
    }

    /// All bytes, in their order.
    pub fn as_slice(&self) -> &[u8]
        ensures { result.now ≡ self.now.bytes }
    {
        self.bytes.as_slice()
    }

    /// The `Vec` that was taken, with what it holds, in the memory that it held.
    pub fn into_vec(self) -> Vec<u8, A>
        ensures bytes { result.items ≡ self.bytes }
        ensures held { vec_capacity result ≡ self.held }
    {
        let Bytes { bytes } = self;
        bytes
    }
}
