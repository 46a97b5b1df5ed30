use std::alloc::{AllocError, Allocator, Global};
use std::marker::Model;

/// Room for so many bytes, with none in it. Contracts see how many.
#[derive(Drop)]
pub struct ReservedBuffer<A: Allocator = Global> {
    bytes: Vec<u8, A>,
    length: usize,
}

impl<A: Allocator> Model for ReservedBuffer<A> {
    ghost use Rattle.std.specs.Prelude.{◌≡◌, ◌≤◌, ℕ, [], vec_capacity};

    ghost Value = { ℕ };

    ghost view = { λ r. r.length };

    ghost invariant = { λ r. (r.bytes.items ≡ []) × (r.length ≤ vec_capacity r.bytes) };
}

impl<A: Allocator> ReservedBuffer<A> {
    ghost use Rattle.std.specs.Prelude.{◌≡◌, ◌≤◌, [], IfOk, vec_capacity};

    /// Allocates room for so many bytes.
    pub fn new(alloc: A, length: usize) -> Result<Self, AllocError>
        ensures { IfOk result (λ r. r ≡ length) }
    {
        let bytes = Vec::with_capacity(alloc, length)?;
        Ok(ReservedBuffer { bytes, length })
    }

    /// How many bytes there is room for.
    pub fn length(&self) -> usize
        ensures { result ≡ self.now }
    {
        self.length
    }

    /// The memory, which is empty.
    pub fn into_bytes(self) -> Vec<u8, A>
        ensures items { result.items ≡ [] }
        ensures room { self ≤ vec_capacity result }
    {
        self.bytes
    }
}
