ghost use Rattle.std.specs.Prelude.{◌≡◌};
ghost use Rattle.ahci_ffi.specs.Held.{owned_at};

use std::alloc::Allocator;
use std::marker::Model;

/// A box taken apart, for those who keep its address for C: its pointer and its allocator. It owns what the box owned.
pub struct Bare<T, A: Allocator> {
    pub typed: *mut T,
    pub heap: A,
    pub ghost value: { T },
}

impl<T, A: Allocator> Model for Bare<T, A> {
    ghost also_owns = { λ b. owned_at (A.dealloc_token b.heap) T.row b.typed b.value };
}

impl<T, A: Allocator> Bare<T, A> {
    /// Takes a box apart.
    pub fn of(whole: Box<T, A>) -> Bare<T, A>
    where
        T: Drop,
        ensures { result.value ≡ whole.value }
    {
        let (typed, heap) = Box::into_raw_with_allocator(whole);
        Bare { typed, heap }
    }

    /// The box again.
    pub fn whole(self) -> Box<T, A>
        ensures { result.value ≡ self.value }
    {
        let Bare { typed, heap } = self;
        unsafe { Box::from_raw(heap, typed) }
    }
}
