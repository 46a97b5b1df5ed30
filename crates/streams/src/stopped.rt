use crate::input_failed::InputFailed;
use std::alloc::AllocError;

/// Why an input was not read to its end.
#[derive(Clone, Copy, Debug, PartialEq, Eq)]
pub enum Stopped<F> {
    /// A read failed, or the input is longer than its limit.
    Read,
    /// The lines are taken no more.
    Taker(F),
    /// The system gave no memory.
    OutOfMemory,
}

impl<F: Copy> Stopped<F> {
    ghost use Rattle.std.specs.Prelude.{◌≡◌};
    ghost use Rattle.streams.specs.Reading.{fault_or};

    /// The fault of whoever had the lines taken: the taker's own, or these where a read failed and where memory was wanting.
    pub fn fault_or(self, read: F, out_of_memory: F) -> F
        ensures { result ≡ fault_or read out_of_memory self }
    {
        match self {
            Stopped::Read => read,
            Stopped::Taker(fault) => fault,
            Stopped::OutOfMemory => out_of_memory,
        }
    }
}

impl<F> From<InputFailed> for Stopped<F> {
    ghost use Rattle.std.specs.Prelude.{◌≡◌};
    ghost use Rattle.streams.specs.declared.stopped.Stopped.TheVariants as stopped;

    ghost from_gives = { λ _ fault. fault ≡ stopped.Read };

    fn from(_failed: InputFailed) -> Stopped<F> {
        Stopped::Read
    }
}

impl<F> From<AllocError> for Stopped<F> {
    ghost use Rattle.std.specs.Prelude.{◌≡◌};
    ghost use Rattle.streams.specs.declared.stopped.Stopped.TheVariants as stopped;

    ghost from_gives = { λ _ fault. fault ≡ stopped.OutOfMemory };

    fn from(_refused: AllocError) -> Stopped<F> {
        Stopped::OutOfMemory
    }
}
