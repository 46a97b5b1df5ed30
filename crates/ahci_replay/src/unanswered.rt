use std::alloc::AllocError;

/// Why a command has no answer.
#[derive(Clone, Copy, Debug, PartialEq, Eq)]
pub enum Unanswered {
    /// A command before the disk, or a second disk.
    OutOfPlace,
    OutOfMemory,
}

impl From<AllocError> for Unanswered {
    ghost use Rattle.std.specs.Prelude.{◌≡◌};
    ghost use Rattle.ahci_replay.specs.declared.unanswered.Unanswered.TheVariants as unanswered;

    ghost from_gives = { λ _ e. e ≡ unanswered.OutOfMemory };

    fn from(_refused: AllocError) -> Unanswered {
        Unanswered::OutOfMemory
    }
}
