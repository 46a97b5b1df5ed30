ghost use Rattle.std.specs.Prelude.{◌≡◌, IfErr, IsErr, IsOkAnd, MatchOption};
ghost use Rattle.ahci_script.specs.Said.{said, Refused};
ghost use Rattle.ahci_replay.specs.Refusals.{shown};

use crate::unanswered::Unanswered;
use ahci_script::{Refusal, ScriptAnswer};
use std::alloc::Allocator;

/// A refusal as a script's answer. Memory that is lacking is none.
pub(crate) fn refused<A: Allocator>(refusal: Refusal) -> Result<ScriptAnswer<A>, Unanswered>
    ensures why { IfErr result (λ e. e ≡ Unanswered.OutOfMemory) }
    ensures says { MatchOption (shown refusal) (IsErr result) (λ name. IsOkAnd result (λ answer. said answer ≡ Refused name)) }
{
    match refusal {
        Refusal::OutOfMemory => Err(Unanswered::OutOfMemory),
        refusal => Ok(ScriptAnswer::Refused(refusal)),
    }
}
