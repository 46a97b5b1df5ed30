//! Which entries of a PRDT a transfer has done with.

ghost use Rattle.std.specs.Prelude.{◌≡◌};
ghost use Rattle.hba_memory.specs.Processing.{has_processed};

use hba_command::PrdEntry;

/// Whether some entry with I has all of its bytes among the first so many of the data (AHCI 1.3.1, sections 3.3.5, DPS, and 4.2.3.3). It looks at the entries
/// up to the one in which these bytes end.
#[tactic(auto, using(crate::proofs::ProcessingLemmas::none_left, crate::proofs::ProcessingLemmas::not_whole, crate::proofs::ProcessingLemmas::one_with, crate::proofs::ProcessingLemmas::one_without))]
pub fn has_processed(list: &[PrdEntry], moved: u32) -> bool
    ensures { result ≡ has_processed list.now moved }
{
    let mut at = 0;
    let mut left = moved;
    while at < list.len() && list[at].length <= left {
        if list[at].interrupt {
            return true;
        }
        left -= list[at].length;
        at += 1;
    }
    false
}
