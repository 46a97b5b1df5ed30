ghost use Rattle.std.specs.Prelude.{◌≡◌, IfOk};
ghost use Rattle.ahci_trace.specs.Owned.{is_owned, owned_slots};

use ahci_port::Port;
use ncq_journal::Phase;
use std::alloc::{AllocError, Allocator};

/// A slot that a request owns, and the state of its command.
#[derive(Clone, Copy, Debug)]
pub struct OwnedSlot {
    pub tag: u8,
    pub phase: Phase,
}

/// Whether a slot in this phase is owned.
fn is_owned(phase: Phase) -> bool
    ensures { result ≡ is_owned phase }
{
    !matches!(phase, Phase::Free)
}

/// The slots that are owned, rising. The journal isn't read.
pub(crate) fn owned_slots<A: Allocator, B: Allocator>(
    alloc: B,
    port: &Port<A>,
) -> Result<Vec<OwnedSlot, B>, AllocError>
    ensures { IfOk result (λ slots. slots.items ≡ owned_slots port.now.past) }
{
    (0..32u8)
        .filter(|tag| is_owned(port.phase(*tag)))
        .map(|tag| OwnedSlot {
            tag,
            phase: port.phase(tag),
        })
        .collect(alloc)
}
