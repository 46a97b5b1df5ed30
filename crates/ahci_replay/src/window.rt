ghost use Rattle.std.specs.Prelude.{◌≡◌, ◌<◌, IfOk};
ghost use Rattle.ahci_replay.specs.Commands.{window_of};

use ahci_script::RawWindow;
use ahci_table::Window;
use std::alloc::{AllocError, Allocator};

/// Reads a window that a script spells into memory of its own, for the slot of a tag below 32.
///
/// # Errors
/// Where a growth was refused.
pub fn read_window<A: Allocator>(
    alloc: A,
    tag: u8,
    raw: &RawWindow<'_>,
) -> Result<Window<A>, AllocError>
    requires { tag < 32 }
    ensures { IfOk result (λ window. window ≡ window_of tag raw.now) }
{
    let mut bytes = vec![in alloc; 0u8; raw.bytes.len()]?;
    raw.bytes.read_into(&mut bytes);
    Ok(Window::from_parts(tag, raw.header, bytes))
}
