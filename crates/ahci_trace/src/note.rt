//! What has a text in a trace, and the pieces of such texts. After a failed allocation a part of a piece may be there.

ghost use Rattle.std.specs.Prelude.{◌≡◌, ◌++◌, ℕ, List, OnOk, flat_map};
ghost use Rattle.ahci_trace.specs.Text.{bytes_text, named_text};

use std::alloc::{AllocError, Allocator};
use streams::TextBuffer;

/// What has a text of its own in a trace: an entry, a register, a slot and their kind.
pub(crate) trait Note {
    ghost note: { Self → List ℕ };

    /// Appends its notes.
    fn push_to<A: Allocator + Copy>(&self, text: &mut TextBuffer<A>) -> Result<(), AllocError>
        ensures { OnOk result (text.new.bytes ≡ text.old.bytes ++ note self.now) };
}

/// Appends the notes of each.
pub(crate) fn push_notes<T: Note, A: Allocator + Copy>(
    text: &mut TextBuffer<A>,
    each: &[T],
) -> Result<(), AllocError>
    ensures { OnOk result (text.new.bytes ≡ text.old.bytes ++ flat_map T.note each.now) }
{
    for one in each {
        one.push_to(text)?;
    }
    Ok(())
}

/// Appends bytes by their hexadecimal digits, each after a space.
pub(crate) fn push_bytes<A: Allocator>(
    text: &mut TextBuffer<A>,
    bytes: &[u8],
) -> Result<(), AllocError>
    ensures { OnOk result (text.new.bytes ≡ text.old.bytes ++ bytes_text bytes.now) }
{
    for byte in bytes {
        text.push_byte(*byte)?;
    }
    Ok(())
}

/// Appends a line of a name and bytes.
#[tactic(auto, unfolding(crate::specs::Text::named_text))]
pub(crate) fn push_named<A: Allocator>(
    text: &mut TextBuffer<A>,
    name: &[u8],
    bytes: &[u8],
) -> Result<(), AllocError>
    ensures { OnOk result (text.new.bytes ≡ text.old.bytes ++ named_text name.now bytes.now) }
{
    text.push(name)?;
    push_bytes(text, bytes)?;
    text.push(b"\n")
}
