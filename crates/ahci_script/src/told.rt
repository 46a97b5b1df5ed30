ghost use Rattle.std.specs.Prelude.{◌≡◌, IfOk};
ghost use Rattle.ahci_script.specs.Answers.{answer_text};
ghost use Rattle.ahci_script.specs.Said.{said};

use crate::answer::ScriptAnswer;
use crate::text::{push_answer, room_for};
use std::alloc::{AllocError, Allocator};
use streams::TextBuffer;

/// The text of an answer, without its line feed.
///
/// # Errors
/// When an allocation fails.
pub fn answer_bytes<A: Allocator, B: Allocator>(
    alloc: A,
    answer: &ScriptAnswer<B>,
) -> Result<Vec<u8, A>, AllocError>
    ensures { IfOk result (λ text. text.items ≡ answer_text (said answer.now)) }
{
    let mut text = TextBuffer::new(alloc);
    text.reserve(room_for(answer).ok_or(AllocError)?)?;
    push_answer(&mut text, answer);
    Ok(text.into_bytes())
}
