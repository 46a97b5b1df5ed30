//! The text of answers. It is made at the end of what waits, where there is room for it.

ghost use Rattle.std.specs.Prelude.{◌≡◌, ◌+◌, ◌-◌, ◌*◌, ◌/◌, ◌^◌, ◌<◌, ◌≤◌, [], ◌∷◌, ◌++◌, IfSome, IsNone, length};
ghost use Rattle.ahci_script.specs.Answers.{answer_text, entries_between, numbers_text, room_of, sectors_text};
ghost use Rattle.ahci_script.specs.Said.{Disk, said};

use crate::answer::ScriptAnswer;
use std::alloc::Allocator;
use streams::{TextBuffer, eight_digits, four_digits, spaced_byte};

/// How many bytes a line has at most, but for a read's sectors, a step's entries and a journal's first number.
pub(crate) const SHORT: usize = 64;

/// How many bytes a number has at most, with the space before it.
const NUMBER: usize = 21;

/// How many bytes an answer's line has at most. `None` where no memory has as many.
pub(crate) fn room_for<A: Allocator>(answer: &ScriptAnswer<A>) -> Option<usize>
    ensures some { IfSome result (λ room. room ≡ room_of (said answer.now)) }
    ensures none { IsNone result → 2 ^ 64 ≤ room_of (said answer.now) }
{
    match answer {
        ScriptAnswer::Read { bytes, .. } => Some(SHORT + 3 * (bytes.len() / 512)),
        ScriptAnswer::Completed { first, end } => room_for_entries(end.saturating_sub(*first)),
        ScriptAnswer::Disk { first: Some(_), .. } => Some(SHORT + NUMBER),
        _ => Some(SHORT),
    }
}

/// How many bytes a line with so many entries has at most.
fn room_for_entries(entries: u64) -> Option<usize>
    ensures some { IfSome result (λ room. room ≡ 64 + 21 * entries) }
    ensures none { IsNone result → 2 ^ 64 ≤ 64 + 21 * entries }
{
    let numbers = NUMBER.checked_mul(entries as usize)?;
    SHORT.checked_add(numbers)
}

/// Appends an answer and its line feed.
pub(crate) fn push_line<T: Allocator, A: Allocator>(
    text: &mut TextBuffer<T>,
    answer: &ScriptAnswer<A>,
)
    requires { room_of (said answer.now) ≤ text.old.room }
    ensures { text.new.bytes ≡ text.old.bytes ++ (answer_text (said answer.now) ++ 10 ∷ []) }
{
    push_answer(text, answer);
    text.push_reserved(b"\n");
}

/// Appends an answer. Room for its line feed is left.
pub(crate) fn push_answer<T: Allocator, A: Allocator>(
    text: &mut TextBuffer<T>,
    answer: &ScriptAnswer<A>,
)
    requires { room_of (said answer.now) ≤ text.old.room }
    ensures bytes { text.new.bytes ≡ text.old.bytes ++ answer_text (said answer.now) }
    ensures room { 0 < text.new.room }
{
    match answer {
        ScriptAnswer::Disk {
            sectors,
            depth,
            first,
        } => push_disk(text, *sectors, *depth, *first),
        ScriptAnswer::Issued(entry) => text.push_reserved_number(b"issued ", *entry),
        ScriptAnswer::Accepted(entry) => text.push_reserved_number(b"accepted ", *entry),
        ScriptAnswer::Completed { first, end } => {
            text.push_reserved(b"completed");
            push_entries(text, *first, *end);
        }
        ScriptAnswer::FailedStep(entry) => text.push_reserved_number(b"failed ", *entry),
        ScriptAnswer::Wrote(entry) => text.push_reserved_number(b"wrote ", *entry),
        ScriptAnswer::Read { entry, bytes } => {
            text.push_reserved_number(b"read ", *entry);
            push_sectors(text, bytes);
        }
        ScriptAnswer::Failed { entry, error, lba } => {
            text.push_reserved_number(b"failed ", *entry);
            text.push_reserved(&spaced_byte(*error));
            text.push_reserved_number(b" ", *lba);
        }
        ScriptAnswer::Recovered(tag) => text.push_reserved_number(b"recovered ", u64::from(*tag)),
        ScriptAnswer::Reissued(tag) => text.push_reserved_number(b"reissued ", u64::from(*tag)),
        ScriptAnswer::Register(value) => text.push_reserved(&eight_digits(*value)),
        ScriptAnswer::Acked => text.push_reserved(b"acked"),
        ScriptAnswer::Word { word, value } => {
            text.push_reserved_number(b"word ", u64::from(*word));
            text.push_reserved(b" ");
            text.push_reserved(&four_digits(u32::from(*value)));
        }
        ScriptAnswer::Flushed => text.push_reserved(b"flushed"),
        ScriptAnswer::Sector { lba, byte } => {
            text.push_reserved_number(b"sector ", *lba);
            text.push_reserved(&spaced_byte(*byte));
        }
        ScriptAnswer::Journal(entries) => text.push_reserved_number(b"journal ", *entries),
        ScriptAnswer::Trimmed(entries) => text.push_reserved_number(b"trimmed ", *entries),
        ScriptAnswer::Refused(refusal) => {
            text.push_reserved(b"refused ");
            text.push_reserved(refusal.name().as_bytes());
        }
    }
}

/// Appends the numbers of a new disk, and after them the first number of the journal where the line gave one.
fn push_disk<T: Allocator>(text: &mut TextBuffer<T>, sectors: u64, depth: u64, first: Option<u64>)
    requires { room_of (Disk sectors depth first) ≤ text.old.room }
    ensures bytes { text.new.bytes ≡ text.old.bytes ++ answer_text (Disk sectors depth first) }
    ensures room { 0 < text.new.room }
{
    text.push_reserved_number(b"disk ", sectors);
    text.push_reserved_number(b" ", depth);
    if let Some(first) = first {
        text.push_reserved_number(b" ", first);
    }
}

/// Appends the entries from the first up to the end, each after a space.
fn push_entries<T: Allocator>(text: &mut TextBuffer<T>, first: u64, end: u64)
    requires { 21 * (end - first) ≤ text.old.room }
    ensures bytes { text.new.bytes ≡ text.old.bytes ++ numbers_text (entries_between first end) }
    ensures room { text.old.room ≤ text.new.room + 21 * (end - first) }
{
    for entry in first..end {
        text.push_reserved_number(b" ", entry);
    }
}

/// Appends sectors of 512 bytes, each by its first byte and after a space.
pub(crate) fn push_sectors<T: Allocator>(text: &mut TextBuffer<T>, bytes: &[u8])
    requires { 3 * (length bytes.now / 512) ≤ text.old.room }
    ensures bytes { text.new.bytes ≡ text.old.bytes ++ sectors_text bytes.now (length bytes.now / 512) }
    ensures room { text.old.room ≤ text.new.room + 3 * (length bytes.now / 512) }
{
    for i in 0..bytes.len() / 512 {
        text.push_reserved(&spaced_byte(bytes[512 * i]));
    }
}
