//! An entry of the journal in words.

ghost use Rattle.std.specs.Prelude.{◌≡◌, ◌++◌, OnOk};
ghost use Rattle.ncq_journal.specs.Entry.{entry_of};
ghost use Rattle.ncq_journal.specs.Work.{work_of};
ghost use Rattle.ahci_draw.specs.Words.{direction, entry_words, failure_words, issue_words, plain_words, title_text, zero_words};

use crate::text::push_number;
use ncq_journal::{Event, Op, Plain};
use std::alloc::{AllocError, Allocator};
use streams::TextBuffer;

/// A queued command's direction.
fn direction<A: Allocator>(op: &Op<A>) -> &'static [u8]
    ensures { result.now ≡ direction (work_of op.now) }
{
    match op {
        Op::Read { .. } => b": read, tag ",
        Op::Write { .. } => b": write, tag ",
    }
}

/// The title of a command that is not queued (ACS-3).
fn plain_words(command: Plain) -> &'static [u8]
    ensures { result.now ≡ plain_words command }
{
    match command {
        Plain::Identify => b": IDENTIFY DEVICE",
        Plain::Flush => b": FLUSH CACHE EXT",
        Plain::ReadLog => b": READ LOG EXT",
    }
}

#[tactic(auto, unfolding(crate::specs::Words::issue_words))]
fn push_issue<A: Allocator, B: Allocator>(
    text: &mut TextBuffer<A>,
    tag: u8,
    op: &Op<B>,
) -> Result<(), AllocError>
    ensures { OnOk result (text.new.bytes ≡ text.old.bytes ++ issue_words tag (work_of op.now)) }
{
    push_number(text, direction(op), tag as u128)?;
    push_number(text, b", LBA ", op.lba() as u128)?;
    push_number(text, b", sectors ", op.sectors() as u128)
}

#[tactic(auto, unfolding(crate::specs::Words::failure_words))]
fn push_failure<A: Allocator>(
    text: &mut TextBuffer<A>,
    tag: u8,
    error: u8,
    lba: u64,
) -> Result<(), AllocError>
    ensures { OnOk result (text.new.bytes ≡ text.old.bytes ++ failure_words tag error lba) }
{
    text.push(b": error")?;
    text.push_byte(error)?;
    push_number(text, b"h, tag ", tag as u128)?;
    push_number(text, b", LBA ", lba as u128)
}

#[tactic(auto, unfolding(crate::specs::Words::zero_words))]
fn push_zero<A: Allocator>(
    text: &mut TextBuffer<A>,
    lba: u64,
    sectors: u32,
) -> Result<(), AllocError>
    ensures { OnOk result (text.new.bytes ≡ text.old.bytes ++ zero_words lba sectors) }
{
    push_number(text, b": DATA SET MANAGEMENT, LBA ", lba as u128)?;
    push_number(text, b", sectors ", sectors as u128)
}

/// Appends an entry in words, after its number.
fn push_words<A: Allocator, B: Allocator>(
    text: &mut TextBuffer<A>,
    event: &Event<B>,
) -> Result<(), AllocError>
    ensures { OnOk result (text.new.bytes ≡ text.old.bytes ++ entry_words (entry_of event.now)) }
{
    match event {
        Event::Issue(tag, op) => push_issue(text, *tag, op),
        Event::Accept(tag) => push_number(text, b": accept, tag ", *tag as u128),
        Event::Complete(tag) => push_number(text, b": complete, tag ", *tag as u128),
        Event::Fail { tag, error, lba } => push_failure(text, *tag, *error, *lba),
        Event::Recover(tag) => push_number(text, b": recover, tag ", *tag as u128),
        Event::Reissue(tag) => push_number(text, b": issue again, tag ", *tag as u128),
        Event::Collect(tag) => push_number(text, b": collect, tag ", *tag as u128),
        Event::Plain(command) => text.push(plain_words(*command)),
        Event::Zero { lba, sectors } => push_zero(text, *lba, *sectors),
    }
}

/// Appends an entry's number, and the entry in words.
#[tactic(auto, unfolding(crate::specs::Words::title_text, crate::specs::Text::numbered))]
pub(crate) fn push_title<A: Allocator, B: Allocator>(
    text: &mut TextBuffer<A>,
    number: u64,
    event: &Event<B>,
) -> Result<(), AllocError>
    ensures { OnOk result (text.new.bytes ≡ text.old.bytes ++ title_text number (entry_of event.now)) }
{
    push_number(text, b"", number as u128)?;
    push_words(text, event)
}
