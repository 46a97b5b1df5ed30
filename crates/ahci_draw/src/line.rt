//! The line of an entry in the listing: a byte for each thing that is drawn, and the entry in words.

ghost use Rattle.std.specs.Prelude.{◌≡◌, ◌++◌, OnOk};
ghost use Rattle.ncq_journal.specs.Entry.{entry_of};
ghost use Rattle.ncq_journal.specs.Work.{work_of};
ghost use Rattle.ahci_draw.specs.Line.{cell, cells, entry_line, issue_sign, lane_of, plain_sign, sign_of};

use crate::tag_state::TagState;
use crate::tags::in_device;
use crate::text::letter;
use crate::words::push_title;
use ncq_journal::{Event, Op, Phase, Plain};
use std::alloc::{AllocError, Allocator};
use streams::TextBuffer;

/// The state of a tag, as a letter: a capital for a write.
fn cell(phase: Phase, writes: bool) -> u8
    ensures { result ≡ cell phase writes }
{
    match phase {
        Phase::Free => b'.',
        Phase::Issued if writes => b'I',
        Phase::Issued => b'i',
        Phase::Accepted if writes => b'A',
        Phase::Accepted => b'a',
        Phase::Rejected | Phase::Broken if writes => b'F',
        Phase::Rejected | Phase::Broken => b'f',
        Phase::Held if writes => b'H',
        Phase::Held => b'h',
        Phase::Done if writes => b'D',
        Phase::Done => b'd',
    }
}

fn issue_sign<A: Allocator>(op: &Op<A>) -> u8
    ensures { result ≡ issue_sign (work_of op.now) }
{
    match op {
        Op::Read { .. } => b'R',
        Op::Write { .. } => b'W',
    }
}

fn plain_sign(command: Plain) -> u8
    ensures { result ≡ plain_sign command }
{
    match command {
        Plain::Identify => b'I',
        Plain::Flush => b'F',
        Plain::ReadLog => b'L',
    }
}

/// The sign of an entry.
fn sign_of<A: Allocator>(event: &Event<A>) -> u8
    ensures { result ≡ sign_of (entry_of event.now) }
{
    match event {
        Event::Issue(_, op) => issue_sign(op),
        Event::Accept(_) => b'A',
        Event::Complete(_) => b'C',
        Event::Fail { .. } => b'X',
        Event::Recover(_) => b'V',
        Event::Reissue(_) => b'N',
        Event::Collect(_) => b'E',
        Event::Plain(command) => plain_sign(*command),
        Event::Zero { .. } => b'Z',
    }
}

/// The lane of an entry's sign: its tag's letter, or a dot for none.
fn lane_of<A: Allocator>(event: &Event<A>) -> u8
    ensures { result ≡ lane_of (entry_of event.now) }
{
    match event {
        Event::Issue(tag, _)
        | Event::Accept(tag)
        | Event::Complete(tag)
        | Event::Fail { tag, .. }
        | Event::Recover(tag)
        | Event::Reissue(tag)
        | Event::Collect(tag) => letter(*tag as usize),
        Event::Plain(_) | Event::Zero { .. } => b'.',
    }
}

/// Appends a letter for each tag.
#[tactic(auto, unfolding(crate::specs::Line::cells))]
fn push_cells<A: Allocator>(
    text: &mut TextBuffer<A>,
    tags: &[TagState; 32],
) -> Result<(), AllocError>
    ensures { OnOk result (text.new.bytes ≡ text.old.bytes ++ cells tags.now) }
{
    for tag in 0..32u8 {
        text.push(&[cell(tags[tag as usize].phase, tags[tag as usize].writes)])?;
    }
    Ok(())
}

/// Appends the line of an entry, after which the tags have these states.
#[tactic(auto, unfolding(crate::specs::Line::entry_line))]
pub(crate) fn push_line<A: Allocator, B: Allocator>(
    text: &mut TextBuffer<A>,
    number: u64,
    tags: &[TagState; 32],
    event: &Event<B>,
) -> Result<(), AllocError>
    ensures { OnOk result (text.new.bytes ≡ text.old.bytes ++ entry_line number tags.now (entry_of event.now)) }
{
    text.push(b"\n")?;
    push_cells(text, tags)?;
    text.push(&[letter(in_device(tags)), sign_of(event), lane_of(event)])?;
    push_title(text, number, event)
}
