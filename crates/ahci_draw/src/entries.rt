//! The lines of what is new in a journal.

ghost use Rattle.std.specs.Prelude.{◌≡◌, ◌++◌, ◌-◌, OnOk, length};
ghost use Rattle.ncq_journal.specs.Numbering.{entry_numbered, number_of};
ghost use Rattle.ahci_draw.specs.Entries.{entries_text, line_of, moved_by};
ghost use Rattle.ahci_draw.specs.Listing.{added_on};

use crate::line::push_line;
use crate::mark::Mark;
use crate::tag_state::TagState;
use crate::tags::tags_after;
use ahci_port::Port;
use ncq_journal::Journal;
use std::alloc::{AllocError, Allocator};
use streams::TextBuffer;

/// Appends the line of the entry of a number, where there is one, and moves the tags after it.
fn push_entry<A: Allocator, B: Allocator>(
    text: &mut TextBuffer<A>,
    journal: &Journal<B>,
    tags: &mut [TagState; 32],
    number: u64,
) -> Result<(), AllocError>
    ensures text { OnOk result (text.new.bytes ≡ text.old.bytes ++ line_of number tags.old (entry_numbered journal.now.first journal.now.past number)) }
    ensures tags { OnOk result (tags.new ≡ moved_by tags.old (entry_numbered journal.now.first journal.now.past number)) }
{
    match journal.get(number) {
        Some(event) => {
            *tags = tags_after(tags, event);
            push_line(text, number, tags, event)
        }
        None => Ok(()),
    }
}

/// Appends a line for each entry from a number on. Before them the tags had these states.
fn push_entries<A: Allocator, B: Allocator>(
    text: &mut TextBuffer<A>,
    journal: &Journal<B>,
    before: &[TagState; 32],
    start: u64,
) -> Result<(), AllocError>
    ensures { OnOk result (text.new.bytes ≡ text.old.bytes ++ entries_text journal.now.first journal.now.past before.now start
        (number_of journal.now.first (length journal.now.past) - start)) }
{
    let mut tags = *before;
    for number in start..journal.end() {
        push_entry(text, journal, &mut tags, number)?;
    }
    Ok(())
}

/// Appends what a command has added that found the port of the mark, and has left this one: a line for each entry.
pub(crate) fn push_added<A: Allocator, B: Allocator>(
    text: &mut TextBuffer<A>,
    mark: &Mark,
    port: &Port<B>,
) -> Result<(), AllocError>
    ensures { OnOk result (text.new.bytes ≡ text.old.bytes ++ added_on mark.now port.now) }
{
    let journal = port.journal();
    let start = mark.end.max(journal.first());
    push_entries(text, journal, &mark.tags, start)
}
