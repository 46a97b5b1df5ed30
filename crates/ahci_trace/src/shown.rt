//! The text of a trace: indented lines.

ghost use Rattle.std.specs.Prelude.{◌≡◌, ◌++◌, OnOk, IfOk};
ghost use Rattle.std.specs.Option.{option_map};
ghost use Rattle.ahci_trace.specs.Sent.{shown};
ghost use Rattle.ahci_trace.specs.Text.{change_text, command_text, direction, entry_text, fis_text, page_text, prdt_text, received_text, sent_text, slot_text, told_text, what_text, write_text};
ghost use Rattle.ahci_trace.specs.Trace.{told};

use crate::appended::Appended;
use crate::change::Change;
use crate::command_trace::CommandTrace;
use crate::kinds::{kind_name, phase_name};
use crate::names::push_bits;
use crate::note::{Note, push_named, push_notes};
use crate::owned::OwnedSlot;
use crate::received::Received;
use crate::register_write::RegisterWrite;
use crate::sent::SentCommand;
use crate::transfer::push_data;
use ncq_journal::EventKind;
use std::alloc::{AllocError, Allocator};
use streams::TextBuffer;

/// The text of a trace.
pub(crate) fn text_of<A: Allocator + Copy>(
    alloc: A,
    trace: &CommandTrace<A>,
) -> Result<Vec<u8, A>, AllocError>
    ensures { IfOk result (λ text. text.items ≡ told_text (told trace.now)) }
{
    let mut text = TextBuffer::new(alloc);
    push_notes(&mut text, &trace.entries)?;
    push_notes(&mut text, &trace.writes)?;
    trace.sent.push_to(&mut text)?;
    push_notes(&mut text, &trace.served)?;
    trace.received.push_to(&mut text)?;
    push_notes(&mut text, &trace.changes)?;
    push_notes(&mut text, &trace.slots)?;
    Ok(text.into_bytes())
}

/// The direction of a queued command.
fn direction(write: bool) -> &'static [u8]
    ensures { result.now ≡ direction write }
{
    if write { b" write " } else { b" read " }
}

/// What an entry says.
impl Note for EventKind {
    ghost note = { what_text };

    fn push_to<A: Allocator + Copy>(&self, text: &mut TextBuffer<A>) -> Result<(), AllocError> {
        text.push(kind_name(*self).as_bytes())?;
        match *self {
            EventKind::Issue {
                tag,
                write,
                lba,
                sectors,
            } => {
                text.push_number(b" ", tag)?;
                text.push_number(direction(write), lba)?;
                text.push_number(b" ", sectors)
            }
            EventKind::Accept(tag)
            | EventKind::Complete(tag)
            | EventKind::Recover(tag)
            | EventKind::Reissue(tag)
            | EventKind::Collect(tag) => text.push_number(b" ", tag),
            EventKind::Fail { tag, error, lba } => {
                text.push_number(b" ", tag)?;
                text.push_byte(error)?;
                text.push_number(b" ", lba)
            }
            EventKind::Plain(_) => Ok(()),
            EventKind::Zero { lba, sectors } => {
                text.push_number(b" ", lba)?;
                text.push_number(b" ", sectors)
            }
        }
    }
}

impl Note for Appended {
    ghost note = { entry_text };

    fn push_to<A: Allocator + Copy>(&self, text: &mut TextBuffer<A>) -> Result<(), AllocError> {
        text.push_number(b"  entry ", self.number)?;
        text.push(b": ")?;
        self.what.push_to(text)?;
        text.push(b"\n")
    }
}

impl Note for RegisterWrite {
    ghost note = { write_text };

    fn push_to<A: Allocator + Copy>(&self, text: &mut TextBuffer<A>) -> Result<(), AllocError> {
        text.push(b"  wrote ")?;
        text.push(self.register.name().as_bytes())?;
        text.push(b" ")?;
        text.push_word(self.word)?;
        text.push(b"\n")
    }
}

/// An entry of a PRDT.
impl Note for [u8; 16] {
    ghost note = { prdt_text };

    fn push_to<A: Allocator + Copy>(&self, text: &mut TextBuffer<A>) -> Result<(), AllocError> {
        push_named(text, b"  sent PRDT entry", self)
    }
}

impl<B: Allocator> Note for SentCommand<B> {
    ghost note = { λ sent. command_text (shown sent) };

    fn push_to<A: Allocator + Copy>(&self, text: &mut TextBuffer<A>) -> Result<(), AllocError> {
        push_named(text, b"  sent command header", &self.header)?;
        push_named(text, b"  sent CFIS", &self.cfis)?;
        push_notes(text, &self.entries)
    }
}

/// What was sent, where something was.
impl<B: Allocator> Note for Option<SentCommand<B>> {
    ghost note = { λ sent. sent_text (option_map shown sent) };

    fn push_to<A: Allocator + Copy>(&self, text: &mut TextBuffer<A>) -> Result<(), AllocError> {
        match self {
            Some(command) => command.push_to(text),
            None => Ok(()),
        }
    }
}

/// Appends a FIS by the standard's name, where one came.
fn push_fis<A: Allocator, const N: usize>(
    text: &mut TextBuffer<A>,
    name: &[u8],
    fis: &Option<[u8; N]>,
) -> Result<(), AllocError>
    ensures { OnOk result (text.new.bytes ≡ text.old.bytes ++ fis_text name.now fis.now) }
{
    match fis {
        Some(bytes) => push_named(text, name, bytes),
        None => Ok(()),
    }
}

/// Appends a PIO Setup FIS and the Data FIS of a page, where they came.
fn push_page<A: Allocator>(
    text: &mut TextBuffer<A>,
    setup: &Option<[u8; 20]>,
) -> Result<(), AllocError>
    ensures { OnOk result (text.new.bytes ≡ text.old.bytes ++ page_text setup.now) }
{
    match setup {
        Some(bytes) => {
            push_named(text, b"  received PIO Setup FIS", bytes)?;
            push_data(text, b"  received Data FIS", 512)
        }
        None => Ok(()),
    }
}

/// The FISes that came, but for those of the data.
impl Note for Received {
    ghost note = { received_text };

    fn push_to<A: Allocator + Copy>(&self, text: &mut TextBuffer<A>) -> Result<(), AllocError> {
        push_page(text, &self.pio)?;
        push_fis(text, b"  received D2H Register FIS", &self.register)?;
        push_fis(text, b"  received Set Device Bits FIS", &self.bits)
    }
}

impl Note for Change {
    ghost note = { change_text };

    fn push_to<A: Allocator + Copy>(&self, text: &mut TextBuffer<A>) -> Result<(), AllocError> {
        text.push(b"  ")?;
        text.push(self.register.name().as_bytes())?;
        text.push(b" ")?;
        text.push_word(self.word)?;
        push_bits(text, self.register, self.word)?;
        text.push(b"\n")
    }
}

impl Note for OwnedSlot {
    ghost note = { slot_text };

    fn push_to<A: Allocator + Copy>(&self, text: &mut TextBuffer<A>) -> Result<(), AllocError> {
        text.push_number(b"  slot ", self.tag)?;
        text.push(b" ")?;
        text.push(phase_name(self.phase).as_bytes())?;
        text.push(b"\n")
    }
}
