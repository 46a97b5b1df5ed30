//! A journal as a script.

ghost use Rattle.std.specs.Prelude.{◌≡◌, ◌∷◌, [], ◌++◌, ℕ, List, IfOk, OnOk, length};
ghost use Rattle.ahci_script.specs.declared.line.ScriptCommand.TheVariants.{Disk, Serve};
ghost use Rattle.ahci_script.specs.Printing.{printed};
ghost use Rattle.ncq_journal.specs.Entry.{Entry, entry_of};
ghost use Rattle.ncq_journal.specs.History.{history_of};
ghost use Rattle.ncq_journal.specs.Lawful.{IsLawful, IsProper, IsProperEntry};
ghost use Rattle.ncq_journal.specs.Work.{sectors_of, work_of};
ghost use Rattle.ahci_jobs.specs.Noted.{AreNoted};
ghost use Rattle.ahci_jobs.specs.Scripts.{collect_command, comment_of, entry_command, entry_line, entry_lines, fail_command, issue_command, issued_in, script_text, unqueued_command};

use crate::issued::{Issued, TAGS};
use ahci_port::Port;
use ahci_script::{ScriptCommand, push_command};
use arrayvec::ArrayVec;
use ncq_journal::{Event, Op, Plain};
use std::alloc::{AllocError, Allocator};
use streams::TextBuffer;

/// How many sectors a command reads or writes, one that can be issued.
fn sectors_of<A: Allocator>(op: &Op<A>) -> u32
    requires { IsProper (work_of op.now) }
    ensures { result ≡ sectors_of (work_of op.now) }
{
    op.sectors() as u32
}

/// The command that issues another.
fn issue_command<A: Allocator>(tag: u8, op: &Op<A>) -> ScriptCommand<'static>
    requires { IsProper (work_of op.now) }
    ensures { result ≡ issue_command tag (work_of op.now) }
{
    let sectors = sectors_of(op);
    match op {
        Op::Read { lba, .. } => ScriptCommand::Read {
            tag,
            lba: *lba,
            sectors,
        },
        Op::Write { lba, bytes } => ScriptCommand::Write {
            tag,
            lba: *lba,
            sectors,
            fill: bytes.as_slice().first().copied().unwrap_or(0),
        },
    }
}

/// The command that serves one tag.
fn serve_command(tag: u8) -> ScriptCommand<'static>
    ensures { result ≡ Serve (record { items = tag ∷ [] }) }
{
    let mut tags = ArrayVec::new();
    tags.push(tag);
    ScriptCommand::Serve { tags }
}

/// The command at which one fails.
fn fail_command(issued: Issued, tag: u8, error: u8, lba: u64) -> ScriptCommand<'static>
    ensures { result ≡ fail_command issued tag error lba }
{
    if issued.is_outside {
        return ScriptCommand::Accept { tag };
    }
    ScriptCommand::Fail { tag, error, lba }
}

/// The command that collects one.
fn collect_command(issued: Issued, tag: u8) -> ScriptCommand<'static>
    ensures { result ≡ collect_command issued tag }
{
    ScriptCommand::Collect {
        tag,
        number: issued.number,
    }
}

/// The command for one that is not queued. READ LOG EXT has none.
fn unqueued_command(command: Plain) -> Option<ScriptCommand<'static>>
    ensures { result ≡ unqueued_command command }
{
    match command {
        Plain::Identify => Some(ScriptCommand::Identify { word: 0 }),
        Plain::Flush => Some(ScriptCommand::Flush),
        Plain::ReadLog => None,
    }
}

/// The command that appends an entry to a journal, of whose tags this is kept. READ LOG EXT and sectors that become zeros have none.
fn entry_command<A: Allocator>(
    kept: &[Issued; TAGS],
    event: &Event<A>,
) -> Option<ScriptCommand<'static>>
    requires { IsProperEntry (entry_of event.now) }
    ensures { (sectors : ℕ) (past : List Entry) → AreNoted sectors past kept.now
        → result ≡ entry_command (issued_in sectors past) (entry_of event.now) }
{
    match event {
        Event::Issue(tag, op) => Some(issue_command(*tag, op)),
        Event::Accept(tag) => Some(ScriptCommand::Accept { tag: *tag }),
        Event::Complete(tag) => Some(serve_command(*tag)),
        Event::Fail { tag, error, lba } => {
            Some(fail_command(kept[usize::from(*tag)], *tag, *error, *lba))
        }
        Event::Recover(_) => Some(ScriptCommand::Recover),
        Event::Reissue(tag) => Some(ScriptCommand::Reissue { tag: *tag }),
        Event::Collect(tag) => Some(collect_command(kept[usize::from(*tag)], *tag)),
        Event::Plain(command) => unqueued_command(*command),
        Event::Zero { .. } => None,
    }
}

/// The comment of an entry without a command: of those that are not sectors that become zeros, READ LOG EXT alone has none.
fn comment_of<A: Allocator>(event: &Event<A>) -> &'static [u8]
    ensures { result.now ≡ comment_of (entry_of event.now) }
{
    match event {
        Event::Zero { .. } => b"# DATA SET MANAGEMENT",
        Event::Issue(_, _) | Event::Accept(_) | Event::Complete(_) | Event::Fail { .. } => {
            b"# READ LOG EXT"
        }
        Event::Recover(_) | Event::Reissue(_) | Event::Collect(_) | Event::Plain(_) => {
            b"# READ LOG EXT"
        }
    }
}

/// Appends the line of an entry of a journal, of whose tags this is kept. One without a command is a comment.
fn push_entry<A: Allocator, B: Allocator>(
    text: &mut TextBuffer<A>,
    kept: &[Issued; TAGS],
    event: &Event<B>,
) -> Result<(), AllocError>
    requires { IsProperEntry (entry_of event.now) }
    ensures { (sectors : ℕ) (past : List Entry) → AreNoted sectors past kept.now
        → OnOk result (text.new.bytes ≡ text.old.bytes ++ entry_line (issued_in sectors past) (entry_of event.now)) }
{
    match entry_command(kept, event) {
        Some(command) => push_command(text, &command),
        None => text.push(comment_of(event)),
    }
}

/// No tag was issued.
fn nothing_kept() -> [Issued; TAGS]
    ensures { (sectors : ℕ) → AreNoted sectors [] result }
{
    [Issued::none(); TAGS]
}

/// Keeps what an entry at a place says of its tag's request.
fn note<A: Allocator>(kept: &mut [Issued; TAGS], sectors: u32, place: u64, event: &Event<A>)
    ensures { (past : List Entry) → length past ≡ place → AreNoted sectors past kept.old → AreNoted sectors (entry_of event.now ∷ past) kept.new }
{
    if let Event::Issue(tag, op) = event {
        kept[usize::from(*tag)] = Issued::of(sectors, place, op);
    }
}

/// Appends the commands that have made a journal on a disk of so many sectors, each with its line feed.
fn push_entries<A: Allocator, B: Allocator>(
    text: &mut TextBuffer<A>,
    sectors: u32,
    events: &[Event<B>],
) -> Result<(), AllocError>
    requires { (depth : ℕ) × IsLawful sectors depth (history_of events.now) }
    ensures { OnOk result (text.new.bytes ≡ text.old.bytes ++ entry_lines sectors (history_of events.now)) }
{
    let mut kept = nothing_kept();
    for (place, event) in events.iter().enumerate() {
        push_entry(text, &kept, event)?;
        text.push(b"\n")?;
        note(&mut kept, sectors, place as u64, event);
    }
    Ok(())
}

/// Appends the command that makes a disk, with its line feed.
fn push_disk<A: Allocator>(
    text: &mut TextBuffer<A>,
    sectors: u32,
    depth: u32,
) -> Result<(), AllocError>
    ensures { OnOk result (text.new.bytes ≡ text.old.bytes ++ (printed (Disk sectors depth None) ++ 10 ∷ [])) }
{
    let disk = ScriptCommand::Disk {
        sectors: u64::from(sectors),
        depth: u64::from(depth),
        first: None,
    };
    push_command(text, &disk)?;
    text.push(b"\n")
}

/// The journal of a port that began with a disk of zeros, as a script.
#[tactic(auto, unfolding(crate::specs::Scripts::script_text))]
pub(crate) fn script<A: Allocator, B: Allocator>(
    alloc: A,
    port: &Port<B>,
) -> Result<Vec<u8, A>, AllocError>
    ensures { IfOk result (λ text. text.items ≡ script_text port.now) }
{
    let journal = port.journal();
    let sectors = port.sectors();
    let events = journal.entries();
    let mut text = TextBuffer::new(alloc);
    push_disk(&mut text, sectors, port.depth())?;
    push_entries(&mut text, sectors, events)?;
    Ok(text.into_bytes())
}
