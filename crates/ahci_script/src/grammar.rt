//! The grammar of scripts: each command's name, and the words that follow it.

ghost use Rattle.std.specs.Prelude.{◌≡◌, IfOk};
ghost use Rattle.ahci_script.specs.Breaches.{comment_of};
ghost use Rattle.ahci_script.specs.Lines.{HasSmallTag, HasSmallTags, accept_of, ack_of, alone, collect_of, command_of, disk_of, fail_of, identify_of, named, raw_of, read_of, reading, reg_of, reissue_of, serve_of, show_of, unnamed, write_of};

use crate::breach::{Breach, high_byte};
use crate::command_name::{CommandName, command_name};
use crate::fault::Fault;
use crate::line::{Line, ScriptCommand};
use crate::raw_window::RawWindow;
use crate::tags::tags;
use crate::words::{Words, first};

/// Reads a line, without its line feed: what it spells; else the first rule of the language that it breaks, from the left. A
/// byte that no command has, and in a comment one over 127, is reported before all else.
// Inline where a line is answered: its command then goes from its words to its call with no move.
#[inline(always)]
pub fn read_line(line: &[u8]) -> Result<Line<'_>, Breach>
    ensures line { result ≡ reading line.now }
    ensures tags { IfOk result (λ line. HasSmallTags line) }
{
    match line {
        [] => Ok(Line::Skip),
        [b'#', ..] => {
            comment(line)?;
            Ok(Line::Skip)
        }
        _ => match command(line) {
            Ok(command) => Ok(Line::Run(command)),
            Err(breach) => Err(breach.seen_in(line)),
        },
    }
}

/// A comment may hold any byte below 128.
pub(crate) fn comment(line: &[u8]) -> Result<(), Breach>
    ensures { result ≡ comment_of line.now }
{
    match high_byte(line) {
        Some(at) => Err(Breach::at(&line[at..], Fault::HighByte)),
        None => Ok(()),
    }
}

/// A command, by its name and the words after it.
fn command(line: &[u8]) -> Result<ScriptCommand<'_>, Breach>
    ensures command { result ≡ command_of line.now }
    ensures tag { IfOk result (λ command. HasSmallTag command) }
{
    let (name, words) = first(line);
    named(line, name, words)
}

/// A command, after whose words nothing is left.
fn alone<'a>(words: Words<'a>, command: ScriptCommand<'a>) -> Result<ScriptCommand<'a>, Breach>
    requires { HasSmallTag command }
    ensures command { result ≡ alone command.entry words.entry }
    ensures tag { IfOk result (λ command. HasSmallTag command) }
{
    words.end()?;
    Ok(command)
}

/// A command by its name, the first word of its line.
fn named<'a>(line: &[u8], name: &[u8], words: Words<'a>) -> Result<ScriptCommand<'a>, Breach>
    ensures command { result ≡ named line.now name.now words.entry }
    ensures tag { IfOk result (λ command. HasSmallTag command) }
{
    match command_name(name) {
        Some(CommandName::Write) => write(words),
        Some(CommandName::Read) => read(words),
        Some(CommandName::Raw) => raw(words),
        Some(CommandName::Collect) => collect(words),
        Some(CommandName::Recover) => alone(words, ScriptCommand::Recover),
        Some(CommandName::Reissue) => reissue(words),
        Some(CommandName::Disk) => disk(words),
        Some(CommandName::Identify) => identify(words),
        Some(CommandName::Flush) => alone(words, ScriptCommand::Flush),
        Some(CommandName::Show) => show(words),
        Some(CommandName::Journal) => alone(words, ScriptCommand::Journal),
        Some(CommandName::Trim) => alone(words, ScriptCommand::Trim),
        Some(CommandName::Accept) => accept(words),
        Some(CommandName::Serve) => serve(words),
        Some(CommandName::Fail) => fail(words),
        Some(CommandName::Reg) => reg(words),
        Some(CommandName::Ack) => ack(words),
        None => Err(unnamed(line, name)),
    }
}

/// A line that begins with no command's name.
pub(crate) fn unnamed(line: &[u8], name: &[u8]) -> Breach
    ensures { result ≡ unnamed line.now name.now }
{
    if name.is_empty() {
        Breach::at(line, Fault::SpareSpace)
    } else {
        Breach::at(line, Fault::UnknownCommand)
    }
}

fn write(words: Words<'_>) -> Result<ScriptCommand<'_>, Breach>
    ensures command { result ≡ write_of words.entry }
    ensures tag { IfOk result (λ command. HasSmallTag command) }
{
    let (tag, words) = words.tag()?;
    let (lba, words) = words.number()?;
    let (sectors, words) = words.sectors()?;
    let (fill, words) = words.byte()?;
    words.end()?;
    Ok(ScriptCommand::Write {
        tag,
        lba,
        sectors,
        fill,
    })
}

fn read(words: Words<'_>) -> Result<ScriptCommand<'_>, Breach>
    ensures command { result ≡ read_of words.entry }
    ensures tag { IfOk result (λ command. HasSmallTag command) }
{
    let (tag, words) = words.tag()?;
    let (lba, words) = words.number()?;
    let (sectors, words) = words.sectors()?;
    alone(words, ScriptCommand::Read { tag, lba, sectors })
}

fn raw(words: Words<'_>) -> Result<ScriptCommand<'_>, Breach>
    ensures command { result ≡ raw_of words.entry }
    ensures tag { IfOk result (λ command. HasSmallTag command) }
{
    let (tag, words) = words.tag()?;
    let (header, words) = words.header()?;
    let (bytes, words) = words.bytes()?;
    words.end()?;
    Ok(ScriptCommand::Raw {
        tag,
        window: RawWindow { header, bytes },
    })
}

fn collect(words: Words<'_>) -> Result<ScriptCommand<'_>, Breach>
    ensures command { result ≡ collect_of words.entry }
    ensures tag { IfOk result (λ command. HasSmallTag command) }
{
    let (tag, words) = words.tag()?;
    let (number, words) = words.number()?;
    alone(words, ScriptCommand::Collect { tag, number })
}

fn reissue(words: Words<'_>) -> Result<ScriptCommand<'_>, Breach>
    ensures command { result ≡ reissue_of words.entry }
    ensures tag { IfOk result (λ command. HasSmallTag command) }
{
    let (tag, words) = words.tag()?;
    alone(words, ScriptCommand::Reissue { tag })
}

fn disk(words: Words<'_>) -> Result<ScriptCommand<'_>, Breach>
    ensures command { result ≡ disk_of words.entry }
    ensures tag { IfOk result (λ command. HasSmallTag command) }
{
    let (sectors, words) = words.number()?;
    let (depth, words) = words.number()?;
    let first = words.number_if_any()?;
    Ok(ScriptCommand::Disk {
        sectors,
        depth,
        first,
    })
}

fn identify(words: Words<'_>) -> Result<ScriptCommand<'_>, Breach>
    ensures command { result ≡ identify_of words.entry }
    ensures tag { IfOk result (λ command. HasSmallTag command) }
{
    let (word, words) = words.page_word()?;
    alone(words, ScriptCommand::Identify { word })
}

fn show(words: Words<'_>) -> Result<ScriptCommand<'_>, Breach>
    ensures command { result ≡ show_of words.entry }
    ensures tag { IfOk result (λ command. HasSmallTag command) }
{
    let (lba, words) = words.number()?;
    alone(words, ScriptCommand::Show { lba })
}

fn accept(words: Words<'_>) -> Result<ScriptCommand<'_>, Breach>
    ensures command { result ≡ accept_of words.entry }
    ensures tag { IfOk result (λ command. HasSmallTag command) }
{
    let (tag, words) = words.tag()?;
    alone(words, ScriptCommand::Accept { tag })
}

fn serve(words: Words<'_>) -> Result<ScriptCommand<'_>, Breach>
    ensures command { result ≡ serve_of words.entry }
    ensures tag { IfOk result (λ command. HasSmallTag command) }
{
    let tags = tags(words)?;
    Ok(ScriptCommand::Serve { tags })
}

fn fail(words: Words<'_>) -> Result<ScriptCommand<'_>, Breach>
    ensures command { result ≡ fail_of words.entry }
    ensures tag { IfOk result (λ command. HasSmallTag command) }
{
    let (tag, words) = words.tag()?;
    let (error, words) = words.byte()?;
    let (lba, words) = words.number()?;
    alone(words, ScriptCommand::Fail { tag, error, lba })
}

fn reg(words: Words<'_>) -> Result<ScriptCommand<'_>, Breach>
    ensures command { result ≡ reg_of words.entry }
    ensures tag { IfOk result (λ command. HasSmallTag command) }
{
    let (off, words) = words.register()?;
    alone(words, ScriptCommand::Reg { off })
}

fn ack(words: Words<'_>) -> Result<ScriptCommand<'_>, Breach>
    ensures command { result ≡ ack_of words.entry }
    ensures tag { IfOk result (λ command. HasSmallTag command) }
{
    let (mask, words) = words.register()?;
    alone(words, ScriptCommand::Ack { mask })
}
