//! A command as a line of a script.

ghost use Rattle.std.specs.Prelude.{◌≡◌, ◌++◌, OnOk, codes};
ghost use Rattle.streams.specs.Text.{hex_of};
ghost use Rattle.ahci_script.specs.Answers.{numbers_text};
ghost use Rattle.ahci_script.specs.Printing.{before, hex_bytes, printed};
ghost use Rattle.ahci_script.specs.declared.line.ScriptCommand.TheVariants.{Disk, Fail, Raw, Read, Write};

use crate::hex_bytes::HexBytes;
use crate::line::ScriptCommand;
use crate::raw_window::RawWindow;
use std::alloc::{AllocError, Allocator};
use streams::{TextBuffer, two_digits};

/// Appends a command as the line that spells it, without a line feed. If its numbers are in their ranges, `read_line` reads
/// that line as this command.
///
/// # Errors
/// When an allocation fails. Then a part of the line may be appended.
pub fn push_command<A: Allocator>(
    text: &mut TextBuffer<A>,
    command: &ScriptCommand<'_>,
) -> Result<(), AllocError>
    ensures { OnOk result (text.new.bytes ≡ text.old.bytes ++ printed command.now) }
{
    match command {
        ScriptCommand::Disk {
            sectors,
            depth,
            first,
        } => push_disk(text, *sectors, *depth, *first),
        ScriptCommand::Write {
            tag,
            lba,
            sectors,
            fill,
        } => push_write(text, *tag, *lba, *sectors, *fill),
        ScriptCommand::Read { tag, lba, sectors } => push_read(text, *tag, *lba, *sectors),
        ScriptCommand::Raw { tag, window } => push_raw(text, *tag, window),
        ScriptCommand::Accept { tag } => text.push_number(b"accept ", *tag),
        ScriptCommand::Serve { tags } => push_serve(text, tags.as_slice()),
        ScriptCommand::Fail { tag, error, lba } => push_fail(text, *tag, *error, *lba),
        ScriptCommand::Collect { tag, number } => {
            text.push_number(b"collect ", *tag)?;
            text.push_number(b" ", *number)
        }
        ScriptCommand::Recover => text.push(b"recover"),
        ScriptCommand::Reissue { tag } => text.push_number(b"reissue ", *tag),
        ScriptCommand::Reg { off } => push_register(text, b"reg", *off),
        ScriptCommand::Ack { mask } => push_register(text, b"ack", *mask),
        ScriptCommand::Identify { word } => text.push_number(b"identify ", *word),
        ScriptCommand::Flush => text.push(b"flush"),
        ScriptCommand::Show { lba } => text.push_number(b"show ", *lba),
        ScriptCommand::Journal => text.push(b"journal"),
        ScriptCommand::Trim => text.push(b"trim"),
    }
}

fn push_disk<A: Allocator>(
    text: &mut TextBuffer<A>,
    sectors: u64,
    depth: u64,
    first: Option<u64>,
) -> Result<(), AllocError>
    ensures { OnOk result (text.new.bytes ≡ text.old.bytes ++ printed (Disk sectors depth first)) }
{
    text.push_number(b"disk ", sectors)?;
    text.push_number(b" ", depth)?;
    match first {
        Some(first) => text.push_number(b" ", first),
        None => Ok(()),
    }
}

fn push_write<A: Allocator>(
    text: &mut TextBuffer<A>,
    tag: u8,
    lba: u64,
    sectors: u32,
    fill: u8,
) -> Result<(), AllocError>
    ensures { OnOk result (text.new.bytes ≡ text.old.bytes ++ printed (Write tag lba sectors fill)) }
{
    text.push_number(b"write ", tag)?;
    text.push_number(b" ", lba)?;
    text.push_number(b" ", sectors)?;
    text.push_byte(fill)
}

fn push_read<A: Allocator>(
    text: &mut TextBuffer<A>,
    tag: u8,
    lba: u64,
    sectors: u32,
) -> Result<(), AllocError>
    ensures { OnOk result (text.new.bytes ≡ text.old.bytes ++ printed (Read tag lba sectors)) }
{
    text.push_number(b"read ", tag)?;
    text.push_number(b" ", lba)?;
    text.push_number(b" ", sectors)
}

fn push_raw<A: Allocator>(
    text: &mut TextBuffer<A>,
    tag: u8,
    window: &RawWindow<'_>,
) -> Result<(), AllocError>
    ensures { OnOk result (text.new.bytes ≡ text.old.bytes ++ printed (Raw tag window.now)) }
{
    text.push_number(b"raw ", tag)?;
    text.push(b" ")?;
    push_hex(text, &window.header)?;
    text.push(b" ")?;
    push_spelled(text, &window.bytes)
}

fn push_fail<A: Allocator>(
    text: &mut TextBuffer<A>,
    tag: u8,
    error: u8,
    lba: u64,
) -> Result<(), AllocError>
    ensures { OnOk result (text.new.bytes ≡ text.old.bytes ++ printed (Fail tag error lba)) }
{
    text.push_number(b"fail ", tag)?;
    text.push_byte(error)?;
    text.push_number(b" ", lba)
}

/// Appends a command's name, and a word by its eight digits.
fn push_register<A: Allocator>(
    text: &mut TextBuffer<A>,
    name: &[u8],
    word: u32,
) -> Result<(), AllocError>
    ensures { OnOk result (text.new.bytes ≡ text.old.bytes ++ before name.now (hex_of 8 word)) }
{
    text.push(name)?;
    text.push(b" ")?;
    text.push_word(word)
}

/// Appends `serve` and tags.
fn push_serve<A: Allocator>(text: &mut TextBuffer<A>, tags: &[u8]) -> Result<(), AllocError>
    ensures { OnOk result (text.new.bytes ≡ text.old.bytes ++ (codes "serve" ++ numbers_text tags.now)) }
{
    text.push(b"serve")?;
    push_numbers(text, tags)
}

/// Appends numbers, each after a space.
fn push_numbers<A: Allocator>(text: &mut TextBuffer<A>, numbers: &[u8]) -> Result<(), AllocError>
    ensures { OnOk result (text.new.bytes ≡ text.old.bytes ++ numbers_text numbers.now) }
{
    for number in numbers {
        text.push_number(b" ", *number)?;
    }
    Ok(())
}

/// Appends bytes, two digits each.
fn push_hex<A: Allocator>(text: &mut TextBuffer<A>, bytes: &[u8]) -> Result<(), AllocError>
    ensures { OnOk result (text.new.bytes ≡ text.old.bytes ++ hex_bytes bytes.now) }
{
    for byte in bytes {
        text.push(&two_digits(*byte))?;
    }
    Ok(())
}

/// Appends bytes that a line has spelled, two digits each.
fn push_spelled<A: Allocator>(
    text: &mut TextBuffer<A>,
    bytes: &HexBytes<'_>,
) -> Result<(), AllocError>
    ensures { OnOk result (text.new.bytes ≡ text.old.bytes ++ hex_bytes bytes.now) }
{
    for index in 0..bytes.len() {
        text.push(&two_digits(bytes.byte(index)))?;
    }
    Ok(())
}
