//! The parts of an object for a command, in their order: its line and answer, and what it did.

ghost use Rattle.std.specs.Option.{option_map};
ghost use Rattle.std.specs.Prelude.{◌≡◌, ◌++◌, codes, IfOk, OnOk, flat_map};
ghost use Rattle.ahci_script.specs.Answers.{answer_text};
ghost use Rattle.ahci_script.specs.Said.{said};
ghost use Rattle.word_bits.specs.Places.{bits};
ghost use Rattle.ahci_trace.specs.Json.{ascii_byte, ascii_of, number_member, text_member, entry_object, kind_word, what_members, write_object, prdt_value, sent_object, sent_value, payload_value, transfer_object, fis_member, received_object, before_value, bit_value, change_object, list_member, value_token, slot_object};
ghost use Rattle.ahci_trace.specs.Names.{bits_of, named};
ghost use Rattle.ahci_trace.specs.Sent.{shown};

use super::tokens::{Item, Member, Tokens, Value, ascii};
use crate::appended::Appended;
use crate::change::Change;
use crate::kinds::{kind_name, phase_name};
use crate::names::{NamedBit, bits_of};
use crate::owned::OwnedSlot;
use crate::received::Received;
use crate::register_write::RegisterWrite;
use crate::sent::SentCommand;
use crate::served::{payloads, setup};
use ahci_script::{ScriptAnswer, answer_bytes};
use json::Token;
use ncq_journal::{EventKind, Plain};
use sata_fis::Queued;
use std::alloc::{AllocError, Allocator};
use word_bits::is_set;

/// A byte of a line, or a question mark where it isn't ASCII, as in no line that is understood.
fn ascii_byte(byte: u8) -> u8
    ensures { result ≡ ascii_byte byte }
{
    if byte < 128 { byte } else { b'?' }
}

/// The text of a line.
fn ascii_of<A: Allocator>(alloc: A, line: &[u8]) -> Result<Vec<u8, A>, AllocError>
    ensures { IfOk result (λ text. text.items ≡ ascii_of line.now) }
{
    line.iter().map(|byte| ascii_byte(*byte)).collect(alloc)
}

impl<A: Allocator + Copy> Tokens<A> {
    /// Adds the number and the text of a command's line.
    #[tactic(auto, using(crate::proofs::AsciiLemmas::line_ascii))]
    pub(super) fn put_line(&mut self, number: u64, line: &[u8]) -> Result<(), AllocError>
        ensures { OnOk result (self.new ≡ self.old
            ++ (number_member (codes "line") number ++ text_member (codes "command") (ascii_of line.now))) }
    {
        let text = ascii_of(self.alloc, line)?;
        Member("line", Value::Number(number)).put(self)?;
        Member("command", Value::Text(ascii(&text))).put(self)
    }

    /// Adds a member with an answer.
    #[tactic(auto, using(crate::proofs::AsciiLemmas::answer_ascii))]
    pub(super) fn put_answer<B: Allocator>(
        &mut self,
        answer: &ScriptAnswer<B>,
    ) -> Result<(), AllocError>
        ensures { OnOk result (self.new ≡ self.old ++ text_member (codes "answer") (answer_text (said answer.now))) }
    {
        let text = answer_bytes(self.alloc, answer)?;
        Member("answer", Value::Text(ascii(&text))).put(self)
    }
}

/// The kind of an entry, in one word.
fn kind_word(what: EventKind) -> &'static str
    ensures { result.now ≡ kind_word what }
{
    match what {
        EventKind::Plain(Plain::ReadLog) => "read_log",
        _ => kind_name(what),
    }
}

/// What an entry says.
impl Item for EventKind {
    ghost value = { what_members };

    #[tactic(auto, unfolding(crate::specs::Json::what_members))]
    fn put<A: Allocator + Copy>(&self, tokens: &mut Tokens<A>) -> Result<(), AllocError> {
        match *self {
            EventKind::Issue {
                tag,
                write,
                lba,
                sectors,
            } => tokens.put_each(&[
                Member("tag", Value::Number(tag as u64)),
                Member("write", Value::Boolean(write)),
                Member("lba", Value::Number(lba)),
                Member("sectors", Value::Number(sectors)),
            ]),
            EventKind::Accept(tag)
            | EventKind::Complete(tag)
            | EventKind::Recover(tag)
            | EventKind::Reissue(tag)
            | EventKind::Collect(tag) => Member("tag", Value::Number(tag as u64)).put(tokens),
            EventKind::Fail { tag, error, lba } => tokens.put_each(&[
                Member("tag", Value::Number(tag as u64)),
                Member("error", Value::Byte(error)),
                Member("lba", Value::Number(lba)),
            ]),
            EventKind::Plain(_) => Ok(()),
            EventKind::Zero { lba, sectors } => tokens.put_each(&[
                Member("lba", Value::Number(lba)),
                Member("sectors", Value::Number(u64::from(sectors))),
            ]),
        }
    }
}

impl Item for Appended {
    ghost value = { entry_object };

    #[tactic(auto, unfolding(crate::specs::Json::entry_object))]
    fn put<A: Allocator + Copy>(&self, tokens: &mut Tokens<A>) -> Result<(), AllocError> {
        let number = Member("number", Value::Number(self.number));
        let entry = Member("entry", Value::Text(kind_word(self.what)));
        tokens.add(Token::BeginObject)?;
        tokens.put_each(&[number, entry])?;
        self.what.put(tokens)?;
        tokens.add(Token::EndObject)
    }
}

impl Item for RegisterWrite {
    ghost value = { write_object };

    #[tactic(auto, unfolding(crate::specs::Json::write_object))]
    fn put<A: Allocator + Copy>(&self, tokens: &mut Tokens<A>) -> Result<(), AllocError> {
        let name = Member("name", Value::Text(self.register.name()));
        tokens.put_object(&[name, Member("word", Value::Word(self.word))])
    }
}

/// An entry of a PRDT.
impl Item for [u8; 16] {
    ghost value = { prdt_value };

    fn put<A: Allocator + Copy>(&self, tokens: &mut Tokens<A>) -> Result<(), AllocError> {
        Value::Bytes(self).put(tokens)
    }
}

impl<B: Allocator> Item for SentCommand<B> {
    ghost value = { λ sent. sent_object (shown sent) };

    #[tactic(auto, unfolding(crate::specs::Json::sent_object))]
    fn put<A: Allocator + Copy>(&self, tokens: &mut Tokens<A>) -> Result<(), AllocError> {
        let header = Member("header", Value::Bytes(&self.header));
        let cfis = Member("cfis", Value::Bytes(&self.cfis));
        tokens.add(Token::BeginObject)?;
        tokens.put_each(&[header, cfis])?;
        tokens.put_list("prdt", &self.entries)?;
        tokens.add(Token::EndObject)
    }
}

/// What was sent, or null.
impl<B: Allocator> Item for Option<SentCommand<B>> {
    ghost value = { λ sent. sent_value (option_map shown sent) };

    fn put<A: Allocator + Copy>(&self, tokens: &mut Tokens<A>) -> Result<(), AllocError> {
        match self {
            Some(command) => command.put(tokens),
            None => tokens.add(Token::Null),
        }
    }
}

/// The number of bytes in a Data FIS.
impl Item for u32 {
    ghost value = { payload_value };

    fn put<A: Allocator + Copy>(&self, tokens: &mut Tokens<A>) -> Result<(), AllocError> {
        tokens.writer.u64(u64::from(*self))
    }
}

/// A command whose data moved.
impl Item for Queued {
    ghost value = { transfer_object };

    #[tactic(auto, unfolding(crate::specs::Json::transfer_object))]
    fn put<A: Allocator + Copy>(&self, tokens: &mut Tokens<A>) -> Result<(), AllocError> {
        let bytes = setup(self);
        let tag = Member("tag", Value::Number(self.tag as u64));
        let write = Member("write", Value::Boolean(self.write));
        let setup = Member("dma_setup", Value::Bytes(bytes.as_slice()));
        tokens.add(Token::BeginObject)?;
        tokens.put_each(&[tag, write, setup])?;
        let payloads = payloads(tokens.alloc, self)?;
        tokens.put_list("data", &payloads)?;
        tokens.add(Token::EndObject)
    }
}

/// Adds a member with a FIS, where one came.
fn put_fis<A: Allocator + Copy, const N: usize>(
    tokens: &mut Tokens<A>,
    name: &str,
    fis: &Option<[u8; N]>,
) -> Result<(), AllocError>
    ensures { OnOk result (tokens.new ≡ tokens.old ++ fis_member name.now fis.now) }
{
    match fis {
        Some(bytes) => Member(name, Value::Bytes(bytes)).put(tokens),
        None => Ok(()),
    }
}

/// The FISes that came.
impl Item for Received {
    ghost value = { received_object };

    #[tactic(auto, unfolding(crate::specs::Json::received_object))]
    fn put<A: Allocator + Copy>(&self, tokens: &mut Tokens<A>) -> Result<(), AllocError> {
        tokens.add(Token::BeginObject)?;
        put_fis(tokens, "dma_setup", &self.setup)?;
        put_fis(tokens, "pio_setup", &self.pio)?;
        put_fis(tokens, "d2h_register", &self.register)?;
        put_fis(tokens, "set_device_bits", &self.bits)?;
        tokens.add(Token::EndObject)
    }
}

impl<A: Allocator + Copy> Tokens<A> {
    /// Adds a bit's name, where it is set.
    fn put_bit(&mut self, word: u32, bit: NamedBit) -> Result<(), AllocError>
        ensures { OnOk result (self.new ≡ self.old ++ bit_value (bits word) (named bit)) }
    {
        let NamedBit(place, name) = bit;
        if is_set(word, place) {
            self.add(Token::String(name))?;
        }
        Ok(())
    }

    /// Adds the names of those of some bits that are set.
    fn put_each_bit(&mut self, word: u32, some: &[NamedBit]) -> Result<(), AllocError>
        ensures { OnOk result (self.new ≡ self.old ++ flat_map (λ b. bit_value (bits word) (named b)) some.now) }
    {
        for bit in some {
            self.put_bit(word, *bit)?;
        }
        Ok(())
    }

    /// Adds a member with the names of the bits that are set.
    #[tactic(auto, using(crate::proofs::NameLemmas::each_bit))]
    fn put_bits(&mut self, change: Change) -> Result<(), AllocError>
        ensures { OnOk result (self.new ≡ self.old
            ++ list_member (codes "bits") (flat_map (bit_value (bits change.word)) (bits_of change.register))) }
    {
        self.add(Token::Key("bits"))?;
        self.add(Token::BeginArray)?;
        self.put_each_bit(change.word, bits_of(change.register))?;
        self.add(Token::EndArray)
    }
}

/// The word of a register before, which is null where the command made the disk.
fn word_before(before: Option<u32>) -> Value<'static>
    ensures { value_token result ≡ before_value before }
{
    match before {
        Some(word) => Value::Word(word),
        None => Value::Null,
    }
}

impl Item for Change {
    ghost value = { change_object };

    #[tactic(auto, unfolding(crate::specs::Json::change_object))]
    fn put<A: Allocator + Copy>(&self, tokens: &mut Tokens<A>) -> Result<(), AllocError> {
        let name = Member("name", Value::Text(self.register.name()));
        let before = Member("before", word_before(self.before));
        let word = Member("word", Value::Word(self.word));
        tokens.add(Token::BeginObject)?;
        tokens.put_each(&[name, before, word])?;
        tokens.put_bits(*self)?;
        tokens.add(Token::EndObject)
    }
}

impl Item for OwnedSlot {
    ghost value = { slot_object };

    #[tactic(auto, unfolding(crate::specs::Json::slot_object))]
    fn put<A: Allocator + Copy>(&self, tokens: &mut Tokens<A>) -> Result<(), AllocError> {
        let tag = Member("tag", Value::Number(self.tag as u64));
        let phase = Member("phase", Value::Text(phase_name(self.phase)));
        tokens.put_object(&[tag, phase])
    }
}
