//! JSON, a token after the other: items, the members of an object and their values.

ghost use Rattle.std.specs.Prelude.{◌≡◌, ◌++◌, List, OnOk, [], ◌∷◌, flat_map, IfOk};
ghost use Rattle.std.specs.Str.{IsAscii};
ghost use Rattle.json.specs.Print.{IsPrintable, print};
ghost use Rattle.json.specs.Reads.{token_of};
ghost use Rattle.json.specs.Token.{Token};
ghost use Rattle.ahci_trace.specs.Json.{list_member, member_tokens, object, value_token, hex_text};

use json::{Token, Writer};
use std::alloc::{AllocError, Allocator};
use std::marker::Model;
use std::str::from_utf8;
use streams::{TextBuffer, eight_digits, two_digits};

/// What has tokens of its own: a member of an object, or an element of a list.
pub(crate) trait Item {
    ghost value: { Self → List Token };

    /// Adds it.
    fn put<A: Allocator + Copy>(&self, tokens: &mut Tokens<A>) -> Result<(), AllocError>
        ensures { OnOk result (tokens.new ≡ tokens.old ++ value self.now) };
}

/// What is written as JSON, a token after the other. The allocator is for texts that are made of them.
#[derive(Drop)]
pub(crate) struct Tokens<A: Allocator> {
    pub(super) writer: Writer<A>,
    pub(super) alloc: A,
}

impl<A: Allocator> Model for Tokens<A> {
    ghost use Rattle.std.specs.Prelude.{◌≡◌, [], List};
    ghost use Rattle.json.specs.Token.{Token, tokens_code};

    ghost Value = { List Token };

    ghost coded = { tokens_code };

    ghost view = { λ t. t.writer.tokens };

    ghost invariant = { λ t. t.writer.before ≡ [] };
}

impl<A: Allocator + Copy> Tokens<A> {
    /// Nothing is written yet.
    pub(crate) fn new(alloc: A) -> Self
        ensures { result ≡ [] }
    {
        Tokens {
            writer: Writer::new(Vec::new(alloc)),
            alloc,
        }
    }

    /// The text of what was written.
    pub(crate) fn into_text(self) -> Vec<u8, A>
        ensures { result.items ≡ print self }
    {
        let Tokens { writer, .. } = self;
        writer.into_inner()
    }

    /// Adds a token.
    pub(super) fn add(&mut self, token: Token<'_>) -> Result<(), AllocError>
        requires { IsPrintable (token_of token) }
        ensures { OnOk result (self.new ≡ self.old ++ token_of token.entry ∷ []) }
    {
        self.writer.token(token)
    }

    /// Adds items, one after the other.
    pub(crate) fn put_each<T: Item>(&mut self, items: &[T]) -> Result<(), AllocError>
        ensures { OnOk result (self.new ≡ self.old ++ flat_map T.value items.now) }
    {
        for item in items {
            item.put(self)?;
        }
        Ok(())
    }

    /// Adds a member with a list of items.
    pub(crate) fn put_list<T: Item>(&mut self, name: &str, items: &[T]) -> Result<(), AllocError>
        ensures { OnOk result (self.new ≡ self.old ++ list_member name.now (flat_map T.value items.now)) }
    {
        self.add(Token::Key(name))?;
        self.add(Token::BeginArray)?;
        self.put_each(items)?;
        self.add(Token::EndArray)
    }

    /// Adds an object of these members.
    pub(crate) fn put_object(&mut self, members: &[Member<'_>]) -> Result<(), AllocError>
        ensures { OnOk result (self.new ≡ self.old ++ object (flat_map member_tokens members.now)) }
    {
        self.add(Token::BeginObject)?;
        self.put_each(members)?;
        self.add(Token::EndObject)
    }
}

/// A member of an object: its name, and its value.
#[derive(Clone, Copy, Debug)]
pub(crate) struct Member<'a>(pub(crate) &'a str, pub(crate) Value<'a>);

impl Item for Member<'_> {
    ghost value = { member_tokens };

    fn put<A: Allocator + Copy>(&self, tokens: &mut Tokens<A>) -> Result<(), AllocError> {
        tokens.add(Token::Key(self.0))?;
        self.1.put(tokens)
    }
}

/// A value of a member.
#[derive(Clone, Copy, Debug)]
pub(crate) enum Value<'a> {
    Text(&'a str),
    Number(u64),
    Boolean(bool),
    /// Bytes, a byte or a word, by their hexadecimal digits.
    Bytes(&'a [u8]),
    Byte(u8),
    Word(u32),
    Null,
}

impl Item for Value<'_> {
    ghost value = { λ v. value_token v ∷ [] };

    #[tactic(auto, using(crate::proofs::AsciiLemmas::hex_ascii, crate::proofs::AsciiLemmas::hex_text_ascii))]
    fn put<A: Allocator + Copy>(&self, tokens: &mut Tokens<A>) -> Result<(), AllocError> {
        match *self {
            Value::Text(text) => tokens.writer.string(text),
            Value::Number(number) => tokens.writer.u64(number),
            Value::Boolean(value) => tokens.writer.boolean(value),
            Value::Bytes(bytes) => {
                let text = digits(tokens.alloc, bytes)?;
                tokens.writer.string(ascii(&text))
            }
            Value::Byte(byte) => tokens.writer.string(ascii(&two_digits(byte))),
            Value::Word(word) => tokens.writer.string(ascii(&eight_digits(word))),
            Value::Null => tokens.writer.null(),
        }
    }
}

/// ASCII bytes as text.
#[tactic(auto, using(crate::proofs::AsciiLemmas::ascii_is_utf8))]
pub(crate) fn ascii(bytes: &[u8]) -> &str
    requires { IsAscii bytes.now }
    ensures { result.now ≡ bytes.now }
{
    match from_utf8(bytes) {
        Ok(text) => text,
        Err(_) => unreachable!(),
    }
}

/// The hexadecimal digits of bytes, two for each.
pub(crate) fn digits<A: Allocator>(alloc: A, bytes: &[u8]) -> Result<Vec<u8, A>, AllocError>
    ensures { IfOk result (λ text. text.items ≡ hex_text bytes.now) }
{
    let mut text = TextBuffer::new(alloc);
    for byte in bytes {
        text.push(&two_digits(*byte))?;
    }
    Ok(text.into_bytes())
}
