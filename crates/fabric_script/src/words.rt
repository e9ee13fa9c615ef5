//! The words of a line, taken one by one as what a form wants.
//!
//! A word that a reason hits is answered by a stand-in, and the least reason is noted. So a form
//! reads all its words in one go, and asks at their end.

ghost use Rattle.std.specs.Prelude.{◌≡◌, ◌≢◌, ◌∷◌, [], Some, None, IfOk, IsTrue, ◌↔◌};
ghost use Rattle.fabric_script.specs.Lines.{words_of};
ghost use Rattle.fabric_script.specs.Forms.{IsShort, Hex as AHex};
ghost use Rattle.fabric_script.specs.Words.{words_left, with_reason, ok_of, noted_by, reason_at_end, first_word, after_word, Takes, ReadsValue};

use crate::fields::Field;
use crate::hex::{read_digits, read_hex};
use crate::known::Known;
use crate::numbers::read_count;
use crate::reasons::Reason;
use crate::values::Value;
use rio_chars::read_char;
use std::alloc::{AllocError, Global};
use std::marker::Model;

/// The words that are left of a line, and the least reason that has hit one so far.
#[derive(Drop)]
pub(crate) struct Words<'a> {
    rest: Option<&'a [u8]>,
    hit: Option<Reason>,
}

impl<'a> Model for Words<'a> {
    ghost use Rattle.fabric_script.specs.Words.{Left, words_left};

    ghost Value = { Left };

    ghost view = { λ w. record { words = words_left w.rest; hit = w.hit } };
}

impl<'a> Words<'a> {
    /// All words of a line.
    pub(crate) fn new(text: &'a [u8]) -> Words<'a>
        ensures { result ≡ record { words = words_of text.now; hit = None } }
    {
        Words {
            rest: Some(text),
            hit: None,
        }
    }

    /// The next word. Where none is left, the line is noted as unknown, and the word is empty.
    pub(crate) fn word(&mut self) -> &'a [u8]
        ensures word { result.now ≡ first_word self.old.words }
        ensures rest { self.new ≡ after_word self.old }
    {
        let Some(text) = self.rest else {
            self.hit = Some(Reason::UnknownLine);
            return b"";
        };
        let (word, rest) = split_word(text);
        self.rest = rest;
        word
    }

    /// What was read, if no reason hits it; else the reason is noted if it is the least so far.
    pub(crate) fn note<T>(&mut self, read: Result<T, Reason>) -> Option<T>
        ensures noted { self.new
            ≡ record { words = self.old.words; hit = noted_by self.old.hit read } }
        ensures value { result ≡ ok_of read }
    {
        match read {
            Ok(value) => Some(value),
            Err(reason) => {
                self.hit = Some(lesser(self.hit, reason));
                None
            }
        }
    }

    /// What the next word says, if it is one of this kind; else the reason that hits it is noted, and
    /// a stand-in is answered.
    pub(crate) fn take(
        &mut self,
        alloc: Global,
        field: Field,
        known: &Known,
    ) -> Result<Value, AllocError>
        requires { IsShort field }
        ensures { IfOk result (λ value. Takes known.now field value self.old self.new) }
    {
        let word = self.word();
        let read = read_value(alloc, field, word, known)?;
        Ok(self.note(read).unwrap_or(Value::Counted(0)))
    }

    /// Whether no word is left.
    pub(crate) fn is_done(&self) -> bool
        ensures { IsTrue result ↔ (self.now.words ≡ []) }
    {
        self.rest.is_none()
    }

    /// The least reason that hits a word, where no word may be left.
    pub(crate) fn end(&self) -> Option<Reason>
        ensures { result ≡ reason_at_end self.now }
    {
        match self.rest {
            Some(_) => Some(Reason::UnknownLine),
            None => self.hit,
        }
    }
}

/// What a word of this kind says, or the reason that hits it.
#[tactic(auto, using(crate::proofs::Taking::hits_hex))]
fn read_value(
    alloc: Global,
    field: Field,
    word: &[u8],
    known: &Known,
) -> Result<Result<Value, Reason>, AllocError>
    requires { IsShort field }
    ensures { IfOk result (λ read. ReadsValue known.now field word.now read) }
{
    match field {
        Field::Hex => match read_hex(alloc, word)? {
            Some(bytes) => Ok(Ok(Value::Bytes(bytes))),
            None => Ok(Err(Reason::BadHex)),
        },
        _ => Ok(read_plain(field, word, known)),
    }
}

/// The same of a word that takes no memory.
fn read_plain(field: Field, word: &[u8], known: &Known) -> Result<Value, Reason>
    requires short { IsShort field }
    requires plain { field ≢ AHex }
    ensures { ReadsValue known.now field word.now result }
{
    match field {
        Field::NewName => Ok(Value::Named(known.read_new_name(word)?)),
        Field::Node => Ok(Value::Node(known.read_node(word)?)),
        Field::Port => Ok(Value::Port(known.read_port(word)?)),
        Field::Number(least, most) => match read_count(word, least, most) {
            Ok(n) => Ok(Value::Counted(n)),
            Err(_) => Err(Reason::BadNumber),
        },
        Field::Hex => unreachable!(),
        Field::Digits(count) => match read_digits(word, usize::from(count)) {
            Some(n) => Ok(Value::InDigits(count, n)),
            None => Err(Reason::BadHex),
        },
        Field::Character => match read_char(word) {
            Some(ch) => Ok(Value::Code(ch)),
            None => Err(Reason::BadHex),
        },
    }
}

/// The lesser of the reason so far and one more.
fn lesser(hit: Option<Reason>, reason: Reason) -> Reason
    ensures { Some result ≡ with_reason hit reason }
{
    match hit {
        Some(before) if before.number() <= reason.number() => before,
        _ => reason,
    }
}

/// The first word of a line, and what stands behind its space, if it has one.
pub fn split_word(text: &[u8]) -> (&[u8], Option<&[u8]>)
    ensures { words_of text.now ≡ result.0.now ∷ words_left result.1 }
{
    for (i, byte) in text.iter().enumerate() {
        if *byte == b' ' {
            return (&text[..i], Some(&text[i + 1..]));
        }
    }
    (text, None)
}
