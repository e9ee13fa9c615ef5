//! What in the text of a refused line is to blame, for whoever mends it.

ghost use Rattle.std.specs.Prelude.{◌≡◌, ◌≢◌, ◌+◌, ◌≤◌, ◌<◌, [], ◌∷◌, IsTrue, IsFalse, ◌↔◌, Contains, length};
ghost use Rattle.fabric_script.specs.declared.forms.Form.{Form as AForm};
ghost use Rattle.fabric_script.specs.Advice.{kind_of_field, IsSpelled, HasShape, IsTrueOf};
ghost use Rattle.fabric_script.specs.Forms.{keyword_of, fields_of};
ghost use Rattle.fabric_script.specs.Lines.{words_of};
ghost use Rattle.fabric_script.specs.Words.{first_word};

use crate::fields::Field;
use crate::forms::{Form, form_named};
use crate::hex::{read_digits, read_hex};
use crate::names::is_name;
use crate::numbers::read_count;
use crate::ports::split_port;
use crate::words::Words;
use rio_chars::read_char;
use std::alloc::Global;

/// How a word is spelled.
#[derive(Clone, Copy, Debug, PartialEq, Eq)]
pub enum WordKind {
    /// A letter and up to seven letters or digits.
    Name,
    /// A name, a point and the number of a port, 0 to 15.
    Port,
    /// A number in decimal, in this range.
    Number { least: u32, most: u32 },
    /// Bytes, two hexadecimal digits each, or a hyphen for none.
    Bytes,
    /// A number in so many hexadecimal digits.
    Digits(u8),
    /// A character: d or k, and two hexadecimal digits.
    Character,
}

/// What in a line is to blame.
#[derive(Clone, Copy, Debug, PartialEq, Eq)]
pub enum Advice {
    /// Nothing that the text alone shows.
    Nothing,
    /// The line ends with a carriage return.
    CarriageReturn,
    /// The line begins with a space.
    Indent,
    /// A comment stands behind a line, or behind a space.
    Comment,
    /// Two spaces stand together, or a space stands at the end.
    EmptyWord,
    /// No kind of line begins with the first word.
    Keyword,
    /// The first word wants so many words behind it, and there are more or fewer.
    WordCount(u8),
    /// The word at this place, the first being 1, is not of the kind that stands there.
    Word { place: u8, kind: WordKind },
}

/// What in the text of a line is to blame that `parse` refuses for this reason. What the advice
/// says is true of the text. It says nothing of a reason that other lines decide, and of a line
/// that has the shape of its kind and each word spelled as it must be.
pub fn advise(alloc: Global, text: &[u8], reason: u8) -> Advice
    ensures so { IsTrueOf text.now result }
    ensures nothing { Contains (1 ∷ 2 ∷ 3 ∷ 9 ∷ []) reason → result ≡ Advice.Nothing
        → HasShape text.now }
{
    if !matches!(reason, 1 | 2 | 3 | 9) {
        return Advice::Nothing;
    }
    match text {
        [.., b'\r'] => Advice::CarriageReturn,
        [b' ', ..] => Advice::Indent,
        _ if text.contains(&b'#') => Advice::Comment,
        _ => advise_words(alloc, text),
    }
}

/// What of the words of a line is to blame.
fn advise_words(alloc: Global, text: &[u8]) -> Advice
    ensures so { IsTrueOf text.now result }
    ensures nothing { result ≡ Advice.Nothing → HasShape text.now }
{
    let Some(form) = form_named(Words::new(text).word()) else {
        return Advice::Keyword;
    };
    if has_empty_word(text) {
        return Advice::EmptyWord;
    }
    let count = form.fields().len();
    if !has_words(text, count) {
        return Advice::WordCount(count as u8);
    }
    advise_word(alloc, text, form)
}

/// Whether a word of a text is empty.
fn has_empty_word(text: &[u8]) -> bool
    ensures { IsTrue result → Contains (words_of text.now) [] }
{
    let mut words = Words::new(text);
    for _ in 0..=text.len() {
        if words.is_done() {
            return false;
        }
        if words.word().is_empty() {
            return true;
        }
    }
    false
}

/// Whether a text has so many words behind the first.
fn has_words(text: &[u8], count: usize) -> bool
    ensures { IsTrue result ↔ (length (words_of text.now) ≡ count + 1) }
{
    let mut words = Words::new(text);
    for _ in 0..=count {
        if words.is_done() {
            return false;
        }
        words.word();
    }
    words.is_done()
}

/// The first word behind the keyword that is not of its kind.
fn advise_word(alloc: Global, text: &[u8], form: Form) -> Advice
    requires form { keyword_of form ≡ first_word (words_of text.now) }
    requires count { length (words_of text.now) ≡ length (fields_of form) + 1 }
    ensures { IsTrueOf text.now result }
{
    let mut words = Words::new(text);
    words.word();
    for (i, field) in form.fields().iter().enumerate() {
        let kind = field.kind();
        if !is_spelled(alloc, kind, words.word()) {
            return Advice::Word {
                place: i as u8 + 2,
                kind,
            };
        }
    }
    Advice::Nothing
}

/// Whether a word is spelled as one of this kind. Without memory a word of bytes counts as one.
fn is_spelled(alloc: Global, kind: WordKind, word: &[u8]) -> bool
    ensures { IsFalse result → ¬ IsSpelled kind word.now }
{
    match kind {
        WordKind::Name => is_name(word),
        WordKind::Port => split_port(word).is_some(),
        WordKind::Number { least, most } => read_count(word, least, most).is_ok(),
        WordKind::Bytes => match read_hex(alloc, word) {
            Ok(read) => read.is_some(),
            Err(_) => true,
        },
        WordKind::Digits(count) => { count > 8 || read_digits(word, usize::from(count)).is_some() }
        WordKind::Character => read_char(word).is_some(),
    }
}

impl Field {
    /// How a word of this kind is spelled.
    fn kind(self) -> WordKind
        ensures { result ≡ kind_of_field self }
    {
        match self {
            Field::NewName | Field::Node => WordKind::Name,
            Field::Port => WordKind::Port,
            Field::Number(least, most) => WordKind::Number { least, most },
            Field::Hex => WordKind::Bytes,
            Field::Digits(count) => WordKind::Digits(count),
            Field::Character => WordKind::Character,
        }
    }
}
