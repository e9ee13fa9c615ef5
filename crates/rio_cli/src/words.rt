//! Characters from the words of the input.
ghost use Rattle.std.specs.Prelude.{◌≡◌, ◌≤◌, ◌⊎◌, ◌++◌, [], ℕ, List, length, IfOk, IsErrOf, IsTrue, IsFalse};
ghost use Rattle.rio_chars.specs.declared.chars.Char.{Char};
ghost use Rattle.rio_cli.specs.Decoding.{word_in, words_in_line, AreTexts, AreSpelled, SpellsChars, BadWordAt};
ghost use Rattle.rio_cli.specs.Inputs.{most_input};
ghost use Rattle.rio_cli.specs.declared.words.CharsEnd.TheVariants.{NoMemory};

use rio_chars::{Char, read_char};
use std::alloc::{AllocError, Global};

/// Why there are no characters.
#[derive(Clone, Copy, Debug, PartialEq, Eq)]
pub(crate) enum CharsEnd {
    /// A word of this line, counted from 1, is no character.
    BadWord(u32),
    /// Memory ran out.
    NoMemory,
}

impl From<AllocError> for CharsEnd {
    ghost from_gives = { λ _ end. end ≡ NoMemory };

    fn from(_: AllocError) -> Self {
        CharsEnd::NoMemory
    }
}

/// The characters that the words of the bytes are, or the first line with a word that is none.
pub(crate) fn read_chars(alloc: Global, bytes: &[u8]) -> Result<Vec<Char>, CharsEnd>
    requires { length bytes.now ≤ most_input }
    ensures chars { IfOk result (λ chars. SpellsChars bytes.now chars.items) }
    ensures count { IfOk result (λ chars. length chars.items ≤ most_input) }
    ensures bad { (line : ℕ) → IsErrOf result (CharsEnd.BadWord line) → BadWordAt bytes.now line }
{
    let mut chars = Vec::with_capacity(alloc, bytes.len() / 4 + 1)?;
    if read_blocks(bytes, &mut chars)? {
        return Ok(chars);
    }
    chars.clear();
    read_lines(bytes, chars)
}

/// Appends the characters of words of three bytes that a space or a line feed follows, with any more
/// of these between them, and answers whether the bytes are no more than these. Most input is; no
/// line of it is looked for.
fn read_blocks(bytes: &[u8], chars: &mut Vec<Char>) -> Result<bool, AllocError>
    requires { chars.old.items ≡ [] }
    ensures { IfOk result (λ whole. IsTrue whole → SpellsChars bytes.now chars.new.items) }
{
    let mut left = bytes;
    while let [first, after @ ..] = left {
        if parts_words(*first) {
            left = after;
            continue;
        }
        let [a, b, c, behind, rest @ ..] = left else {
            return Ok(false);
        };
        if !parts_words(*behind) {
            return Ok(false);
        }
        let Some(read) = read_char(&[*a, *b, *c]) else {
            return Ok(false);
        };
        chars.push(read)?;
        left = rest;
    }
    Ok(true)
}

/// Whether a byte is a space or a line feed.
fn parts_words(byte: u8) -> bool
    ensures { IsTrue result → (byte ≡ 32) ⊎ (byte ≡ 10) }
{
    byte == b' ' || byte == b'\n'
}

/// Appends the characters of the words of the bytes to none, or answers the first line with a word
/// that is none.
fn read_lines(bytes: &[u8], chars: Vec<Char>) -> Result<Vec<Char>, CharsEnd>
    requires few { length bytes.now ≤ most_input }
    requires none { chars.items ≡ [] }
    ensures chars { IfOk result (λ chars. SpellsChars bytes.now chars.items) }
    ensures count { IfOk result (λ chars. length chars.items ≤ most_input) }
    ensures bad { (line : ℕ) → IsErrOf result (CharsEnd.BadWord line) → BadWordAt bytes.now line }
{
    let mut chars = chars;
    let mut line = 0;
    for text in bytes.split(|byte| *byte == b'\n') {
        line += 1;
        if !read_line(text, &mut chars)? {
            return Err(CharsEnd::BadWord(line));
        }
    }
    Ok(chars)
}

/// Appends the characters of a line, and answers whether each of its words is one.
fn read_line(text: &[u8], chars: &mut Vec<Char>) -> Result<bool, AllocError>
    ensures good { IfOk result (λ good. IsTrue good → (more : List Char)
        × (chars.new.items ≡ chars.old.items ++ more) × AreTexts (words_in_line text.now) more) }
    ensures bad { IfOk result (λ good. IsFalse good → ¬ AreSpelled (words_in_line text.now)) }
{
    let left = read_front(text, chars)?;
    for word in left.split(|byte| *byte == b' ') {
        if !read_word(word, chars)? {
            return Ok(false);
        }
    }
    Ok(true)
}

/// Appends the characters of words at the front that a space follows, and answers what is left of
/// the line.
fn read_front<'a>(text: &'a [u8], chars: &mut Vec<Char>) -> Result<&'a [u8], AllocError>
    ensures { IfOk result (λ left. (more : List Char) × (words : List (List ℕ))
        × (chars.new.items ≡ chars.old.items ++ more)
        × (words_in_line text.now ≡ words ++ words_in_line left.now) × AreTexts words more) }
{
    let mut left = text;
    while let [a, b, c, b' ', rest @ ..] = left {
        let Some(read) = read_char(&[*a, *b, *c]) else {
            return Ok(left);
        };
        chars.push(read)?;
        left = rest;
    }
    Ok(left)
}

/// Appends the character of a word, and answers whether it is one. Between two spaces there may be
/// no word.
fn read_word(word: &[u8], chars: &mut Vec<Char>) -> Result<bool, AllocError>
    ensures good { IfOk result (λ good. IsTrue good → (more : List Char)
        × (chars.new.items ≡ chars.old.items ++ more) × AreTexts (word_in word.now) more) }
    ensures bad { IfOk result (λ good. IsFalse good → ¬ AreSpelled (word_in word.now)) }
{
    if word.is_empty() {
        return Ok(true);
    }
    let Some(c) = read_char(word) else {
        return Ok(false);
    };
    chars.push(c)?;
    Ok(true)
}
