//! The names of nodes.

ghost use Rattle.std.specs.Prelude.{◌≡◌, ◌↔◌, ◌<◌, ◌≤◌, false, true, length, Contains, IsTrue, MatchOption};
ghost use Rattle.fabric_script.specs.Names.{is_name, is_letter, is_digit, are_letters_or_digits, key_of, name_of};

use arrayvec::ArrayVec;
use std::marker::Model;

/// How many places there are for hints.
pub(crate) const PLACES: usize = 1024;

/// The name of a node, of at most eight bytes: in a script a letter and then letters or digits, in
/// ASCII.
///
/// A key of the bytes is kept beside them: so another name is told apart in one step.
#[derive(Debug, Drop)]
pub struct Name {
    items: ArrayVec<u8, 8>,
    key: u64,
}

impl Model for Name {
    ghost use Rattle.std.specs.Prelude.{◌≡◌, List, ℕ};
    ghost use Rattle.fabric_script.specs.Names.{key_of};

    ghost Value = { List ℕ };

    ghost view = { λ name. name.items.items };

    ghost invariant = { λ name. name.key ≡ key_of name.items.items };
}

impl Name {
    /// A name of these bytes.
    pub fn new(items: ArrayVec<u8, 8>) -> Name
        ensures { result ≡ items.items }
    {
        let key = key_of(items.as_slice());
        Name { items, key }
    }

    /// The name of these bytes, of which there are at most eight.
    pub(crate) fn of_word(word: &[u8]) -> Name
        requires { length word.now ≤ 8 }
        ensures { result ≡ word.now }
    {
        let mut items = ArrayVec::new();
        for byte in word {
            items.push(*byte);
        }
        Name::new(items)
    }

    /// The key of the name.
    pub(crate) fn key(&self) -> u64 {
        self.key
    }

    /// The bytes of the name.
    pub fn as_slice(&self) -> &[u8]
        ensures { result.now ≡ self.now }
    {
        self.items.as_slice()
    }

    /// Whether the name is this word, whose key this is. The bytes are compared only if the keys
    /// are the same.
    fn is_word(&self, word: &[u8], key: u64) -> bool
        requires { key ≡ key_of word.now }
        ensures { IsTrue result ↔ (self.now ≡ word.now) }
    {
        if self.key != key {
            return false;
        }
        self.items.as_slice() == word
    }
}

/// The key of a word: its bytes as one number, of which the last eight count.
fn key_of(word: &[u8]) -> u64
    ensures { result ≡ key_of word.now }
{
    word.iter()
        .fold(0u64, |key, byte| (key << 8) | u64::from(*byte))
}

/// The name that a word spells: a letter and up to seven letters or digits, in ASCII; or None if it
/// spells none.
pub fn read_name(word: &[u8]) -> Option<Name>
    ensures { MatchOption result
        (is_name word.now ≡ false)
        (λ name. (is_name word.now ≡ true) × (name ≡ word.now)) }
{
    if !is_name(word) {
        return None;
    }
    Some(Name::of_word(word))
}

/// Whether a word is a name.
pub(crate) fn is_name(word: &[u8]) -> bool
    ensures { result ≡ is_name word.now }
{
    let [first, rest @ ..] = word else {
        return false;
    };
    if !is_letter(*first) || rest.len() > 7 {
        return false;
    }
    are_letters_or_digits(rest)
}

/// Whether each byte is a letter or a digit.
fn are_letters_or_digits(bytes: &[u8]) -> bool
    ensures { result ≡ are_letters_or_digits bytes.now }
{
    bytes.iter().all(|c| is_letter(*c) || is_digit(*c))
}

/// Whether a byte is a letter, in ASCII.
fn is_letter(c: u8) -> bool
    ensures { result ≡ is_letter c }
{
    matches!(c, b'A'..=b'Z' | b'a'..=b'z')
}

/// Whether a byte is a digit, in ASCII.
fn is_digit(c: u8) -> bool
    ensures { result ≡ is_digit c }
{
    matches!(c, b'0'..=b'9')
}

/// The number of the node with this name.
pub fn find_name(names: &[Name], word: &[u8]) -> Option<u8>
    requires { length names.now ≤ 64 }
    ensures { MatchOption result
        (¬ Contains names.now word.now)
        (λ n. (n < length names.now) × (name_of names.now n ≡ word.now)) }
{
    let key = key_of(word);
    let place = names.iter().position(|name| name.is_word(word, key))?;
    Some(place as u8)
}

/// The same, where the hint at the place of its key is the number of the last name there, mostly
/// this one. A hint that is wrong costs time alone.
pub(crate) fn find(names: &[Name], hints: &[u8; PLACES], word: &[u8]) -> Option<u8>
    requires { length names.now ≤ 64 }
    ensures { MatchOption result
        (¬ Contains names.now word.now)
        (λ n. (n < length names.now) × (name_of names.now n ≡ word.now)) }
{
    let key = key_of(word);
    let hint = hints[place_of(key)];
    if is_at(names, hint, word, key) {
        return Some(hint);
    }
    find_name(names, word)
}

/// Whether a word, whose key this is, is the name with this number.
fn is_at(names: &[Name], number: u8, word: &[u8], key: u64) -> bool
    requires { key ≡ key_of word.now }
    ensures { result ≡ true → (number < length names.now) × (name_of names.now number ≡ word.now) }
{
    let number = usize::from(number);
    number < names.len() && names[number].is_word(word, key)
}

/// The place of a key among the hints.
pub(crate) fn place_of(key: u64) -> usize
    ensures { result < 1024 }
{
    (key.wrapping_mul(0x9e37_79b9_7f4a_7c15) >> 54) as usize
}
