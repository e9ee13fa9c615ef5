//! The run of data characters whose texts were made last.
ghost use Rattle.std.specs.Prelude.{◌≡◌, ◌≤◌, ◌*◌, [], length, take, IsTrue};
ghost use Rattle.rio_chars.specs.CharText.{spaced_chars};

use crate::Char;
use crate::runs::{RUN, write_words};
use std::marker::Model;

/// How many characters are compared at once.
const BLOCK: usize = 16;

/// The run of data characters whose texts were made last, with their texts: what a port sends is
/// told, and told once more of the port that gets it.
#[derive(Drop)]
pub(crate) struct LastRun {
    chars: [Char; RUN],
    /// Their texts, each behind a space, one in each word.
    words: [[u8; 4]; RUN],
    count: usize,
}

impl Model for LastRun {
    ghost use Rattle.std.specs.Prelude.{take, length, List, ◌≡◌, ◌≤◌};
    ghost use Rattle.std.specs.List.{flat_map};
    ghost use Rattle.rio_chars.specs.CharText.{spaced_chars};
    ghost use Rattle.rio_chars.specs.declared.chars.Char.{Char};

    ghost Value = { List Char };

    ghost view = { λ run. take run.count run.chars };

    ghost invariant = { λ run. (length run.chars ≡ 512) × (run.count ≤ 512)
        × (flat_map (λ word. word) (take run.count run.words)
        ≡ spaced_chars (take run.count run.chars)) };
}

impl LastRun {
    /// No characters.
    pub(crate) fn new() -> LastRun
        ensures { result ≡ [] }
    {
        LastRun {
            chars: [Char::Invalid; RUN],
            words: [[0; 4]; RUN],
            count: 0,
        }
    }

    /// How many characters there are.
    pub(crate) fn len(&self) -> usize
        ensures len { result ≡ length self.now }
        ensures most { result ≤ 512 }
    {
        self.count
    }

    /// Their texts, each behind a space.
    pub(crate) fn texts(&self) -> &[u8]
        ensures texts { result.now ≡ spaced_chars self.now }
        ensures len { length result.now ≡ 4 * length self.now }
    {
        self.words[..self.count].as_flattened()
    }

    /// Holds the data characters at the front, at most 512. Their texts are made, unless they are
    /// those of the last run.
    pub(crate) fn hold(&mut self, chars: &[Char])
        ensures { self.new ≡ take (length self.new) chars.now }
    {
        if self.is_told_again(chars) {
            return;
        }
        let count = write_words(self.words.as_mut_slice(), chars);
        self.chars[..count].copy_from_slice(&chars[..count]);
        self.count = count;
    }

    /// Whether the data characters at the front are those of the last run.
    fn is_told_again(&self, chars: &[Char]) -> bool
        ensures { IsTrue result → self.now ≡ take (length self.now) chars.now }
    {
        let run = &self.chars[..self.count];
        self.count > 0 && !goes_on(chars, self.count) && starts_with(chars, run)
    }
}

/// Whether there is a data character in this place.
fn goes_on(chars: &[Char], place: usize) -> bool {
    matches!(chars.get(place), Some(Char::Data(_)))
}

/// Whether these data characters come first.
fn starts_with(chars: &[Char], run: &[Char]) -> bool
    ensures { IsTrue result → run.now ≡ take (length run.now) chars.now }
{
    if chars.len() < run.len() {
        return false;
    }
    let mut i = 0;
    while run.len() - i >= BLOCK {
        if !are_same_data(&run[i..i + BLOCK], &chars[i..i + BLOCK]) {
            return false;
        }
        i += BLOCK;
    }
    are_same_data(&run[i..], &chars[i..run.len()])
}

/// Whether characters are data and equal to others. Only the end of the loop asks for that, so that
/// the compiler can compare many at once.
fn are_same_data(some: &[Char], others: &[Char]) -> bool
    requires { length some.now ≡ length others.now }
    ensures { IsTrue result → some.now ≡ others.now }
{
    let mut are_same = true;
    for i in 0..some.len() {
        are_same = are_same
            & some[i].is_data()
            & others[i].is_data()
            & (some[i].byte() == others[i].byte());
    }
    are_same
}
