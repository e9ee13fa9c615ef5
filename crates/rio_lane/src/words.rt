//! The words of a text.
ghost use Rattle.std.specs.Prelude.{◌≡◌, ◌≢◌, ℕ, List, IfOk, IsTrue, MatchOption};
ghost use Rattle.rio_chars.specs.CharText.{char_text_of};
ghost use Rattle.code_groups.specs.Groups.{has_group};
ghost use Rattle.rio_chars.specs.declared.chars.Char.{Char};
ghost use Rattle.fabric_script.specs.Words.{words_left};
ghost use Rattle.rio_lane.specs.LaneAnswers.{text_words, SpellSent, SpellGroups};

use code_groups::{Disparity, encode};
use fabric_script::split_word;
use group_text::read_group;
use rio_chars::{Char, Chars, read_char};
use std::alloc::{AllocError, Global};

/// A text whose words are left, or None if it is empty.
pub(crate) fn words_in(text: &[u8]) -> Option<&[u8]>
    ensures { words_left result ≡ text_words text.now }
{
    if text.is_empty() { None } else { Some(text) }
}

/// The characters that the words spell, if each of them spells one that has groups.
pub(crate) fn read_sent(alloc: Global, words: Option<&[u8]>) -> Result<Option<Chars>, AllocError>
    ensures { IfOk result (λ read. MatchOption read
        ((chars : List Char) → ¬ SpellSent (words_left words.entry) chars)
        (λ chars. SpellSent (words_left words.entry) chars)) }
{
    let mut chars = Vec::new(alloc);
    let mut left = words;
    while let Some(text) = left {
        let (word, rest) = split_word(text);
        let Some(c) = read_coded(word) else {
            return Ok(None);
        };
        chars.push(c)?;
        left = rest;
    }
    Ok(Some(Chars::new(chars)))
}

/// The groups that the words spell, if each of them spells one.
pub(crate) fn read_groups(
    alloc: Global,
    words: Option<&[u8]>,
) -> Result<Option<Vec<u16>>, AllocError>
    ensures { IfOk result (λ read. MatchOption read
        ((groups : List ℕ) → ¬ SpellGroups (words_left words.entry) groups)
        (λ groups. SpellGroups (words_left words.entry) groups.items)) }
{
    let mut groups = Vec::new(alloc);
    let mut left = words;
    while let Some(text) = left {
        let (word, rest) = split_word(text);
        let Some(group) = read_group(word) else {
            return Ok(None);
        };
        groups.push(group)?;
        left = rest;
    }
    Ok(Some(groups))
}

/// The character of a word, if it is one that has groups.
fn read_coded(word: &[u8]) -> Option<Char>
    ensures { MatchOption result ((c : Char) → IsTrue (has_group c) → word.now ≢ char_text_of c)
        (λ c. IsTrue (has_group c) × (word.now ≡ char_text_of c)) }
{
    let c = read_char(word)?;
    if encode(Disparity::Negative, c).is_some() {
        Some(c)
    } else {
        None
    }
}
