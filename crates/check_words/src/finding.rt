//! The first word of a text that is not what stands there in a line of a trace.
ghost use Rattle.std.specs.Prelude.{◌≡◌, ◌+◌, ◌<◌, ◌^◌, ℕ, IfOk, IfSome, List, Some, length, slice_get};
ghost use Rattle.fabric_script.specs.Known.{Known as AKnown};
ghost use Rattle.fabric_script.specs.Lines.{words_of};
ghost use Rattle.check_words.specs.Kinds.{IsOfKind};
ghost use Rattle.check_words.specs.Misfits.{IsMisfit, IsBadWord};

use crate::kinds::{LineKind, Part, kind_named};
use crate::misfits::{Misfit, WordFault};
use crate::packet_words::packet_fault;
use crate::words::{
    character_fault, event_kind_fault, linked_fault, node_fault, number_fault, port_fault,
};
use fabric_script::{SetUp, split_word};
use std::alloc::{AllocError, Global};

/// What of a text is to blame that is no line of a trace behind these set-up lines.
pub(crate) fn misfit_of(alloc: Global, set_up: &SetUp, text: &[u8]) -> Result<Misfit, AllocError>
    ensures { IfOk result (IsMisfit set_up.now.known text.now) }
{
    match text {
        [] => Ok(Misfit::EmptyLine),
        [b'#', ..] => Ok(Misfit::Comment),
        _ => misfit_in(alloc, set_up, text),
    }
}

/// The same, of words.
fn misfit_in(alloc: Global, set_up: &SetUp, text: &[u8]) -> Result<Misfit, AllocError>
    ensures { IfOk result (IsMisfit set_up.now.known text.now) }
{
    let (first, rest) = split_word(text);
    let Some(kind) = kind_named(first) else {
        return Ok(Misfit::Keyword);
    };
    let mut left = rest;
    for i in 0..=text.len() {
        let Some(behind) = left else {
            return Ok(end_at(kind, i));
        };
        let (word, rest) = split_word(behind);
        let found = misfit_at(alloc, set_up, kind, i, word)?;
        if found != Misfit::Nothing {
            return Ok(found);
        }
        left = rest;
    }
    Ok(Misfit::Nothing)
}

/// What is to blame if so many words stand behind the first, and no more.
fn end_at(kind: LineKind, i: usize) -> Misfit
    requires { i < 2 ^ 63 }
    ensures { (known : AKnown) (text : List ℕ) → IsOfKind text kind
        → length (words_of text) ≡ i + 1 → IsMisfit known text result }
{
    if i < kind.parts().len() {
        Misfit::Missing(i + 2)
    } else {
        Misfit::Nothing
    }
}

/// What of the word is to blame that stands behind the first and so many others.
fn misfit_at(
    alloc: Global,
    set_up: &SetUp,
    kind: LineKind,
    i: usize,
    word: &[u8],
) -> Result<Misfit, AllocError>
    requires { i < 2 ^ 63 }
    ensures { IfOk result (λ found. (text : List ℕ) → IsOfKind text kind
        → slice_get (words_of text) (i + 1) ≡ Some word.now
        → IsMisfit set_up.now.known text found) }
{
    if word.is_empty() {
        return Ok(Misfit::EmptyWord);
    }
    let Some(part) = kind.part_at(i) else {
        return Ok(Misfit::TooMany(i + 2));
    };
    match word_fault(alloc, set_up, part, word)? {
        Some(fault) => Ok(Misfit::Word {
            place: i + 2,
            fault,
        }),
        None => Ok(Misfit::Nothing),
    }
}

/// What of a word is to blame that is to be this part of a line.
fn word_fault(
    alloc: Global,
    set_up: &SetUp,
    part: Part,
    word: &[u8],
) -> Result<Option<WordFault>, AllocError>
    ensures { IfOk result (λ found. IfSome found
        (IsBadWord set_up.now.known part word.now)) }
{
    match part {
        Part::Node => Ok(node_fault(set_up, word)),
        Part::Port => Ok(port_fault(set_up, word)),
        Part::Linked => Ok(linked_fault(set_up, word)),
        Part::Packet => packet_fault(alloc, word),
        Part::Character => Ok(character_fault(word)),
        Part::Number => Ok(number_fault(word)),
        Part::EventKind => Ok(event_kind_fault(word)),
        Part::Other => Ok(None),
    }
}
