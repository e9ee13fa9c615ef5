//! What in a line is to blame that is no line of a trace.

use fabric_script::{EventEnd, SetUp, split_word};
use refusal_words::{push_number, push_shown, push_why, script_reason};
use rio_chars::{read_char, read_hex};
use rio_packets::check;
use std::alloc::{AllocError, Global};

/// What is said if nothing more is known.
const NO_FORM: &[u8] = b"no line of a trace has this form";

/// How a word of a line of a trace is spelled.
#[derive(Clone, Copy)]
enum TraceWord {
    /// The name of a node.
    Node,
    /// A port of a node.
    Port,
    /// A port with a link.
    LinkedPort,
    /// A packet in its link form.
    Packet,
}

/// Adds what in the text of a line is to blame that is no line of a trace.
pub(crate) fn push_trace_why(
    alloc: Global,
    message: &mut Vec<u8>,
    set_up: &SetUp,
    text: &[u8],
) -> Result<(), AllocError> {
    match text {
        [] => message.extend_from_slice(b"a trace has no empty line"),
        [b'#', ..] => message.extend_from_slice(b"a trace has no comment"),
        [b'>', b' ', event @ ..] => push_event_why(alloc, message, set_up, event),
        [b'>', ..] => message.extend_from_slice(NO_FORM),
        _ => push_step_why(alloc, message, set_up, text),
    }
}

/// The same of an event, without its sign.
fn push_event_why(
    alloc: Global,
    message: &mut Vec<u8>,
    set_up: &SetUp,
    event: &[u8],
) -> Result<(), AllocError> {
    match set_up.read_event(alloc, event) {
        Err(EventEnd::Refused(reason)) => {
            push_why(alloc, message, event, reason, script_reason(reason))
        }
        _ => message.extend_from_slice(NO_FORM),
    }
}

/// The same of another line.
fn push_step_why(
    alloc: Global,
    message: &mut Vec<u8>,
    set_up: &SetUp,
    text: &[u8],
) -> Result<(), AllocError> {
    match kinds_of(split_word(text).0) {
        Some(kinds) if !is_foreign(text) => push_words_why(alloc, message, set_up, kinds, text),
        _ => push_why(
            alloc,
            message,
            text,
            1,
            b"a line of a script stands here: \
examples/traced.sh puts the trace of one behind its set-up lines",
        ),
    }
}

/// The kinds of the words behind the first of a line. Behind that of a line with characters, the
/// characters follow.
fn kinds_of(word: &[u8]) -> Option<&'static [TraceWord]> {
    match word {
        b"take" | b"leave" => Some(&[TraceWord::Node, TraceWord::Packet]),
        b"hold" | b"free" => Some(&[TraceWord::LinkedPort, TraceWord::Packet]),
        b"drop" => Some(&[TraceWord::Port, TraceWord::Packet]),
        b"move" => Some(&[TraceWord::Port, TraceWord::Port, TraceWord::Packet]),
        b"answer" => Some(&[TraceWord::Port, TraceWord::Packet, TraceWord::Packet]),
        b"fire" | b"sent" | b"got" => Some(&[TraceWord::LinkedPort]),
        b"full" | b"empty" | b"short" | b"early" | b"none" | b"end" | b"undetected" => Some(&[]),
        _ => None,
    }
}

/// Whether a line has bytes or an end that no line of this project has.
fn is_foreign(text: &[u8]) -> bool {
    text.contains(&0) || text.contains(&b'\t') || matches!(text, [.., b'\r'])
}

/// Adds which word of a line is to blame, of which the first has words of these kinds behind it.
fn push_words_why(
    alloc: Global,
    message: &mut Vec<u8>,
    set_up: &SetUp,
    kinds: &[TraceWord],
    text: &[u8],
) -> Result<(), AllocError> {
    if has_empty_word(text) {
        return message.extend_from_slice(b"one space separates two words, and none ends a line");
    }
    let (first, mut left) = split_word(text);
    let mut place = 2u32;
    for kind in kinds {
        let Some(words) = left else {
            return push_count(message, first, kinds);
        };
        let (word, rest) = split_word(words);
        if !is_spelled(alloc, set_up, *kind, word) {
            return push_word_why(message, place, *kind);
        }
        left = rest;
        place = place.saturating_add(1);
    }
    push_rest_why(message, first, kinds, left)
}

/// Whether a word of a line is empty.
fn has_empty_word(text: &[u8]) -> bool {
    for word in text.split(|byte| *byte == b' ') {
        if word.is_empty() {
            return true;
        }
    }
    false
}

/// Whether a word is of this kind. Without memory a packet counts as one.
fn is_spelled(alloc: Global, set_up: &SetUp, kind: TraceWord, word: &[u8]) -> bool {
    match kind {
        TraceWord::Node => set_up.read_node(word).is_some(),
        TraceWord::Port => set_up.read_port(word).is_some(),
        TraceWord::LinkedPort => match set_up.read_port(word) {
            Some(port) => set_up.is_linked(port),
            None => false,
        },
        TraceWord::Packet => match read_hex(alloc, word) {
            Ok(Some(bytes)) => check(bytes.as_slice()).is_ok(),
            Ok(None) => false,
            Err(_) => true,
        },
    }
}

/// Adds what the word at this place must be, where the first is 1.
fn push_word_why(message: &mut Vec<u8>, place: u32, kind: TraceWord) -> Result<(), AllocError> {
    message.extend_from_slice(b"word ")?;
    push_number(message, place)?;
    message.extend_from_slice(b" must be ")?;
    message.extend_from_slice(kind_text(kind))
}

/// How a word is spelled.
fn kind_text(kind: TraceWord) -> &'static [u8] {
    match kind {
        TraceWord::Node => b"the name of a node of the set-up lines",
        TraceWord::Port => b"a port of a node of the set-up lines, as A.0",
        TraceWord::LinkedPort => b"a port that a link line names, as A.0",
        TraceWord::Packet => {
            b"a packet in its link form, in lower-case hexadecimal digits and with good CRCs"
        }
    }
}

/// Adds how many words a line has behind its first.
fn push_count(message: &mut Vec<u8>, first: &[u8], kinds: &[TraceWord]) -> Result<(), AllocError> {
    match first {
        b"sent" | b"got" => {
            message.extend_from_slice(b"this kind of line has a port and characters")
        }
        b"undetected" => message.extend_from_slice(NO_FORM),
        _ => push_word_count(message, kinds.len()),
    }
}

/// Adds that a line has so many words behind its first.
fn push_word_count(message: &mut Vec<u8>, count: usize) -> Result<(), AllocError> {
    message.extend_from_slice(b"this kind of line has ")?;
    push_number(message, count.min(9) as u32)?;
    message.extend_from_slice(if count == 1 {
        b" word after the first"
    } else {
        b" words after the first"
    })
}

/// Adds what is to blame in a line of which the first words are right.
fn push_rest_why(
    message: &mut Vec<u8>,
    first: &[u8],
    kinds: &[TraceWord],
    left: Option<&[u8]>,
) -> Result<(), AllocError> {
    match (first, left) {
        (b"sent" | b"got", Some(words)) => push_char_why(message, words),
        _ => push_count(message, first, kinds),
    }
}

/// Adds which of some words is no character.
fn push_char_why(message: &mut Vec<u8>, words: &[u8]) -> Result<(), AllocError> {
    for word in words.split(|byte| *byte == b' ') {
        if read_char(word).is_none() {
            push_shown(message, word)?;
            return message.extend_from_slice(
                b" is no character: d or k and two lower-case hexadecimal digits, or inv",
            );
        }
    }
    message.extend_from_slice(NO_FORM)
}
