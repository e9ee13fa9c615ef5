//! Why lines are refused or not lawful, in words.

use check_words::{push_form, push_hint, trace_reason};
use follow_lines::{FollowEnd, Journal};
use refusal_words::{push_excerpt, push_why};
use rio_chars::{Sink, write_unless};
use std::alloc::{AllocError, Global};

/// The number of the reason of a line that is none of a trace.
const NO_FORM: u8 = 21;

/// The most bytes of an input of which it is said why a line is none of a trace.
const MOST_INPUT: usize = 16_777_216;

/// Says why lines are refused or not lawful, in one line that cites the line of the input. The
/// answer is whether a write failed.
pub(crate) fn say_why<M: Sink>(
    alloc: Global,
    end: FollowEnd,
    journal: &Journal,
    messages: &mut M,
) -> bool {
    let said = match end {
        FollowEnd::Refused(refusal) => {
            why_of(alloc, u64::from(refusal.line), refusal.reason, journal)
        }
        FollowEnd::Unlawful { line, reason } => why_of(alloc, line, reason, journal),
        _ => return false,
    };
    match said {
        Ok(message) => write_unless(false, messages, message.as_slice()),
        Err(_) => write_unless(false, messages, b"rio_follow: there is not enough memory\n"),
    }
}

/// What is said of a line that is refused or not lawful.
fn why_of(alloc: Global, line: u64, reason: u8, journal: &Journal) -> Result<Vec<u8>, AllocError> {
    let mut message = Vec::new(alloc);
    let head = format!(in alloc; "rio_follow: line {line}: ")?;
    message.extend_from_slice(head.as_bytes())?;
    push_reason(alloc, &mut message, line, reason, journal)?;
    message.extend_from_slice(b"\n")?;
    Ok(message)
}

/// Adds why a line is refused or not lawful, what would have been lawful there, and the line.
pub(crate) fn push_reason(
    alloc: Global,
    message: &mut Vec<u8>,
    line: u64,
    reason: u8,
    journal: &Journal,
) -> Result<(), AllocError> {
    if reason < NO_FORM {
        let text = line_at(journal.script.as_slice(), line);
        push_why(alloc, message, text, reason, trace_reason(reason))?;
        return push_excerpt(message, text);
    }
    let number = line.saturating_sub(u64::from(journal.before));
    if reason == NO_FORM {
        return push_no_form(alloc, message, number, journal);
    }
    let text = journal.notes.line(number).unwrap_or(b"");
    push_why(alloc, message, text, reason, trace_reason(reason))?;
    if let Some(checker) = &journal.checker {
        push_hint(alloc, message, checker.expected())?;
    }
    push_excerpt(message, text)
}

/// Adds why the line of the trace with this number, counted from 1, is none, and the line. It is
/// the last one that was read, or the one after it.
fn push_no_form(
    alloc: Global,
    message: &mut Vec<u8>,
    number: u64,
    journal: &Journal,
) -> Result<(), AllocError> {
    let mut input = Vec::new(alloc);
    input.extend_from_slice(journal.script.as_slice())?;
    input.extend_from_slice(b"---\n")?;
    let mut text = b"".as_slice();
    if number <= journal.notes.lines() {
        text = journal.line.as_slice();
        input.extend_from_slice(text)?;
        input.push(b'\n')?;
    }
    let before = journal
        .notes
        .line(number.saturating_sub(1))
        .unwrap_or(b"---");
    push_form_in(
        alloc,
        message,
        input.as_slice(),
        journal.before,
        before,
        text,
    )?;
    push_excerpt(message, text)
}

/// Adds why a line is none of a trace, whose input has so many lines before it.
fn push_form_in(
    alloc: Global,
    message: &mut Vec<u8>,
    input: &[u8],
    lines: u32,
    before: &[u8],
    text: &[u8],
) -> Result<(), AllocError> {
    if input.len() > MOST_INPUT {
        return message.extend_from_slice(trace_reason(NO_FORM));
    }
    push_form(alloc, message, input, lines.saturating_add(1), before, text)
}

/// The text of a line, counted from 1, and nothing for a line behind the last.
fn line_at(bytes: &[u8], line: u64) -> &[u8] {
    let mut left = line;
    for text in bytes.split(|byte| *byte == b'\n') {
        if left <= 1 {
            return text;
        }
        left -= 1;
    }
    b""
}
