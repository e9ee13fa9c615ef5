//! The line of an input that is refused or not lawful, and what is said of it.
ghost use Rattle.std.specs.Prelude.{◌≡◌, ◌≤◌, ◌++◌, ℕ, List, IfOk, OnOk, length};
ghost use Rattle.rio_cli.specs.Inputs.{most_input};
ghost use Rattle.rio_cli.specs.Messages.{input_line_text, citation_of, place_text, IsExpectedBy, IsWhyOf, Explains};

use crate::command::Command;
use crate::texts::reason_text;
use check_words::{push_form, push_hint, trace_reason};
use refusal_words::{push_excerpt, push_number, push_why};
use rio_words::{push_bad_word, push_lines};
use std::alloc::{AllocError, Global};
use trace_check::{Expected, expect};

/// The number of the reason of a line that is none of a trace.
const NO_FORM: u8 = 21;

/// The line of an input that is refused or not lawful, counted from 1, and the number of the
/// reason, by what was asked for; and what is said of it in words: one line of text.
#[derive(Debug, Drop)]
pub struct Refusal {
    pub command: Command,
    pub line: u32,
    pub reason: u8,
    pub message: Vec<u8>,
}

impl Refusal {
    /// The refusal of this line of the input. Its message cites the line.
    pub(crate) fn new(
        alloc: Global,
        command: Command,
        bytes: &[u8],
        line: u32,
        reason: u8,
    ) -> Result<Refusal, AllocError>
        requires { length bytes.now ≤ most_input }
        ensures command { IfOk result (λ refusal. refusal.command ≡ command) }
        ensures line { IfOk result (λ refusal. refusal.line ≡ line) }
        ensures reason { IfOk result (λ refusal. refusal.reason ≡ reason) }
        ensures message { IfOk result (λ refusal.
            Explains command bytes.now line reason refusal.message.items) }
    {
        let text = line_at(bytes, line);
        let expected = expected_at(alloc, &command, bytes, line, reason)?;
        let mut message = Vec::new(alloc);
        message.extend_from_slice(b"rio: line ")?;
        push_number(&mut message, line)?;
        message.extend_from_slice(b": ")?;
        push_why_refused(alloc, &mut message, &command, bytes, line, reason)?;
        push_hint(alloc, &mut message, &expected)?;
        push_citation(&mut message, &command, text)?;
        message.extend_from_slice(b"\n")?;
        push_place(alloc, &mut message, &command, line, reason)?;
        Ok(Refusal {
            command,
            line,
            reason,
            message,
        })
    }
}

/// Adds how to see the place of a trace that is not lawful.
fn push_place(
    alloc: Global,
    message: &mut Vec<u8>,
    command: &Command,
    line: u32,
    reason: u8,
) -> Result<(), AllocError>
    ensures { OnOk result
        (message.new.items ≡ message.old.items ++ place_text command.now line reason) }
{
    match command {
        Command::Check if reason >= 21 => push_lines(alloc, message, line),
        _ => Ok(()),
    }
}

/// What would have been lawful at a line, of a trace that is not lawful there.
fn expected_at(
    alloc: Global,
    command: &Command,
    bytes: &[u8],
    line: u32,
    reason: u8,
) -> Result<Option<Expected>, AllocError>
    requires { length bytes.now ≤ most_input }
    ensures { IfOk result (IsExpectedBy command.now bytes.now line reason) }
{
    match command {
        Command::Replay => Ok(None),
        Command::Decode => Ok(None),
        Command::Io => Ok(None),
        Command::Enumerate(_) => Ok(None),
        Command::Contest { .. } => Ok(None),
        Command::Check => expected_in_trace(alloc, bytes, line, reason),
    }
}

/// The same, by the reason.
fn expected_in_trace(
    alloc: Global,
    bytes: &[u8],
    line: u32,
    reason: u8,
) -> Result<Option<Expected>, AllocError>
    requires { length bytes.now ≤ most_input }
    ensures { IfOk result (IsExpectedBy Command.Check bytes.now line reason) }
{
    if reason <= 21 {
        return Ok(None);
    }
    expect(alloc, bytes, line)
}

/// Adds why a line is refused: what in it is to blame, if its text alone shows that.
fn push_why_refused(
    alloc: Global,
    message: &mut Vec<u8>,
    command: &Command,
    bytes: &[u8],
    line: u32,
    reason: u8,
) -> Result<(), AllocError>
    requires { length bytes.now ≤ most_input }
    ensures { OnOk result ((why : List ℕ) × IsWhyOf command.now bytes.now line reason why
        × (message.new.items ≡ message.old.items ++ why)) }
{
    let text = line_at(bytes, line);
    match command {
        Command::Decode => push_bad_word(message, text),
        Command::Io => message.extend_from_slice(reason_text(command, reason)),
        Command::Check => push_why_checked(alloc, message, bytes, line, reason),
        Command::Replay | Command::Enumerate(_) | Command::Contest { .. } => {
            push_why(alloc, message, text, reason, reason_text(command, reason))
        }
    }
}

/// The same, of a line of set-up lines and a trace.
fn push_why_checked(
    alloc: Global,
    message: &mut Vec<u8>,
    bytes: &[u8],
    line: u32,
    reason: u8,
) -> Result<(), AllocError>
    requires { length bytes.now ≤ most_input }
    ensures { OnOk result ((why : List ℕ) × IsWhyOf Command.Check bytes.now line reason why
        × (message.new.items ≡ message.old.items ++ why)) }
{
    let text = line_at(bytes, line);
    if reason == NO_FORM {
        let before = line_at(bytes, line.saturating_sub(1));
        return push_form(alloc, message, bytes, line, before, text);
    }
    push_why(alloc, message, text, reason, trace_reason(reason))
}

/// The text of a line of the input, and nothing for a line behind the last.
fn line_at(bytes: &[u8], line: u32) -> &[u8]
    ensures { result.now ≡ input_line_text bytes.now line }
{
    let mut left = line;
    for text in bytes.split(|byte| *byte == b'\n') {
        if left <= 1 {
            return text;
        }
        left -= 1;
    }
    b""
}

/// Adds what is shown of a line: its first bytes, or the words that name a host.
fn push_citation(message: &mut Vec<u8>, command: &Command, text: &[u8]) -> Result<(), AllocError>
    ensures { OnOk result
        (message.new.items ≡ message.old.items ++ citation_of command.now text.now) }
{
    match command {
        Command::Enumerate(node) if text.is_empty() => {
            message.extend_from_slice(b": enumerate ")?;
            message.extend_from_slice(node.as_slice())
        }
        Command::Contest {
            first,
            second,
            seed,
        } if text.is_empty() => {
            message.extend_from_slice(b": contest ")?;
            message.extend_from_slice(first.as_slice())?;
            message.extend_from_slice(b" ")?;
            message.extend_from_slice(second.as_slice())?;
            message.extend_from_slice(b" ")?;
            push_number(message, *seed)
        }
        _ => push_excerpt(message, text),
    }
}
