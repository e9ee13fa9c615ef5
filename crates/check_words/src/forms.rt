//! Why a line is no line of a trace, in words.
ghost use Rattle.std.specs.Prelude.{◌≡◌, ◌≤◌, ◌∷◌, ◌++◌, ℕ, IfOk, IfSome, List, IsTrue, OnOk, length};
ghost use Rattle.fabric_script.specs.SetUps.{IsRefused, KnownIsReady};
ghost use Rattle.check_words.specs.Forms.{EndsTrace, IsFormWhy, IsTextWhy, event_reason as event_reason_of};

use crate::finding::misfit_of;
use crate::misfit_texts::push_misfit;
use crate::reasons::trace_reason;
use fabric_script::{EventEnd, ScriptEnd, SetUp, read_set_up, split_word};
use refusal_words::{push_plain, push_why, script_reason};
use script_input::{count_lines, split_input};
use std::alloc::{AllocError, Global};

/// Adds why a line of an input is no line of a trace: the line with this number, counted from 1,
/// and this text, behind a line with the other text. It may be the one after the last.
pub fn push_form(
    alloc: Global,
    message: &mut Vec<u8>,
    bytes: &[u8],
    line: u32,
    before: &[u8],
    text: &[u8],
) -> Result<(), AllocError>
    requires { length bytes.now ≤ 16777216 }
    ensures { OnOk result ((why : List ℕ) × IsFormWhy bytes.now line before.now text.now why
        × (message.new.items ≡ message.old.items ++ why)) }
{
    if count_lines(bytes) < line {
        return message.extend_from_slice(b"the trace has no line end at its end");
    }
    if line > 1 && ends_trace(before) {
        return message.extend_from_slice(
            b"the line before ends the trace, and none may stand behind it",
        );
    }
    let (script, _, _) = split_input(bytes);
    match read_set_up(alloc, script) {
        Ok(set_up) => push_text(alloc, message, &set_up, text),
        Err(ScriptEnd::Refused(_)) => message.extend_from_slice(trace_reason(21)),
        Err(ScriptEnd::NoMemory) => Err(AllocError),
    }
}

/// Whether a text is the last line of a trace.
fn ends_trace(text: &[u8]) -> bool
    ensures { IsTrue result → EndsTrace text.now }
{
    text == b"end".as_slice() || split_word(text).0 == b"undetected".as_slice()
}

/// Adds why a text is no line of a trace behind these set-up lines.
fn push_text(
    alloc: Global,
    message: &mut Vec<u8>,
    set_up: &SetUp,
    text: &[u8],
) -> Result<(), AllocError>
    requires { KnownIsReady set_up.now.known }
    ensures { OnOk result ((why : List ℕ) × IsTextWhy set_up.now.known text.now why
        × (message.new.items ≡ message.old.items ++ why)) }
{
    match text {
        [b'>', b' ', event @ ..] => push_event(alloc, message, set_up, text, event),
        [b'>', ..] | [b'-', ..] => push_words(alloc, message, set_up, text),
        _ => push_bytes(alloc, message, set_up, text),
    }
}

/// The same, of a text whose bytes alone may show it.
fn push_bytes(
    alloc: Global,
    message: &mut Vec<u8>,
    set_up: &SetUp,
    text: &[u8],
) -> Result<(), AllocError>
    ensures { OnOk result ((why : List ℕ) × IsTextWhy set_up.now.known text.now why
        × (message.new.items ≡ message.old.items ++ why)) }
{
    if push_plain(message, text)? {
        return Ok(());
    }
    push_words(alloc, message, set_up, text)
}

/// The same, of the words of a text.
fn push_words(
    alloc: Global,
    message: &mut Vec<u8>,
    set_up: &SetUp,
    text: &[u8],
) -> Result<(), AllocError>
    ensures { OnOk result ((why : List ℕ) × IsTextWhy set_up.now.known text.now why
        × (message.new.items ≡ message.old.items ++ why)) }
{
    let misfit = misfit_of(alloc, set_up, text)?;
    push_misfit(alloc, message, misfit)
}

/// The same, of an event behind its sign.
fn push_event(
    alloc: Global,
    message: &mut Vec<u8>,
    set_up: &SetUp,
    text: &[u8],
    event: &[u8],
) -> Result<(), AllocError>
    requires { text.now ≡ 62 ∷ 32 ∷ event.now }
    ensures { OnOk result ((why : List ℕ) × IsTextWhy set_up.now.known text.now why
        × (message.new.items ≡ message.old.items ++ why)) }
{
    match refusal_of(alloc, set_up, event)? {
        Some(number) => {
            message.extend_from_slice(b"behind the >, ")?;
            push_why(alloc, message, event, number, event_reason(number))
        }
        None => push_words(alloc, message, set_up, text),
    }
}

/// The number of the reason for which an event is refused behind set-up lines.
fn refusal_of(alloc: Global, set_up: &SetUp, event: &[u8]) -> Result<Option<u8>, AllocError>
    ensures { IfOk result (λ found. IfSome found (IsRefused set_up.now.known event.now)) }
{
    match set_up.read_event(alloc, event) {
        Ok(_) => Ok(None),
        Err(EventEnd::Refused(number)) => Ok(Some(number)),
        Err(EventEnd::NoMemory) => Err(AllocError),
    }
}

/// Why a line of a script is no event of a trace, by the number of the reason.
fn event_reason(number: u8) -> &'static [u8]
    ensures { result.now ≡ event_reason_of number }
{
    match number {
        12 => b"a line that sets the fabric up is no event",
        _ => script_reason(number),
    }
}
