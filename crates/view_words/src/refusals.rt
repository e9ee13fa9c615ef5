//! Which line of the input is refused, and what is said of it.

use crate::blame::push_trace_why;
use crate::reading::ViewEnd;
use crate::status::ViewStatus;
use fabric_script::SetUp;
use refusal_words::{push_excerpt, push_why, set_up_reason};
use std::alloc::{AllocError, Global};

/// Why a line is refused, if its text alone does not say it.
#[derive(Clone, Copy)]
pub enum LineFault {
    /// No line `---` comes.
    NoTrace,
    /// It stands behind the last line of the trace.
    Behind,
    /// The last line of the trace does not come.
    NoEnd,
    /// It is a line of a map that says nothing of the fabric of the set-up lines.
    OtherMap,
}

/// The line that is refused.
#[derive(Drop)]
pub struct RefusedLine {
    /// Its number in the input, where the first is 1.
    pub line: u32,
    /// What is said of it: why it is refused, and its first bytes if it came.
    pub words: Vec<u8>,
}

/// A line is refused for this fault.
pub fn refused<T>(alloc: Global, line: u32, fault: LineFault, text: &[u8]) -> Result<T, ViewEnd> {
    Err(refusal(line, fault_words(alloc, fault, text)))
}

/// A set-up line is refused for the reason of this number.
pub(crate) fn refused_set_up(alloc: Global, line: u32, reason: u8, text: &[u8]) -> ViewEnd {
    refusal(line, set_up_words(alloc, reason, text))
}

/// A line is refused since it is no line of a trace.
pub(crate) fn refused_form(alloc: Global, set_up: &SetUp, line: u32, text: &[u8]) -> ViewEnd {
    refusal(line, form_words(alloc, set_up, text))
}

/// The refusal of a line with what is said of it, unless memory ran out.
fn refusal(line: u32, words: Result<Vec<u8>, AllocError>) -> ViewEnd {
    match words {
        Ok(words) => ViewEnd::Refused(RefusedLine { line, words }),
        Err(_) => ViewEnd::Ended(ViewStatus::NoMemory),
    }
}

/// What is said of a line with this fault.
fn fault_words(alloc: Global, fault: LineFault, text: &[u8]) -> Result<Vec<u8>, AllocError> {
    let mut words = Vec::new(alloc);
    words.extend_from_slice(fault_text(fault))?;
    push_excerpt(&mut words, text)?;
    Ok(words)
}

/// What a fault means.
fn fault_text(fault: LineFault) -> &'static [u8] {
    match fault {
        LineFault::NoTrace => {
            b"no line --- and no trace stand behind the set-up lines, \
as examples/traced.sh writes them"
        }
        LineFault::Behind => b"a line stands behind the last line of the trace",
        LineFault::NoEnd => b"the trace has no last line: end, or undetected",
        LineFault::OtherMap => b"this line of a map says nothing of this fabric",
    }
}

/// What is said of a set-up line.
fn set_up_words(alloc: Global, reason: u8, text: &[u8]) -> Result<Vec<u8>, AllocError> {
    let mut words = Vec::new(alloc);
    push_why(alloc, &mut words, text, reason, set_up_meaning(reason))?;
    push_excerpt(&mut words, text)?;
    Ok(words)
}

/// What the reason of this number means of a line before the line `---`.
fn set_up_meaning(reason: u8) -> &'static [u8] {
    match reason {
        12 => {
            b"only lines that set the fabric up may stand before the line ---: \
examples/traced.sh puts the trace of a script behind them"
        }
        _ => set_up_reason(reason),
    }
}

/// What is said of a line that is no line of a trace.
fn form_words(alloc: Global, set_up: &SetUp, text: &[u8]) -> Result<Vec<u8>, AllocError> {
    let mut words = Vec::new(alloc);
    push_trace_why(alloc, &mut words, set_up, text)?;
    push_excerpt(&mut words, text)?;
    Ok(words)
}
