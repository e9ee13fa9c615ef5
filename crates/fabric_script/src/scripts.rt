//! A script from its bytes.

ghost use Rattle.std.specs.Prelude.{◌≡◌, ◌≢◌, ℕ, ◌+◌, ◌≤◌, ◌⊎◌, List, length, IfOk, IfErr, OnOk, IsOk, IsErrOf};
ghost use Rattle.fabric_script.specs.declared.lines.Numbered.{Numbered as NumberedLine};
ghost use Rattle.fabric_script.specs.Known.{IsOrderly, nothing_in};
ghost use Rattle.fabric_script.specs.declared.known.Mode.TheVariants.{Script as OfScript, SetUp as OfSetUp, Event as OfEvent};
ghost use Rattle.fabric_script.specs.Reading.{LeastHit, ReadsText};
ghost use Rattle.fabric_script.specs.Scripts.{IsScript, IsScriptIn, ScriptPasses, RefusedAt, RefusedIn, SpellsFrom, KeepsLine, pieces_of, is_skipped};
ghost use Rattle.fabric_script.specs.SetUps.{NoEvents};
ghost use Rattle.fabric_script.specs.declared.scripts.ScriptEnd.TheVariants.{NoMemory};

use crate::forms::form_named;
use crate::known::{Known, Mode};
use crate::line_words::{line_saying, take_words};
use crate::lines::{Line, Numbered, Script};
use crate::reasons::Reason;
use crate::refusals::refusal;
use crate::words::Words;
use std::alloc::{AllocError, AllocFailed, Global};

/// The first line that any reason hits, counted from 1, and the number of the least reason that
/// hits it.
#[derive(Clone, Copy, Debug, PartialEq, Eq)]
pub struct Refusal {
    pub line: u32,
    pub reason: u8,
}

/// Why there is no script.
#[derive(Clone, Copy, Debug, PartialEq, Eq)]
pub enum ScriptEnd {
    /// The bytes are refused.
    Refused(Refusal),
    /// Memory ran out.
    NoMemory,
}

impl From<AllocError> for ScriptEnd {
    ghost from_gives = { λ _ end. end ≡ NoMemory };

    fn from(_: AllocError) -> Self {
        ScriptEnd::NoMemory
    }
}

impl<T: Drop> From<AllocFailed<T>> for ScriptEnd {
    ghost from_gives = { λ _ end. end ≡ NoMemory };

    fn from(_: AllocFailed<T>) -> Self {
        ScriptEnd::NoMemory
    }
}

/// The script that the bytes spell, of at most 16,777,216 bytes. A line ends with a line feed,
/// which the last may lack. An empty line and one that begins with `#` are skipped and counted.
/// What is answered passes. Refused names the first line that any reason hits, and the least that
/// hits it.
pub fn parse(alloc: Global, bytes: &[u8]) -> Result<Script, ScriptEnd>
    requires { length bytes.now ≤ 16777216 }
    // What is answered is spelled so, and what is refused is refused so.
    ensures script { IfOk result (λ script.
        IsScript bytes.now script.names.items script.lines.items) }
    ensures passes { IfOk result (λ script. ScriptPasses script.names.items script.lines.items) }
    ensures refused { (refusal : _) → IsErrOf result (ScriptEnd.Refused refusal)
        → RefusedAt bytes.now refusal.line refusal.reason }
    // What is spelled so is answered and what is refused so is refused, unless memory runs out.
    ensures only { (names : List (List ℕ)) (lines : List NumberedLine)
        → IsScript bytes.now names lines
        → IfOk result (λ script. (script.names.items ≡ names) × (script.lines.items ≡ lines))
        × (IsErrOf result ScriptEnd.NoMemory ⊎ IsOk result) }
    ensures refusal_only { (line reason : ℕ) → RefusedAt bytes.now line reason
        → IsErrOf result (ScriptEnd.Refused record { line = line; reason = reason })
        ⊎ IsErrOf result ScriptEnd.NoMemory }
{
    let mut known = Known::new(alloc, Mode::Script);
    let lines = read_lines(alloc, bytes, Mode::Script, &mut known)?;
    let names = known.into_names();
    Ok(Script { names, lines })
}

/// The script of set-up lines alone that the bytes spell, as `parse` reads a script. Any event is
/// out of place.
pub fn parse_set_up(alloc: Global, bytes: &[u8]) -> Result<Script, ScriptEnd>
    requires { length bytes.now ≤ 16777216 }
    ensures script { IfOk result (λ script.
        IsScriptIn OfSetUp bytes.now script.names.items script.lines.items) }
    ensures passes { IfOk result (λ script. ScriptPasses script.names.items script.lines.items) }
    ensures no_events { IfOk result (λ script. NoEvents script.lines.items) }
    ensures refused { (refusal : _) → IsErrOf result (ScriptEnd.Refused refusal)
        → RefusedIn OfSetUp bytes.now refusal.line refusal.reason }
    ensures only { (names : List (List ℕ)) (lines : List NumberedLine)
        → IsScriptIn OfSetUp bytes.now names lines
        → IfOk result (λ script. (script.names.items ≡ names) × (script.lines.items ≡ lines))
        × (IsErrOf result ScriptEnd.NoMemory ⊎ IsOk result) }
    ensures refusal_only { (line reason : ℕ) → RefusedIn OfSetUp bytes.now line reason
        → IsErrOf result (ScriptEnd.Refused record { line = line; reason = reason })
        ⊎ IsErrOf result ScriptEnd.NoMemory }
{
    let mut known = Known::new(alloc, Mode::SetUp);
    let lines = read_lines(alloc, bytes, Mode::SetUp, &mut known)?;
    let names = known.into_names();
    Ok(Script { names, lines })
}

/// The kept lines, each with its number, and what is known at their end.
pub(crate) fn read_lines(
    alloc: Global,
    bytes: &[u8],
    mode: Mode,
    known: &mut Known,
) -> Result<Vec<Numbered>, ScriptEnd>
    requires few { length bytes.now ≤ 16777216 }
    requires nothing { known.old ≡ nothing_in mode }
    requires lines { mode ≢ OfEvent }
    ensures lines { IfOk result (λ lines.
        SpellsFrom 1 (nothing_in mode) (pieces_of bytes.now) lines.items known.new) }
    ensures refused { (refusal : _) → IsErrOf result (ScriptEnd.Refused refusal)
        → RefusedIn mode bytes.now refusal.line refusal.reason }
    ensures orderly { IfOk result (λ _. IsOrderly known.new) }
    ensures few { IfOk result (λ _. length known.new.links ≤ 33554432) }
{
    let mut lines = Vec::new(alloc);
    let mut number = 0;
    for text in bytes.split(|byte| *byte == b'\n') {
        number += 1;
        if is_skipped(text) {
            continue;
        }
        if let Err(reason) = keep_line(alloc, known, &mut lines, number, text)? {
            let reason = reason.number();
            return Err(ScriptEnd::Refused(Refusal {
                line: number,
                reason,
            }));
        }
    }
    Ok(lines)
}

/// Keeps the line that a text is, with its number, and adds it to what is known; or tells the least
/// reason that hits it.
pub(crate) fn keep_line(
    alloc: Global,
    known: &mut Known,
    lines: &mut Vec<Numbered>,
    number: u32,
    text: &[u8],
) -> Result<Result<(), Reason>, AllocError>
    requires orderly { IsOrderly known.old }
    requires few { length known.old.links ≤ 33554432 }
    requires mode { known.old.mode ≢ OfEvent }
    ensures kept { IfOk result (λ read. OnOk read
        (KeepsLine known.old lines.old.items number text.now known.new lines.new.items)) }
    ensures refused { IfOk result (λ read. IfErr read (λ reason. LeastHit known.old text.now reason
        × (known.new ≡ known.old) × (lines.new.items ≡ lines.old.items))) }
    ensures orderly { IsOrderly known.new }
    ensures links { length known.new.links ≤ length known.old.links + 1 }
{
    match read_line(alloc, known, text)? {
        Ok(line) => {
            known.add(&line, text)?;
            lines.push(Numbered { number, line })?;
            Ok(Ok(()))
        }
        Err(reason) => Ok(Err(reason)),
    }
}

/// Whether a line of text is counted and not kept: it is empty or a comment.
pub fn is_skipped(text: &[u8]) -> bool
    ensures { result ≡ is_skipped text.now }
{
    matches!(text, [] | [b'#', ..])
}

/// The line that a text is, or the least reason that hits it.
pub(crate) fn read_line(
    alloc: Global,
    known: &Known,
    text: &[u8],
) -> Result<Result<Line, Reason>, AllocError>
    requires orderly { IsOrderly known.now }
    requires few { length known.now.links ≤ 33554432 }
    ensures { IfOk result (λ read. ReadsText known.now text.now read) }
{
    let mut words = Words::new(text);
    let Some(form) = form_named(words.word()) else {
        return Ok(Err(Reason::UnknownLine));
    };
    let mut values = take_words(alloc, form, &mut words, known)?;
    if let Some(reason) = words.end() {
        return Ok(Err(reason));
    }
    let line = line_saying(alloc, form, values.as_mut_slice(), known);
    match refusal(known, &line) {
        Some(reason) => Ok(Err(reason)),
        None => Ok(Ok(line)),
    }
}
