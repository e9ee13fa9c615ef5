//! The lines of a trace are read, up to the first that is not lawful or to their end.

ghost use Rattle.std.specs.Prelude.{◌≡◌, ◌+◌, ◌<◌, ◌≤◌, ◌∷◌, ℕ, List, length, option_map, IfOk};
ghost use Rattle.fabric_script.specs.SetUps.{KnownIsReady};
ghost use Rattle.script_input.specs.Inputs.{texts_ahead, texts_of};
ghost use Rattle.trace_check.specs.Lawful.{as_behind, fault_number};
ghost use Rattle.trace_check.specs.Outcomes.{ReadsNextText};
ghost use Rattle.trace_check.specs.Starting.{IsBegun, net_of, nodes_of};
ghost use Rattle.trace_check.specs.States.{fault_of, IsReachedState, ReachedState};
ghost use Rattle.trace_check.specs.Verdicts.{IsVerdict};
ghost use Rattle.trace_check.specs.Wires.{are_short};

use crate::checking::Unlawful;
use crate::expecting::Expected;
use crate::reader::Reader;
use crate::state::Fault;
use fabric_script::SetUp;
use script_input::next_line;
use std::alloc::{AllocError, Global};
use trace_lines::{TraceLineEnd, read_trace_line};

/// The reason if a line is of no form, or the last line does not come.
pub(crate) const BAD_FORM: u8 = 21;

/// What the lines of a trace are.
#[derive(Drop)]
pub(crate) enum Verdict {
    /// Lawful, and so many of them are steps.
    Lawful(u32),
    /// Not lawful, at this line for this reason; and what would have been lawful there, if that was
    /// asked and there is an answer.
    Unlawful(Unlawful, Option<Expected>),
}

/// Reads the lines of a trace, of which the first has this number. What would have been lawful is
/// asked of one line at most.
pub(crate) fn read_lines(
    alloc: Global,
    set_up: &SetUp,
    bytes: &[u8],
    first: u32,
    asked: Option<u32>,
) -> Result<Verdict, AllocError>
    requires ready { KnownIsReady set_up.now.known }
    requires begun { IsBegun set_up.now }
    requires few { first + length bytes.now ≤ 16777218 }
    ensures { IfOk result (IsVerdict set_up.now.known (net_of set_up.now) (texts_of bytes.now) first
        asked) }
{
    let mut reader = Reader::new(alloc, set_up)?;
    let mut number = first;
    let mut ahead = next_line(bytes);
    while let Some((text, left)) = ahead {
        ahead = next_line(left);
        let expected = reader.expected(alloc, set_up, text, asked == Some(number))?;
        let hit = reader.read(alloc, set_up, text, is_short(ahead))?;
        if let Some(reason) = hit {
            return Ok(hit_at(number, reason, expected));
        }
        number += 1;
    }
    if reader.has_ended() {
        Ok(Verdict::Lawful(reader.steps()))
    } else {
        Ok(hit_at(number, BAD_FORM, None))
    }
}

/// Whether a line says that a wire is too short.
fn is_short(line: Option<(&[u8], &[u8])>) -> bool
    ensures { result ≡ are_short (as_behind (texts_ahead line.entry)) }
{
    match line {
        Some((text, _)) => says_short(text),
        None => false,
    }
}

/// Whether a text says that a wire is too short.
pub(crate) fn says_short(text: &[u8]) -> bool
    ensures { (rest : List (List ℕ)) → result ≡ are_short (as_behind (text.now ∷ rest)) }
{
    text == b"short".as_slice()
}

/// The lines are not lawful.
fn hit_at(line: u32, reason: u8, expected: Option<Expected>) -> Verdict
    ensures { result ≡ Verdict.Unlawful (record { line = line; reason = reason }) expected }
{
    Verdict::Unlawful(Unlawful { line, reason }, expected)
}

/// The number of the reason, if there is one.
fn number_of(fault: Option<Fault>) -> Option<u8>
    ensures { result ≡ option_map (λ fault. fault_number (fault_of fault)) fault }
{
    fault.map(|fault| fault.number())
}

impl Reader {
    /// Takes the text of a line in, and tells the least reason that hits it. `short` tells whether
    /// the next line says that a wire is too short.
    pub(crate) fn read(
        &mut self,
        alloc: Global,
        set_up: &SetUp,
        text: &[u8],
        short: bool,
    ) -> Result<Option<u8>, AllocError>
        requires ready { KnownIsReady set_up.now.known }
        requires few { self.old.steps < 4294967295 }
        ensures read { IfOk result (λ hit. (r : ReachedState) → IsReachedState r self.old.state
            → r.nodes ≡ nodes_of set_up.now → ReadsNextText set_up.now.known r text.now short
            self.old.ended self.old.steps self.new.ended self.new.steps self.new.state hit) }
    {
        if self.has_ended() {
            return Ok(Some(BAD_FORM));
        }
        match read_trace_line(alloc, set_up, text) {
            Ok(line) => Ok(number_of(self.check(line, short)?)),
            Err(TraceLineEnd::NoForm) => Ok(Some(BAD_FORM)),
            Err(TraceLineEnd::NoMemory) => Err(AllocError),
        }
    }
}
