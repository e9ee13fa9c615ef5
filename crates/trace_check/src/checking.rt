//! A script of set-up lines and a trace, and whether the trace is lawful.

ghost use Rattle.std.specs.Prelude.{◌≡◌, ◌⊎◌, ◌+◌, ◌≤◌, ℕ, length, IfOk, IsErrOf, IsOk};
ghost use Rattle.fabric_script.specs.SetUps.{KnownIsReady};
ghost use Rattle.script_input.specs.Inputs.{IsRefusedInput, texts_of};
ghost use Rattle.trace_check.specs.Lawful.{IsLawful};
ghost use Rattle.trace_check.specs.Outcomes.{check_end_of, HasLawful, HasUnlawful};
ghost use Rattle.trace_check.specs.Starting.{IsBegun, net_of};
ghost use Rattle.trace_check.specs.Verdicts.{StopsAt};
ghost use Rattle.trace_check.specs.declared.checking.CheckEnd.TheVariants.{NoMemory as OutOfMemory};

use crate::reading::{Verdict, read_lines};
use fabric_script::{Refusal, ScriptEnd, SetUp, read_set_up};
use script_input::{split_input, unparted};
use std::alloc::{AllocError, Global};

/// The first line that a reason hits, counted from 1, and the number of the least reason that hits
/// it.
#[derive(Clone, Copy, Debug, PartialEq, Eq)]
pub struct Unlawful {
    pub line: u32,
    pub reason: u8,
}

/// Why there is no lawful trace.
#[derive(Clone, Copy, Debug, PartialEq, Eq)]
pub enum CheckEnd {
    /// The set-up lines are refused, or no line `---` stands behind them.
    Refused(Refusal),
    /// The trace is not lawful.
    Unlawful(Unlawful),
    /// Memory ran out.
    NoMemory,
}

impl From<AllocError> for CheckEnd {
    ghost from_gives = { λ _ end. end ≡ OutOfMemory };

    fn from(_: AllocError) -> Self {
        CheckEnd::NoMemory
    }
}

impl From<ScriptEnd> for CheckEnd {
    ghost from_gives = { λ from end. end ≡ check_end_of from };

    fn from(end: ScriptEnd) -> Self {
        match end {
            ScriptEnd::Refused(refusal) => CheckEnd::Refused(refusal),
            ScriptEnd::NoMemory => CheckEnd::NoMemory,
        }
    }
}

/// How many steps a lawful trace has. The bytes are a script of set-up lines, a line `---` and the
/// lines of a trace, at most 16,777,216 bytes. Refused comes exactly if a reason hits the set-up
/// lines or there is no line `---`, and Unlawful exactly if a reason hits a line of the trace or
/// the last line does not come, unless memory runs out.
pub fn check_trace(alloc: Global, bytes: &[u8]) -> Result<u32, CheckEnd>
    requires { length bytes.now ≤ 16777216 }
    // What is told is so.
    ensures lawful { IfOk result (λ steps. HasLawful bytes.now steps) }
    ensures unlawful { (unlawful : _) → IsErrOf result (CheckEnd.Unlawful unlawful)
        → HasUnlawful bytes.now unlawful.line unlawful.reason }
    ensures refused { (refusal : _) → IsErrOf result (CheckEnd.Refused refusal)
        → IsRefusedInput bytes.now refusal.line refusal.reason }
    // And what is so is told, unless memory runs out.
    ensures lawful_only { (steps : ℕ) → HasLawful bytes.now steps
        → IfOk result (λ told. told ≡ steps) × (IsErrOf result OutOfMemory ⊎ IsOk result) }
    ensures unlawful_only { (line reason : ℕ) → HasUnlawful bytes.now line reason
        → IsErrOf result (CheckEnd.Unlawful record { line = line; reason = reason })
        ⊎ IsErrOf result OutOfMemory }
    ensures refused_only { (line reason : ℕ) → IsRefusedInput bytes.now line reason
        → IsErrOf result (CheckEnd.Refused record { line = line; reason = reason })
        ⊎ IsErrOf result OutOfMemory }
{
    let (script, trace, lines) = split_input(bytes);
    let set_up = read_set_up(alloc, script)?;
    match trace {
        Some(trace) => check_lines(alloc, &set_up, trace, lines + 2),
        None => Err(CheckEnd::Refused(unparted(lines))),
    }
}

/// Checks the lines of a trace, of which the first has this number.
fn check_lines(alloc: Global, set_up: &SetUp, bytes: &[u8], first: u32) -> Result<u32, CheckEnd>
    requires ready { KnownIsReady set_up.now.known }
    requires begun { IsBegun set_up.now }
    requires few { first + length bytes.now ≤ 16777218 }
    ensures lawful { IfOk result (λ steps. IsLawful set_up.now.known (net_of set_up.now)
        (texts_of bytes.now) steps) }
    ensures unlawful { (unlawful : _) → IsErrOf result (CheckEnd.Unlawful unlawful)
        → StopsAt set_up.now.known (net_of set_up.now) (texts_of bytes.now) first unlawful.line
        unlawful.reason }
    ensures no_refusal { (refusal : _) → IsErrOf result (CheckEnd.Refused refusal) → ⊥ }
{
    match read_lines(alloc, set_up, bytes, first, None)? {
        Verdict::Lawful(steps) => Ok(steps),
        Verdict::Unlawful(unlawful, _) => Err(CheckEnd::Unlawful(unlawful)),
    }
}
