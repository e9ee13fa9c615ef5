//! The lines of a trace are judged, one after another.
ghost use Rattle.std.specs.Prelude.{◌≡◌, ◌<◌, [], ◌∷◌, ◌++◌, ℕ, List, false, IfOk, IsErrOf};
ghost use Rattle.trace_check.specs.Taken.{HasTakenLines, IsHitIn};
ghost use Rattle.trace_check.specs.Told.{IsToldIn};
ghost use Rattle.follow_lines.specs.Following.{EndJudged, FollowsTrace};

use crate::ends::{FollowEnd, check_end, lines_end};
use crate::journal::{Journal, Notes};
use crate::telling::tell_ok;
use live_lines::{LineEnd, LineReader};
use rio_chars::{Outbox, Sink, Source};
use std::alloc::Global;
use trace_check::{CheckEnd, Checker};

/// Reads the lines of a trace behind others, of which there are so many, and judges each before the
/// next is asked for. `ok` is told of each that is taken, if it is to be told. The answer is how
/// many steps they have, if they are a lawful trace.
pub(crate) fn follow_trace<S: Source, K: Sink>(
    alloc: Global,
    tell: bool,
    before: u32,
    checker: &mut Checker,
    input: &mut LineReader,
    journal: &mut Journal,
    source: &mut S,
    outbox: &mut Outbox<K>,
) -> Result<u32, FollowEnd>
    requires taken { HasTakenLines [] checker.old }
    requires fine { outbox.old.failed ≡ false }
    requires empty { outbox.old.waiting ≡ [] }
    ensures same { outbox.new.sink ≡ outbox.old.sink }
    ensures follows { FollowsTrace checker.old.set_up before tell result checker.new.expected
        input.old (S.left source.old) (S.left source.new) (S.faults source.old)
        (S.faults source.new) outbox.old outbox.new }
{
    while checker.lines() < u32::MAX {
        if let Err(end) = input.read_line(source, &mut journal.line) {
            return end_lines(before, checker, end);
        }
        if let Err(end) = take_line(alloc, checker, &mut journal.notes, journal.line.as_slice()) {
            return Err(check_end(before, end));
        }
        tell_ok(tell, outbox);
        if outbox.failed() {
            return Err(FollowEnd::WriteFault);
        }
    }
    Err(FollowEnd::TooManyLines)
}

/// Takes the next line, and notes it. Unlawful comes exactly if a reason hits it, or the line
/// before it if that edits a wire.
fn take_line(
    alloc: Global,
    checker: &mut Checker,
    notes: &mut Notes,
    text: &[u8],
) -> Result<(), CheckEnd>
    requires few { checker.old.lines < 4294967295 }
    ensures set_up { checker.new.set_up ≡ checker.old.set_up }
    ensures lawful { IfOk result (λ _. (texts : List (List ℕ)) → HasTakenLines texts checker.old
        → HasTakenLines (texts ++ text.now ∷ []) checker.new) }
    ensures unlawful { (hit : _) → IsErrOf result (CheckEnd.Unlawful hit)
        → (texts : List (List ℕ)) → HasTakenLines texts checker.old
        → IsHitIn checker.old.set_up (texts ++ text.now ∷ []) hit }
    ensures told { (hit : _) → IsErrOf result (CheckEnd.Unlawful hit)
        → (texts : List (List ℕ)) → HasTakenLines texts checker.old
        → IsToldIn checker.old.set_up (texts ++ text.now ∷ []) hit checker.new.expected }
    ensures never_refused { (refusal : _) → IsErrOf result (CheckEnd.Refused refusal) → ⊥ }
{
    let Ok(()) = notes.note(alloc, text) else {
        return Err(CheckEnd::NoMemory);
    };
    if let Err(end) = checker.take(alloc, text) {
        return Err(end);
    }
    let Ok(()) = notes.count(alloc, text) else {
        return Err(CheckEnd::NoMemory);
    };
    Ok(())
}

/// Judges the trace if no further line comes, at the end of input.
fn end_lines(before: u32, checker: &mut Checker, end: LineEnd) -> Result<u32, FollowEnd>
    requires { checker.old.lines < 4294967295 }
    ensures { EndJudged before checker.old end result checker.new.expected }
{
    if let Some(end) = lines_end(end) {
        return Err(end);
    }
    match checker.end() {
        Ok(steps) => Ok(steps),
        Err(end) => Err(check_end(before, end)),
    }
}
