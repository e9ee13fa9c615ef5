//! The reactions of a trace are judged, from its set-up lines on.
ghost use Rattle.std.specs.Prelude.{◌≡◌, ◌≤◌, ◌∷◌, ◌++◌, [], ℕ, List, false, length, IfErr, IfOk, IsErrOf};
ghost use Rattle.trace_check.specs.Taken.{IsSetUpOf};
ghost use Rattle.trace_reactions.specs.Judged.{HasJudged, IsNoLine, IsWrongText};
ghost use Rattle.follow_lines.specs.Following.{AreRefused};
ghost use Rattle.follow_lines.specs.Reacting.{EndReacts, JudgesAll, JudgesInput, JudgesTrace};

use crate::ends::{FollowEnd, judge_end, lines_end};
use crate::journal::{Journal, Notes};
use crate::setting::read_set_up_lines;
use crate::telling::tell_answered;
use fabric_script::ScriptEnd;
use live_lines::{LineEnd, LineReader};
use rio_chars::{Outbox, Sink, Source};
use script_input::unparted;
use std::alloc::Global;
use trace_reactions::{Judge, JudgeEnd};

/// Reads set-up lines, a line `---` and the lines of a trace, and judges the reactions of each line
/// of the trace before the next is asked for. The verdict is told as soon as there is one. What was
/// read is left in the journal.
pub fn follow_reactions<S: Source, K: Sink>(
    alloc: Global,
    input: &mut LineReader,
    journal: &mut Journal,
    source: &mut S,
    outbox: &mut Outbox<K>,
) -> FollowEnd
    requires input { input.old ≡ [] }
    requires script { journal.old.script.items ≡ [] }
    requires fine { outbox.old.failed ≡ false }
    requires empty { outbox.old.waiting ≡ [] }
    ensures same { outbox.new.sink ≡ outbox.old.sink }
    ensures judges { JudgesAll result (S.left source.old) (S.left source.new)
        (S.faults source.old) (S.faults source.new) outbox.old.written outbox.new.written
        outbox.old.faults outbox.new.faults }
{
    let verdict = judge_input(alloc, input, journal, source);
    tell_answered(alloc, verdict, outbox)
}

/// Reads and judges the lines, and answers how many reactions were sent, if each was due.
fn judge_input<S: Source>(
    alloc: Global,
    input: &mut LineReader,
    journal: &mut Journal,
    source: &mut S,
) -> Result<u64, FollowEnd>
    requires input { input.old ≡ [] }
    requires script { journal.old.script.items ≡ [] }
    ensures { JudgesInput result (S.left source.old) (S.left source.new)
        (S.faults source.old) (S.faults source.new) }
{
    let read = read_set_up_lines(input, &mut journal.script, &mut journal.line, source)?;
    let mut judge = new_judge(alloc, journal.script.as_slice())?;
    let parted = read.parted;
    if !parted {
        return Err(FollowEnd::Refused(unparted(read.lines)));
    }
    let before = read.lines + 1;
    journal.before = before;
    let verdict = judge_trace(alloc, before, &mut judge, input, journal, source);
    journal.judge = Some(judge);
    verdict
}

/// A judge of the trace behind these set-up lines, if they are not refused.
fn new_judge(alloc: Global, script: &[u8]) -> Result<Judge, FollowEnd>
    requires { length script.now ≤ 16777216 }
    ensures made { IfOk result (λ judge. IsSetUpOf script.now judge.set_up) }
    ensures taken { IfOk result (HasJudged []) }
    ensures refused { IfErr result (AreRefused script.now) }
{
    match Judge::new(alloc, script) {
        Ok(judge) => Ok(judge),
        Err(ScriptEnd::Refused(refusal)) => Err(FollowEnd::Refused(refusal)),
        Err(ScriptEnd::NoMemory) => Err(FollowEnd::NoMemory),
    }
}

/// Reads the lines of a trace behind others, of which there are so many, and judges each before the
/// next is asked for. The answer is how many reactions they have, if each was due.
fn judge_trace<S: Source>(
    alloc: Global,
    before: u32,
    judge: &mut Judge,
    input: &mut LineReader,
    journal: &mut Journal,
    source: &mut S,
) -> Result<u64, FollowEnd>
    requires { HasJudged [] judge.old }
    ensures { JudgesTrace judge.old.set_up before result input.old (S.left source.old)
        (S.left source.new) (S.faults source.old) (S.faults source.new) }
{
    let mut lines = 0u32;
    while lines < u32::MAX {
        if let Err(end) = input.read_line(source, &mut journal.line) {
            return end_trace(judge, end);
        }
        lines += 1;
        if let Err(end) = judge_line(alloc, judge, &mut journal.notes, journal.line.as_slice()) {
            let number = u64::from(before) + u64::from(lines);
            return Err(judge_end(number, end));
        }
    }
    Err(FollowEnd::TooManyLines)
}

/// Judges the next line, and notes it.
fn judge_line(
    alloc: Global,
    judge: &mut Judge,
    notes: &mut Notes,
    text: &[u8],
) -> Result<(), JudgeEnd>
    ensures set_up { judge.new.set_up ≡ judge.old.set_up }
    ensures taken { IfOk result (λ _. (texts : List (List ℕ)) → HasJudged texts judge.old
        → HasJudged (texts ++ text.now ∷ []) judge.new) }
    ensures no_form { IsErrOf result JudgeEnd.NoForm → IsNoLine judge.old.set_up text.now }
    ensures wrong { (wrong : _) → IsErrOf result (JudgeEnd.Wrong wrong)
        → (texts : List (List ℕ)) → HasJudged texts judge.old
        → IsWrongText judge.old.set_up texts text.now wrong }
{
    let Ok(()) = notes.note(alloc, text) else {
        return Err(JudgeEnd::NoMemory);
    };
    judge.take(alloc, text)
}

/// The verdict if no further line comes.
fn end_trace(judge: &Judge, end: LineEnd) -> Result<u64, FollowEnd>
    ensures { EndReacts judge.now end result }
{
    match lines_end(end) {
        Some(end) => Err(end),
        None => Ok(judge.answered()),
    }
}
