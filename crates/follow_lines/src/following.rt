//! A trace is followed, from its set-up lines on.
ghost use Rattle.std.specs.Prelude.{◌≡◌, ◌≤◌, [], false, length, IfOk, IfErr};
ghost use Rattle.trace_check.specs.Taken.{HasTakenLines, IsSetUpOf};
ghost use Rattle.follow_lines.specs.Following.{AreRefused, FollowsAll, FollowsInput, expected_by};

use crate::ends::{FollowEnd, check_end};
use crate::journal::Journal;
use crate::setting::read_set_up_lines;
use crate::telling::{tell_ok, tell_verdict};
use crate::tracing::follow_trace;
use live_lines::LineReader;
use rio_chars::{Outbox, Sink, Source};
use script_input::unparted;
use std::alloc::Global;
use trace_check::Checker;

/// Reads set-up lines, a line `---` and the lines of a trace, and judges each line of the trace
/// before the next is asked for. The verdict is told as soon as there is one. If `ok` is to be
/// told, it is told of the line `---` and of each line behind it that is taken. What was read is
/// left in the journal, and what would have been lawful at a line that is not, in its checker.
pub fn follow_all<S: Source, K: Sink>(
    alloc: Global,
    tell: bool,
    input: &mut LineReader,
    journal: &mut Journal,
    source: &mut S,
    outbox: &mut Outbox<K>,
) -> FollowEnd
    requires input { input.old ≡ [] }
    requires script { journal.old.script.items ≡ [] }
    requires fine { outbox.old.failed ≡ false }
    requires empty { outbox.old.waiting ≡ [] }
    ensures same { outbox.new.sink ≡ outbox.old.sink }
    ensures follows { FollowsAll tell result (expected_by journal.new.checker) (S.left source.old)
        (S.left source.new) (S.faults source.old) (S.faults source.new)
        outbox.old.written outbox.new.written outbox.old.faults outbox.new.faults }
{
    let verdict = follow_input(alloc, tell, input, journal, source, outbox);
    tell_verdict(alloc, verdict, outbox)
}

/// Reads and judges the lines, and answers how many steps the trace has, if it is lawful.
fn follow_input<S: Source, K: Sink>(
    alloc: Global,
    tell: bool,
    input: &mut LineReader,
    journal: &mut Journal,
    source: &mut S,
    outbox: &mut Outbox<K>,
) -> Result<u32, FollowEnd>
    requires input { input.old ≡ [] }
    requires script { journal.old.script.items ≡ [] }
    requires fine { outbox.old.failed ≡ false }
    requires empty { outbox.old.waiting ≡ [] }
    ensures same { outbox.new.sink ≡ outbox.old.sink }
    ensures follows { FollowsInput tell result (expected_by journal.new.checker) (S.left source.old)
        (S.left source.new) (S.faults source.old) (S.faults source.new) outbox.old outbox.new }
{
    let read = read_set_up_lines(input, &mut journal.script, &mut journal.line, source)?;
    let mut checker = new_checker(alloc, journal.script.as_slice())?;
    let parted = read.parted;
    if !parted {
        return Err(FollowEnd::Refused(unparted(read.lines)));
    }
    tell_ok(tell, outbox);
    if outbox.failed() {
        return Err(FollowEnd::WriteFault);
    }
    let before = read.lines + 1;
    journal.before = before;
    let verdict = follow_trace(
        alloc,
        tell,
        before,
        &mut checker,
        input,
        journal,
        source,
        outbox,
    );
    journal.checker = Some(checker);
    verdict
}

/// A check of the trace behind these set-up lines, if they are not refused.
fn new_checker(alloc: Global, script: &[u8]) -> Result<Checker, FollowEnd>
    requires { length script.now ≤ 16777216 }
    ensures made { IfOk result (λ checker. IsSetUpOf script.now checker.set_up) }
    ensures taken { IfOk result (HasTakenLines []) }
    ensures refused { IfErr result (AreRefused script.now) }
{
    match Checker::new(alloc, script) {
        Ok(checker) => Ok(checker),
        Err(end) => Err(check_end(0, end)),
    }
}
