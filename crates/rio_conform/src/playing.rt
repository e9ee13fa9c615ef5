//! The lines of a scenario, one after another.
ghost use Rattle.std.specs.Prelude.{◌≡◌, ◌≤◌, [], false, map, ◌↔◌, IsTrue, IsFalse, Ok, OnOk, IfOk, IfErr};
ghost use Rattle.std.specs.String.{string_bytes};
ghost use Rattle.rio_conform.specs.Answers.{Came};
ghost use Rattle.port_lines.specs.Clocks.{new_clocked, plain_settings};
ghost use Rattle.port_lines.specs.Lines.{asked_answer};
ghost use Rattle.conform_lines.specs.Stimuli.{ReadsStimulus};
ghost use Rattle.conform_lines.specs.Tolerances.{JudgeState, judge_start, leeway_of};
ghost use Rattle.port_lines.specs.declared.requests.PortRequest.{PortRequest as ARequest};
ghost use Rattle.rio_conform.specs.Report.{HasDetails};
ghost use Rattle.rio_conform.specs.Plays.{Plays, PlaysRight, PassesAnswer, Fails, AnswerFails, AnswerPasses, RequestFails, failing_verdict};

use crate::answers::read_answer;
use crate::report::push_details;
use crate::trial::Trial;
use crate::verdict::Verdict;
use conform_lines::{Judge, Leeway, expect, leeway_of, read_stimulus, write_stimulus};
use live_lines::{LineEnd, LiveStatus};
use port_lines::PortRequest;
use rio_chars::{NoMemory, Outbox, Sink, Source, TextBuffer};
use std::alloc::Global;

/// Why the answer of a line does not pass.
#[derive(Clone, Copy, Debug, PartialEq, Eq)]
pub(crate) enum Failing {
    Differs,
    Ended,
    Misspelled,
    Stopped(LiveStatus),
}

/// Asks a device the lines of a scenario, one after another, up to the first whose answer does not
/// pass for the one that a port of 4 to 30 buffers gives: strictly it has to be the same. What
/// there is to tell of that line is added to `details`, and nothing if the scenario passes.
pub fn play<S: Source, K: Sink>(
    alloc: Global,
    strict: bool,
    buffers: u8,
    lines: &[String],
    source: &mut S,
    sink: &mut K,
    details: &mut Vec<u8>,
) -> Verdict
    requires least { 4 ≤ buffers }
    requires most { buffers ≤ 30 }
    ensures plays { Plays strict (new_clocked (plain_settings buffers)) judge_start
        (map string_bytes lines.now) result (S.left source.old) (S.left source.new)
        (K.written sink.old) (K.written sink.new) }
    ensures details { HasDetails result details.old.items details.new.items }
{
    let Ok(mut trial) = Trial::new(alloc, buffers) else {
        return Verdict::Stopped(LiveStatus::NoMemory);
    };
    let Ok(mut buffer) = TextBuffer::new(alloc) else {
        return Verdict::Stopped(LiveStatus::NoMemory);
    };
    let mut outbox = Outbox::new(&mut buffer, sink);
    let verdict = play_lines(alloc, strict, &mut trial, lines, source, &mut outbox);
    outbox.into_sink();
    match push_details(alloc, details, verdict, lines, &trial) {
        Ok(()) => verdict,
        Err(_) => Verdict::Stopped(LiveStatus::NoMemory),
    }
}

/// Asks the lines, one after another, up to the first whose answer does not pass.
fn play_lines<S: Source, K: Sink>(
    alloc: Global,
    strict: bool,
    trial: &mut Trial,
    lines: &[String],
    source: &mut S,
    outbox: &mut Outbox<K>,
) -> Verdict
    requires input { trial.old.input ≡ [] }
    requires fine { outbox.old.failed ≡ false }
    requires empty { outbox.old.waiting ≡ [] }
    ensures same { outbox.new.sink ≡ outbox.old.sink }
    ensures plays { Plays strict trial.old.port trial.old.judge (map string_bytes lines.now) result
        (S.left source.old) (S.left source.new) outbox.old.written outbox.new.written }
{
    let mut left = lines;
    while let [line, rest @ ..] = left {
        let line = line.as_str().as_bytes();
        if let Err(failing) = play_line(alloc, strict, trial, line, source, outbox) {
            return verdict_of(failing, lines.len() - left.len());
        }
        left = rest;
    }
    Verdict::Passes
}

/// The verdict on a line that so many others precede.
fn verdict_of(failing: Failing, count: usize) -> Verdict
    ensures { result ≡ failing_verdict failing count }
{
    match failing {
        Failing::Differs => Verdict::Differs(count),
        Failing::Ended => Verdict::Ended(count),
        Failing::Misspelled => Verdict::Misspelled(count),
        Failing::Stopped(status) => Verdict::Stopped(status),
    }
}

/// Asks a line, and judges its answer by the right one.
fn play_line<S: Source, K: Sink>(
    alloc: Global,
    strict: bool,
    trial: &mut Trial,
    line: &[u8],
    source: &mut S,
    outbox: &mut Outbox<K>,
) -> Result<(), Failing>
    ensures same { outbox.new.sink ≡ outbox.old.sink }
    ensures right { OnOk result (PlaysRight strict line.now trial.old.port trial.new.port
        trial.old.judge trial.new.judge outbox.old outbox.new
        (S.left source.old) (S.left source.new) trial.old.input trial.new.input) }
    ensures fails { IfErr result (λ failing. Fails strict failing line.now
        trial.old.port trial.old.judge outbox.old outbox.new
        (S.left source.old) (S.left source.new) trial.old.input trial.new.input) }
{
    let request = match request_of(alloc, line) {
        Ok(request) => request,
        Err(failing) => return Err(failing),
    };
    write_stimulus(outbox, line, &request);
    outbox.flush();
    if outbox.failed() {
        return Err(Failing::Stopped(LiveStatus::WriteFault));
    }
    match answer_line(alloc, strict, trial, request, source) {
        Ok(()) => Ok(()),
        Err(failing) => Err(failing),
    }
}

/// What a line asks of a device.
fn request_of(alloc: Global, line: &[u8]) -> Result<PortRequest, Failing>
    ensures reads { IfOk result (λ request. ReadsStimulus line.now (Ok request)) }
    ensures fails { IfErr result (λ failing. RequestFails failing line.now) }
{
    let Ok(read) = read_stimulus(alloc, line) else {
        return Err(Failing::Stopped(LiveStatus::NoMemory));
    };
    match read {
        Ok(request) => Ok(request),
        Err(_refusal) => Err(Failing::Misspelled),
    }
}

/// Reads the answer of a line that asks for this, and judges it by the right one.
fn answer_line<S: Source>(
    alloc: Global,
    strict: bool,
    trial: &mut Trial,
    request: PortRequest,
    source: &mut S,
) -> Result<(), Failing>
    ensures port { OnOk result
        (trial.new.port ≡ (asked_answer trial.old.port (Ok request)).stands) }
    ensures right { OnOk result (AnswerPasses strict request
        (asked_answer trial.old.port (Ok request)).text trial.old.judge trial.new.judge
        (S.left source.old) (S.left source.new) trial.old.input trial.new.input) }
    ensures fails { IfErr result (λ failing. AnswerFails strict failing request
        (asked_answer trial.old.port (Ok request)).text trial.old.judge
        (S.left source.old) (S.left source.new) trial.old.input trial.new.input) }
{
    let leeway = leeway_of(&request);
    trial.expected.clear();
    let Ok(()) = expect(
        alloc,
        &mut trial.port,
        request,
        &mut trial.buffer,
        &mut trial.expected,
    ) else {
        return Err(Failing::Stopped(LiveStatus::NoMemory));
    };
    match read_answer(&mut trial.input, source, &mut trial.line, &mut trial.came) {
        Ok(()) => {}
        Err(LineEnd::End) => return Err(Failing::Ended),
        Err(end) => return Err(Failing::Stopped(LiveStatus::from(end))),
    }
    let (right, came) = (trial.expected.as_slice(), trial.came.as_slice());
    match passes(alloc, strict, &mut trial.judge, leeway, right, came) {
        Ok(true) => Ok(()),
        Ok(false) => Err(Failing::Differs),
        Err(NoMemory) => Err(Failing::Stopped(LiveStatus::NoMemory)),
    }
}

/// Whether an answer, to a line that bears so much, passes for the right one.
fn passes(
    alloc: Global,
    strict: bool,
    judge: &mut Judge,
    leeway: Leeway,
    right: &[u8],
    came: &[u8],
) -> Result<bool, NoMemory>
    ensures passes { IfOk result (λ passes. IsTrue passes
        → (request : ARequest) → leeway ≡ leeway_of request
        → PassesAnswer strict request right.now came.now judge.old judge.new) }
    ensures fails { IfOk result (λ passes. IsFalse passes
        → (request : ARequest) → leeway ≡ leeway_of request
        → (next : JudgeState) → ¬ PassesAnswer strict request right.now came.now judge.old next) }
{
    if strict {
        return Ok(is_same(came, right));
    }
    judge.allows(alloc, leeway, right, came)
}

/// Whether two texts are the same.
fn is_same(text: &[u8], other: &[u8]) -> bool
    ensures { IsTrue result ↔ (text.now ≡ other.now) }
{
    text == other
}
