//! A fabric that answers line by line.
ghost use Rattle.std.specs.Prelude.{◌≡◌, [], false, IfOk, OnErr, codes, if◌then◌else◌};
ghost use Rattle.rio_chars.specs.Written.{Writes};
ghost use Rattle.live_lines.specs.declared.status.LiveStatus.TheVariants as ends_with;
ghost use Rattle.live_fabric.specs.Sessions.{SessionHeld, nothing_held, SessionHolds, SessionAnswered, SessionBreaks};
ghost use Rattle.rio_live.specs.Ending.{LinesStopped};
ghost use Rattle.rio_live.specs.Program.{LiveServes};

use live_fabric::{AfterLine, BrokenOff, Session};
use live_lines::{LineEnd, LineReader, LiveStatus};
use rio_chars::{Outbox, Sink, Source, TextBuffer};
use std::alloc::Global;
use trace_lines::{PacketCounts, TraceWriter};

/// Reads lines, and answers each before the next is asked for. At the end of input the last line of
/// the trace is written.
pub fn serve<S: Source, K: Sink>(alloc: Global, source: &mut S, sink: &mut K) -> LiveStatus
    ensures { LiveServes result (S.left source.old) (S.left source.new) (S.faults source.old)
        (S.faults source.new) (K.written sink.old) (K.written sink.new) (K.faults sink.old)
        (K.faults sink.new) }
{
    let Ok(mut session) = Session::new(alloc) else {
        return LiveStatus::NoMemory;
    };
    let Ok(mut input) = LineReader::new(alloc) else {
        return LiveStatus::NoMemory;
    };
    let Ok(mut buffer) = TextBuffer::new(alloc) else {
        return LiveStatus::NoMemory;
    };
    let mut outbox = Outbox::new(&mut buffer, sink);
    let status = serve_lines(alloc, &mut session, &mut input, source, &mut outbox);
    outbox.into_sink();
    status
}

/// Reads lines, and answers each before the next is asked for.
fn serve_lines<S: Source, K: Sink>(
    alloc: Global,
    session: &mut Session,
    input: &mut LineReader,
    source: &mut S,
    outbox: &mut Outbox<K>,
) -> LiveStatus
    requires holds { SessionHolds session.old nothing_held }
    requires input { input.old ≡ [] }
    requires fine { outbox.old.failed ≡ false }
    requires empty { outbox.old.waiting ≡ [] }
    ensures same { outbox.new.sink ≡ outbox.old.sink }
    ensures serves { LiveServes result (S.left source.old) (S.left source.new) (S.faults source.old)
        (S.faults source.new) outbox.old.written outbox.new.written outbox.old.faults
        outbox.new.faults }
{
    let mut line = Vec::new(alloc);
    let mut number = 0u32;
    while number < u32::MAX {
        if let Err(end) = input.read_line(source, &mut line) {
            return end_lines(end, outbox);
        }
        number += 1;
        let answered = answer_line(alloc, session, number, line.as_slice(), outbox);
        if outbox.failed() {
            return LiveStatus::WriteFault;
        }
        match answered {
            Ok(AfterLine::On) => {}
            Ok(AfterLine::Undetected) => return LiveStatus::Undetected,
            // No write failed, so memory ran out.
            Err(BrokenOff) => return LiveStatus::NoMemory,
        }
    }
    end_trace(outbox)
}

/// Answers a line, and writes what there is of the answer unless a write fails.
fn answer_line<K: Sink>(
    alloc: Global,
    session: &mut Session,
    number: u32,
    line: &[u8],
    outbox: &mut Outbox<K>,
) -> Result<AfterLine, BrokenOff>
    requires { (held : SessionHeld) × SessionHolds session.old held }
    ensures answered { IfOk result (λ going. (held : SessionHeld) → SessionHolds session.old held
        → SessionAnswered held number line.now outbox.old outbox.new session.new going) }
    ensures breaks { OnErr result ((held : SessionHeld) → SessionHolds session.old held
        → SessionBreaks held number line.now outbox.old outbox.new) }
    ensures empty { outbox.new.waiting ≡ [] }
    ensures same { outbox.new.sink ≡ outbox.old.sink }
{
    let answered = session.answer(alloc, number, line, outbox);
    outbox.flush();
    answered
}

/// Ends where there is no further line: the last line of the trace is written if the input ended.
fn end_lines<K: Sink>(end: LineEnd, outbox: &mut Outbox<K>) -> LiveStatus
    ensures stopped { LinesStopped end outbox.old outbox.new result }
    ensures same { outbox.new.sink ≡ outbox.old.sink }
{
    match end {
        LineEnd::End => end_trace(outbox),
        LineEnd::Fault | LineEnd::TooLong | LineEnd::NoMemory => LiveStatus::from(end),
    }
}

/// Writes the last line of the trace, and answers how the program ends.
fn end_trace<K: Sink>(outbox: &mut Outbox<K>) -> LiveStatus
    ensures written { Writes outbox.old outbox.new (codes "end\n") }
    ensures empty { outbox.new.waiting ≡ [] }
    ensures status { result ≡ (if outbox.new.failed then ends_with.WriteFault else ends_with.Done) }
{
    let mut writer = TraceWriter {
        outbox,
        names: &[],
        counts: PacketCounts::new(),
    };
    writer.write_end();
    outbox.flush();
    if outbox.failed() {
        LiveStatus::WriteFault
    } else {
        LiveStatus::Done
    }
}
