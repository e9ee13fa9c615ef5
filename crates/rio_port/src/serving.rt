//! A port that answers line by line.
ghost use Rattle.std.specs.Prelude.{◌≡◌, ◌≤◌, [], false, IfOk, OnOk, OnErr};
ghost use Rattle.rio_chars.specs.Written.{Writes};
ghost use Rattle.live_lines.specs.declared.status.LiveStatus.TheVariants as Status;
ghost use Rattle.port_lines.specs.Lines.{AnswersLine, asked_answer};
ghost use Rattle.port_lines.specs.Answers.{ClockedAnswer};
ghost use Rattle.port_lines.specs.Clocks.{new_clocked};
ghost use Rattle.rio_port.specs.Logs.{AddsLog, KeepsAll};
ghost use Rattle.rio_port.specs.Program.{ServesFrom};

use crate::log::{Log, LogWords};
use live_lines::{LineReader, LiveStatus};
use port_lines::{ClockedPort, PortRequest, PortSettings, RequestRefusal, answer, read_request};
use rio_chars::{NoMemory, Outbox, Sink, Source, TextBuffer, TextSink};
use std::alloc::Global;

/// How lines were served.
#[derive(Clone, Copy, Debug)]
pub struct Served {
    pub status: LiveStatus,
    /// Whether a write of the log failed.
    pub failed: bool,
}

/// What a port needs to be served: itself, what was read, room for what is written, and its log.
#[derive(Drop)]
struct Desk {
    port: ClockedPort,
    input: LineReader,
    buffer: TextBuffer,
    log: Log,
}

impl Desk {
    /// A port that is made so, before the first line. A log of a device and the port by these names
    /// is begun, if one is asked for.
    fn new(alloc: Global, settings: PortSettings, logs: LogWords) -> Result<Desk, NoMemory>
        requires least { 4 ≤ settings.buffers }
        requires most { settings.buffers ≤ 30 }
        ensures port { IfOk result (λ desk. desk.port ≡ new_clocked settings) }
        ensures input { IfOk result (λ desk. desk.input ≡ []) }
        ensures asked { IfOk result (λ desk. desk.log.is_asked ≡ logs.entry.is_asked) }
        ensures fine { IfOk result (λ desk. desk.log.failed ≡ false) }
    {
        let buffers = settings.buffers;
        Ok(Desk {
            port: ClockedPort::new(alloc, settings)?,
            input: LineReader::new(alloc)?,
            buffer: TextBuffer::new(alloc)?,
            log: Log::new(alloc, logs, buffers)?,
        })
    }
}

/// Reads lines, and answers each before the next is asked for, with a port that is made so, of 4 to
/// 30 buffers. A log of a device and the port by these names is written to `messages`, if one is
/// asked for.
pub fn serve<S: Source, K: Sink, M: Sink>(
    alloc: Global,
    settings: PortSettings,
    logs: LogWords,
    source: &mut S,
    sink: &mut K,
    messages: &mut M,
) -> Served
    requires least { 4 ≤ settings.buffers }
    requires most { settings.buffers ≤ 30 }
    ensures serves { ServesFrom (new_clocked settings) result.status (S.left source.old)
        (S.left source.new)
        (S.faults source.old) (S.faults source.new) (K.written sink.old) (K.written sink.new)
        (K.faults sink.old) (K.faults sink.new) }
    ensures logs { AddsLog logs.entry.is_asked (M.written messages.old) (M.faults messages.old)
        false (M.written messages.new) (M.faults messages.new) result.failed }
{
    let Ok(desk) = Desk::new(alloc, settings, logs) else {
        return Served::without_memory();
    };
    let Desk {
        mut port,
        mut input,
        mut buffer,
        mut log,
    } = desk;
    log.write(messages);
    let mut outbox = Outbox::new(&mut buffer, sink);
    let (port, input) = (&mut port, &mut input);
    let status = serve_lines(alloc, port, input, &mut log, source, &mut outbox, messages);
    outbox.into_sink();
    log.end(status);
    log.write(messages);
    let failed = log.failed;
    Served { status, failed }
}

impl Served {
    /// There is no memory for a port.
    fn without_memory() -> Served
        ensures status { result.status ≡ Status.NoMemory }
        ensures failed { result.failed ≡ false }
    {
        Served {
            status: LiveStatus::NoMemory,
            failed: false,
        }
    }
}

/// Reads lines, and answers each before the next is asked for.
fn serve_lines<S: Source, K: Sink, M: Sink>(
    alloc: Global,
    port: &mut ClockedPort,
    input: &mut LineReader,
    log: &mut Log,
    source: &mut S,
    outbox: &mut Outbox<K>,
    messages: &mut M,
) -> LiveStatus
    requires input { input.old ≡ [] }
    requires fine { outbox.old.failed ≡ false }
    requires empty { outbox.old.waiting ≡ [] }
    ensures same { outbox.new.sink ≡ outbox.old.sink }
    ensures serves { ServesFrom port.old result (S.left source.old) (S.left source.new)
        (S.faults source.old) (S.faults source.new)
        outbox.old.written outbox.new.written outbox.old.faults outbox.new.faults }
    ensures logs { AddsLog log.old.is_asked (M.written messages.old) (M.faults messages.old)
        log.old.failed (M.written messages.new) (M.faults messages.new) log.new.failed }
    ensures asked { log.new.is_asked ≡ log.old.is_asked }
{
    let mut line = Vec::new(alloc);
    let mut count = 0u64;
    while count < u64::MAX {
        if let Err(end) = input.read_line(source, &mut line) {
            return LiveStatus::from(end);
        }
        let Ok(()) = answer_line(alloc, port, line.as_slice(), log, outbox, messages) else {
            return LiveStatus::NoMemory;
        };
        if outbox.failed() {
            return LiveStatus::WriteFault;
        }
        count += 1;
    }
    LiveStatus::Done
}

/// Answers a line, and writes all of the answer, and then its log, unless a write fails. Where
/// memory is not given, nothing is written.
fn answer_line<K: Sink, M: Sink>(
    alloc: Global,
    port: &mut ClockedPort,
    line: &[u8],
    log: &mut Log,
    outbox: &mut Outbox<K>,
    messages: &mut M,
) -> Result<(), NoMemory>
    ensures answer { OnOk result ((answer : ClockedAnswer) × AnswersLine port.old line.now answer
        × (port.new ≡ answer.stands)
        × Writes outbox.old outbox.new answer.text) }
    ensures written { OnOk result (outbox.new.waiting ≡ []) }
    ensures outbox { OnErr result (outbox.new ≡ outbox.old) }
    ensures logs { AddsLog log.old.is_asked (M.written messages.old) (M.faults messages.old)
        log.old.failed (M.written messages.new) (M.faults messages.new) log.new.failed }
    ensures asked { log.new.is_asked ≡ log.old.is_asked }
{
    if !log.is_asked {
        return answer_plain(alloc, port, line, outbox);
    }
    let asked = read_request(alloc, line)?;
    keep_answer(alloc, port, asked, &mut log.buffer, &mut log.kept)?;
    log.make(line)?;
    outbox.write(log.kept.as_slice());
    outbox.flush();
    log.write(messages);
    Ok(())
}

/// Asks a port, and keeps its answer. If memory is not given, the port may have been asked.
fn keep_answer(
    alloc: Global,
    port: &mut ClockedPort,
    asked: Result<PortRequest, RequestRefusal>,
    buffer: &mut TextBuffer,
    kept: &mut TextSink,
) -> Result<(), NoMemory>
    ensures port { OnOk result (port.new ≡ (asked_answer port.old asked).stands) }
    ensures text { OnOk result (kept.new.text.items ≡ (asked_answer port.old asked).text) }
{
    kept.clear();
    let mut outbox = Outbox::new(buffer, kept);
    let told = tell(alloc, port, asked, &mut outbox);
    outbox.into_sink();
    if told? {
        return Err(NoMemory);
    }
    Ok(())
}

/// The same through an outbox, and whether a write failed.
fn tell<K: Sink>(
    alloc: Global,
    port: &mut ClockedPort,
    asked: Result<PortRequest, RequestRefusal>,
    outbox: &mut Outbox<K>,
) -> Result<bool, NoMemory>
    requires { outbox.old.waiting ≡ [] }
    ensures port { OnOk result (port.new ≡ (asked_answer port.old asked).stands) }
    ensures text { IfOk result (λ failed. KeepsAll failed outbox.old.written outbox.new.written
        (asked_answer port.old asked).text) }
    ensures same { outbox.new.sink ≡ outbox.old.sink }
{
    answer(alloc, port, asked, outbox)?;
    outbox.flush();
    Ok(outbox.failed())
}

/// Answers a line, and writes all of the answer unless a write fails. Where memory is not given,
/// nothing is done.
fn answer_plain<K: Sink>(
    alloc: Global,
    port: &mut ClockedPort,
    line: &[u8],
    outbox: &mut Outbox<K>,
) -> Result<(), NoMemory>
    ensures answer { OnOk result ((answer : ClockedAnswer) × AnswersLine port.old line.now answer
        × (port.new ≡ answer.stands)
        × Writes outbox.old outbox.new answer.text) }
    ensures written { OnOk result (outbox.new.waiting ≡ []) }
    ensures port { OnErr result (port.new ≡ port.old) }
    ensures outbox { OnErr result (outbox.new ≡ outbox.old) }
{
    let asked = read_request(alloc, line)?;
    answer(alloc, port, asked, outbox)?;
    outbox.flush();
    Ok(())
}
