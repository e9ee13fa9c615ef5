//! The top call.
ghost use Rattle.std.specs.Prelude.{◌≡◌, ◌≢◌, ◌≤◌, ◌⊎◌, ◌+◌, length, map, None, MatchOption};
ghost use Rattle.std.specs.String.{string_bytes};
ghost use Rattle.std.specs.Io.KnownBytes.{Appends, Keeps};
ghost use Rattle.rio_chars.specs.Takings.{ConsumesUpTo};
ghost use Rattle.rio_cli.specs.Inputs.{most_input};
ghost use Rattle.rio_cli.specs.declared.command.Command.TheVariants.{Replay, Decode, Check, Enumerate};
ghost use Rattle.rio_cli.specs.declared.status.Status.TheVariants.{Script, Unlawful};
ghost use Rattle.rio_cli.specs.Checking.{lawful_text};
ghost use Rattle.rio_cli.specs.Outputs.{verdict_text};
ghost use Rattle.rio_cli.specs.Answers.{ProgramEnded, Refuses, Answers, SaysOfBytes, SaysOfInput, TellsRefusal, RefusesBytes, RefusesInput};

use crate::accessing::io_bytes;
use crate::answer::CommandAnswer;
use crate::command::{Asked, Command, asked_by};
use crate::contesting::contest_bytes;
use crate::decode::{DecodeEnd, decode_chars};
use crate::numbering::number;
use crate::refusal::Refusal;
use crate::soaking::soak;
use crate::status::Status;
use crate::words::{CharsEnd, read_chars};
use fabric_replay::{ReplayEnd, replay};
use fabric_script::{Name, ScriptEnd, parse, parse_set_up};
use host_enumerate::find_host;
use rio_chars::{NoMemory, ReadEnd, Sink, Source, read_all, write_all};
use script_input::count_lines;
use std::alloc::Global;
use trace_check::{CheckEnd, check_trace};

/// The most bytes of input.
const MOST_INPUT: usize = 4_194_304;

/// Does what the words after the program's name say, and answers how it ended.
///
/// `replay` reads a script from the source and writes its trace to the sink. `decode` reads the
/// characters of a link, as words that spaces and line feeds part, and writes the lines of their
/// reading, each event at the place of the character that completes it, and then `end`, or `end
/// cut` if a symbol or a packet is in progress. `check` reads set-up lines, a line `---` and a
/// trace, and writes `lawful STEPS`, or `unlawful LINE REASON` and answers Unlawful. `enumerate
/// NODE` reads set-up lines, and writes what the node asks and its map, or the device that another
/// host holds and answers Locked. `contest NODE NODE N` reads set-up lines, and writes how both
/// ended and the map of one that is done. `io` reads set-up lines, a line `---` and lines of reads
/// and writes, and writes what became of each. `soak N` reads nothing, and writes what became of
/// the packets of the script that the number stands for. Other words are answered Words, and
/// nothing is read.
///
/// A refusal is one line, and the whole output: `refused words`, `refused length` for more than
/// 4,194,304 bytes of input, `refused LINE REASON` for a script or set-up lines, and `refused LINE
/// 1` for the first line that has a word which is no character. The tests come in this order, and
/// ReadFault between the first two.
pub fn rio<S: Source, K: Sink>(
    alloc: Global,
    words: &[String],
    source: &mut S,
    sink: &mut K,
) -> Status
    ensures { ProgramEnded (map string_bytes words.now) result S.left S.faults source.old source.new
        K.written K.faults sink.old sink.new }
{
    answer(alloc, words, source, sink).status
}

/// Does the same, and answers also which line of the input is refused and why, with a line of text
/// that says so.
pub fn answer<S: Source, K: Sink>(
    alloc: Global,
    words: &[String],
    source: &mut S,
    sink: &mut K,
) -> CommandAnswer
    ensures ended { ProgramEnded (map string_bytes words.now) result.status
        S.left S.faults source.old source.new K.written K.faults sink.old sink.new }
    ensures refuses { Refuses (map string_bytes words.now) result
        (S.left source.old) (S.left source.new) (K.written sink.old) (K.written sink.new) }
{
    match asked_by(words) {
        Some(Asked::Input(command)) => run_input(alloc, command, source, sink),
        Some(Asked::Soak(seed)) => CommandAnswer::ended(soak(alloc, seed, sink)),
        None => CommandAnswer::ended(write_answer(sink, b"refused words\n", Status::Words)),
    }
}

/// Reads the input and does with it what is asked.
fn run_input<S: Source, K: Sink>(
    alloc: Global,
    command: Command,
    source: &mut S,
    sink: &mut K,
) -> CommandAnswer
    ensures says { SaysOfInput command result.status
        (S.left source.old) (S.left source.new) (S.faults source.old) (S.faults source.new)
        (K.written sink.old) (K.faults sink.old) (K.written sink.new) (K.faults sink.new) }
    ensures refuses { RefusesInput command result
        (S.left source.old) (S.left source.new) (K.written sink.old) (K.written sink.new) }
    ensures bounded { ConsumesUpTo (S.left source.old) (S.left source.new) (most_input + 1) }
    ensures source { S.faults source.old ≤ S.faults source.new }
    ensures sink { K.faults sink.old ≤ K.faults sink.new }
    ensures reads { result.status ≢ Status.ReadFault → S.faults source.new ≡ S.faults source.old }
    ensures writes { result.status ≢ Status.WriteFault → K.faults sink.new ≡ K.faults sink.old }
{
    match read_all(alloc, source, MOST_INPUT) {
        Ok(bytes) => run_bytes(alloc, command, bytes.as_slice(), sink),
        Err(ReadEnd::Fault) => CommandAnswer::ended(Status::ReadFault),
        Err(ReadEnd::TooLong) => {
            CommandAnswer::ended(write_answer(sink, b"refused length\n", Status::TooLong))
        }
        Err(ReadEnd::NoMemory) => CommandAnswer::ended(Status::NoMemory),
    }
}

/// Does with the bytes what is asked.
fn run_bytes<K: Sink>(alloc: Global, command: Command, bytes: &[u8], sink: &mut K) -> CommandAnswer
    requires { length bytes.now ≤ most_input }
    ensures says { SaysOfBytes command result.status bytes.now
        (K.written sink.old) (K.faults sink.old) (K.written sink.new) (K.faults sink.new) }
    ensures refuses { RefusesBytes command result bytes.now
        (K.written sink.old) (K.written sink.new) }
    ensures sink { K.faults sink.old ≤ K.faults sink.new }
    ensures writes { result.status ≢ Status.WriteFault → K.faults sink.new ≡ K.faults sink.old }
{
    match command {
        Command::Replay => replay_bytes(alloc, bytes, sink),
        Command::Decode => decode_bytes(alloc, bytes, sink),
        Command::Check => check_bytes(alloc, bytes, sink),
        Command::Io => io_bytes(alloc, bytes, sink),
        Command::Enumerate(node) => enumerate_bytes(alloc, node, bytes, sink),
        Command::Contest {
            first,
            second,
            seed,
        } => contest_bytes(alloc, first, second, seed, bytes, sink),
    }
}

/// Replays the script that the bytes spell.
fn replay_bytes<K: Sink>(alloc: Global, bytes: &[u8], sink: &mut K) -> CommandAnswer
    requires { length bytes.now ≤ most_input }
    ensures says { SaysOfBytes Replay result.status bytes.now
        (K.written sink.old) (K.faults sink.old) (K.written sink.new) (K.faults sink.new) }
    ensures refuses { RefusesBytes Replay result bytes.now
        (K.written sink.old) (K.written sink.new) }
    ensures sink { K.faults sink.old ≤ K.faults sink.new }
    ensures writes { result.status ≢ Status.WriteFault → K.faults sink.new ≡ K.faults sink.old }
{
    let script = match parse(alloc, bytes) {
        Ok(script) => script,
        Err(ScriptEnd::Refused(refusal)) => {
            let command = Command::Replay;
            return refuse_line(alloc, command, bytes, refusal.line, refusal.reason, sink);
        }
        Err(ScriptEnd::NoMemory) => return CommandAnswer::ended(Status::NoMemory),
    };
    match replay(alloc, &script, sink) {
        Ok(()) => CommandAnswer::ended(Status::Done),
        Err(ReplayEnd::Undetected { .. }) => CommandAnswer::ended(Status::Undetected),
        Err(ReplayEnd::WriteFault) => CommandAnswer::ended(Status::WriteFault),
        Err(ReplayEnd::NoMemory) => CommandAnswer::ended(Status::NoMemory),
    }
}

/// Reads the characters that the words of the bytes are, and writes the lines of their reading.
fn decode_bytes<K: Sink>(alloc: Global, bytes: &[u8], sink: &mut K) -> CommandAnswer
    requires { length bytes.now ≤ most_input }
    ensures says { SaysOfBytes Decode result.status bytes.now
        (K.written sink.old) (K.faults sink.old) (K.written sink.new) (K.faults sink.new) }
    ensures refuses { RefusesBytes Decode result bytes.now
        (K.written sink.old) (K.written sink.new) }
    ensures sink { K.faults sink.old ≤ K.faults sink.new }
    ensures writes { result.status ≢ Status.WriteFault → K.faults sink.new ≡ K.faults sink.old }
{
    match read_chars(alloc, bytes) {
        Ok(chars) => match decode_chars(alloc, chars.as_slice(), sink) {
            Ok(()) => CommandAnswer::ended(Status::Done),
            Err(DecodeEnd::WriteFault) => CommandAnswer::ended(Status::WriteFault),
            Err(DecodeEnd::NoMemory) => CommandAnswer::ended(Status::NoMemory),
        },
        Err(CharsEnd::BadWord(line)) => {
            refuse_line(alloc, Command::Decode, bytes, line, 1, sink)
        }
        Err(CharsEnd::NoMemory) => CommandAnswer::ended(Status::NoMemory),
    }
}

/// Checks the trace that the bytes are, behind its set-up lines.
fn check_bytes<K: Sink>(alloc: Global, bytes: &[u8], sink: &mut K) -> CommandAnswer
    requires { length bytes.now ≤ most_input }
    ensures says { SaysOfBytes Check result.status bytes.now
        (K.written sink.old) (K.faults sink.old) (K.written sink.new) (K.faults sink.new) }
    ensures refuses { RefusesBytes Check result bytes.now
        (K.written sink.old) (K.written sink.new) }
    ensures sink { K.faults sink.old ≤ K.faults sink.new }
    ensures writes { result.status ≢ Status.WriteFault → K.faults sink.new ≡ K.faults sink.old }
{
    let command = Command::Check;
    match check_trace(alloc, bytes) {
        Ok(steps) => tell_lawful(alloc, steps, sink),
        Err(CheckEnd::Refused(refusal)) => {
            refuse_line(alloc, command, bytes, refusal.line, refusal.reason, sink)
        }
        Err(CheckEnd::Unlawful(unlawful)) => {
            condemn_line(alloc, command, bytes, unlawful.line, unlawful.reason, sink)
        }
        Err(CheckEnd::NoMemory) => CommandAnswer::ended(Status::NoMemory),
    }
}

/// Lets the node of a name number the fabric of the set-up lines that the bytes spell.
fn enumerate_bytes<K: Sink>(alloc: Global, node: Name, bytes: &[u8], sink: &mut K) -> CommandAnswer
    requires { length bytes.now ≤ most_input }
    ensures says { SaysOfBytes (Enumerate node) result.status bytes.now
        (K.written sink.old) (K.faults sink.old) (K.written sink.new) (K.faults sink.new) }
    ensures refuses { RefusesBytes (Enumerate node) result bytes.now
        (K.written sink.old) (K.written sink.new) }
    ensures sink { K.faults sink.old ≤ K.faults sink.new }
    ensures writes { result.status ≢ Status.WriteFault → K.faults sink.new ≡ K.faults sink.old }
{
    let script = match parse_set_up(alloc, bytes) {
        Ok(script) => script,
        Err(ScriptEnd::Refused(refusal)) => {
            let command = Command::Enumerate(node);
            return refuse_line(alloc, command, bytes, refusal.line, refusal.reason, sink);
        }
        Err(ScriptEnd::NoMemory) => return CommandAnswer::ended(Status::NoMemory),
    };
    match find_host(alloc, &script, node.as_slice()) {
        Ok(Ok(host)) => CommandAnswer::ended(number(alloc, &script, host, sink)),
        Ok(Err(end)) => {
            let command = Command::Enumerate(node);
            let line = count_lines(bytes) + 1;
            refuse_line(alloc, command, bytes, line, end.reason().number(), sink)
        }
        Err(NoMemory) => CommandAnswer::ended(Status::NoMemory),
    }
}

/// Writes how many steps a lawful trace has.
fn tell_lawful<K: Sink>(alloc: Global, steps: u32, sink: &mut K) -> CommandAnswer
    ensures lawful { Answers result.status Status.Done (lawful_text steps)
        (K.written sink.old) (K.faults sink.old) (K.written sink.new) (K.faults sink.new)
        ⊎ ((result.status ≡ Status.NoMemory) × Keeps (K.written sink.old) (K.written sink.new)) }
    ensures sink { K.faults sink.old ≤ K.faults sink.new }
    ensures writes { result.status ≢ Status.WriteFault → K.faults sink.new ≡ K.faults sink.old }
    ensures no_refusal { result.refusal ≡ None }
{
    let Ok(text) = format!(in alloc; "lawful {steps}\n") else {
        return CommandAnswer::ended(Status::NoMemory);
    };
    CommandAnswer::ended(write_answer(sink, text.as_bytes(), Status::Done))
}

/// Writes the line of a trace that is not lawful and answers it.
fn condemn_line<K: Sink>(
    alloc: Global,
    command: Command,
    bytes: &[u8],
    line: u32,
    reason: u8,
    sink: &mut K,
) -> CommandAnswer
    requires { length bytes.now ≤ most_input }
    ensures unlawful { Answers result.status Status.Unlawful (verdict_text Unlawful line reason)
        (K.written sink.old) (K.faults sink.old) (K.written sink.new) (K.faults sink.new)
        ⊎ ((result.status ≡ Status.NoMemory) × Keeps (K.written sink.old) (K.written sink.new)) }
    ensures sink { K.faults sink.old ≤ K.faults sink.new }
    ensures writes { result.status ≢ Status.WriteFault → K.faults sink.new ≡ K.faults sink.old }
    ensures refusal { TellsRefusal Unlawful command bytes.now line reason result
        (K.written sink.old) (K.written sink.new) }
{
    let Ok(refusal) = Refusal::new(alloc, command, bytes, line, reason) else {
        return CommandAnswer::ended(Status::NoMemory);
    };
    let Ok(text) = format!(in alloc; "unlawful {line} {reason}\n") else {
        return CommandAnswer::ended(Status::NoMemory);
    };
    tell_refusal(refusal, Status::Unlawful, text.as_bytes(), sink)
}

/// Writes the line of a refusal and answers it.
pub(crate) fn refuse_line<K: Sink>(
    alloc: Global,
    command: Command,
    bytes: &[u8],
    line: u32,
    reason: u8,
    sink: &mut K,
) -> CommandAnswer
    requires { length bytes.now ≤ most_input }
    ensures refused { Answers result.status Status.Script (verdict_text Script line reason)
        (K.written sink.old) (K.faults sink.old) (K.written sink.new) (K.faults sink.new)
        ⊎ ((result.status ≡ Status.NoMemory) × Keeps (K.written sink.old) (K.written sink.new)) }
    ensures sink { K.faults sink.old ≤ K.faults sink.new }
    ensures writes { result.status ≢ Status.WriteFault → K.faults sink.new ≡ K.faults sink.old }
    ensures refusal { TellsRefusal Script command bytes.now line reason result
        (K.written sink.old) (K.written sink.new) }
{
    let Ok(refusal) = Refusal::new(alloc, command, bytes, line, reason) else {
        return CommandAnswer::ended(Status::NoMemory);
    };
    let Ok(text) = format!(in alloc; "refused {line} {reason}\n") else {
        return CommandAnswer::ended(Status::NoMemory);
    };
    tell_refusal(refusal, Status::Script, text.as_bytes(), sink)
}

/// Writes the line of a refusal and answers it with this status.
fn tell_refusal<K: Sink>(
    refusal: Refusal,
    status: Status,
    text: &[u8],
    sink: &mut K,
) -> CommandAnswer
    ensures answers { Answers result.status status text.now
        (K.written sink.old) (K.faults sink.old) (K.written sink.new) (K.faults sink.new) }
    ensures sink { K.faults sink.old ≤ K.faults sink.new }
    ensures writes { result.status ≢ Status.WriteFault → K.faults sink.new ≡ K.faults sink.old }
    ensures told { MatchOption result.refusal (result.status ≡ Status.WriteFault)
        (λ told. (result.status ≡ status) × (told ≡ refusal)
        × Appends (K.written sink.old) (K.written sink.new) text.now) }
{
    match write_all(sink, text) {
        Ok(()) => CommandAnswer {
            status,
            refusal: Some(refusal),
        },
        Err(_) => CommandAnswer::ended(Status::WriteFault),
    }
}

/// Writes the text of an answer and answers its status, or WriteFault if it cannot be written.
pub(crate) fn write_answer<K: Sink>(sink: &mut K, text: &[u8], status: Status) -> Status
    ensures answers { Answers result status text.now
        (K.written sink.old) (K.faults sink.old) (K.written sink.new) (K.faults sink.new) }
    ensures sink { K.faults sink.old ≤ K.faults sink.new }
    ensures writes { result ≢ Status.WriteFault → K.faults sink.new ≡ K.faults sink.old }
{
    match write_all(sink, text) {
        Ok(()) => status,
        Err(_) => Status::WriteFault,
    }
}
