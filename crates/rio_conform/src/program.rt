//! The whole program, but for where its words and its streams come from.
ghost use Rattle.std.specs.Prelude.{◌≡◌, ◌≤◌, ◌↔◌, IsTrue, Bool, false, codes, map, MatchOption, IfSome, ℕ};
ghost use Rattle.std.specs.String.{string_bytes};
ghost use Rattle.rio_chars.specs.Unless.{WritesUnless};
ghost use Rattle.rio_conform.specs.Program.{ConformRan, ConformDid, AsksNoPlay, AsksPlain, AsksPlay, PlayAsked, play_asked};
ghost use Rattle.rio_conform.specs.Report.{HasDetails, report_text};

use crate::playing::play;
use crate::verdict::{Verdict, status_of, verdict_number, verdict_word};
use live_lines::{LiveStatus, say, tell_question};
use port_lines::number_of_buffers;
use program_start::{Given, question_of};
use rio_chars::{Sink, Source, write_unless};
use std::alloc::Global;

/// How the program is used, in a line.
const USAGE: &[u8] = b"usage: rio_conform [--strict] BUFFERS NAME LINE .., with 4 to 30 buffers\n";

/// The same on several lines.
const HELP: &[u8] = b"usage: rio_conform [--strict] BUFFERS NAME LINE .. < ANSWERS > LINES 2> REPORT

Asks a device the lines of a scenario, and says whether it answered each as a port
with 4 to 30 receive buffers does: with --strict byte for byte, and else but for
status symbols, idles, causes, port status, and what comes at most 8 turns late. A
line is one of rio_port, or puts characters on the wire:

accepted ACK FREE             a control symbol, and so retry, not-accepted, status,
                              response, start, stomp, end, restart, request, reset
                              and multicast; ACK and FREE may be left out
packet ACK send PRIO ..       a packet; spoiled has a wrong bit
part FROM TO ACK send ..      some of its bytes
data HEX                      bytes

docs/conformance.md has the form of a scenario, and docs/live.md that of the other
lines.
";

/// Plays the lines of a scenario as the words behind the program's name say, and answers the exit
/// status. `--help` and `--version` are answered. The report goes to `messages`. If it cannot be
/// written, the status is the same.
pub fn run<S: Source, K: Sink, M: Sink>(given: &mut Given<S, K, M>) -> u8
    ensures { ConformRan (map string_bytes given.old.words.now) result
        S.left given.old.source given.new.source
        K.written K.faults given.old.sink given.new.sink
        M.written M.faults given.old.messages given.new.messages }
{
    let mut details = Vec::new(given.alloc);
    let (name, verdict) = serve_words(
        given.alloc,
        given.words,
        &mut given.source,
        &mut given.sink,
        &mut details,
    );
    report(&mut given.messages, name, verdict, details.as_slice());
    verdict_number(verdict)
}

/// Plays the lines that the words have, or answers what else they ask. The name of the scenario is
/// told, too.
fn serve_words<'a, S: Source, K: Sink>(
    alloc: Global,
    words: &'a [String],
    source: &mut S,
    sink: &mut K,
    details: &mut Vec<u8>,
) -> (&'a [u8], Verdict)
    ensures did { ConformDid (map string_bytes words.now) result.0.now result.1
        (S.left source.old) (S.left source.new) (K.written sink.old) (K.written sink.new)
        (K.faults sink.old) (K.faults sink.new) }
    ensures details { HasDetails result.1 details.old.items details.new.items }
{
    if let Some(question) = question_of(words) {
        let status = tell_question(sink, b"rio_conform", HELP, question);
        return (b"", Verdict::Stopped(status));
    }
    let Some(asked) = read_asked(words) else {
        return (b"", Verdict::Stopped(LiveStatus::Words));
    };
    let verdict = play(
        alloc,
        asked.strict,
        asked.buffers,
        asked.lines,
        source,
        sink,
        details,
    );
    (asked.name, verdict)
}

/// Writes the report: a line of the verdict, and what there is to tell besides.
fn report<M: Sink>(messages: &mut M, name: &[u8], verdict: Verdict, details: &[u8])
    ensures { (failed : Bool) × WritesUnless false (M.written messages.old) (M.faults messages.old)
        failed (M.written messages.new) (M.faults messages.new)
        (report_text verdict name.now details.now) }
{
    if let Some(status) = status_of(verdict) {
        say(messages, b"rio_conform: ", USAGE, status);
        return;
    }
    let failed = write_unless(false, messages, verdict_word(verdict));
    let failed = write_unless(failed, messages, name);
    let failed = write_unless(failed, messages, b"\n");
    write_unless(failed, messages, details);
}

/// What words ask for.
#[derive(Debug, Drop)]
pub(crate) struct Asked<'a> {
    strict: bool,
    buffers: u8,
    name: &'a [u8],
    lines: &'a [String],
}

/// What the words ask for, if it is a scenario.
pub(crate) fn read_asked(words: &[String]) -> Option<Asked>
    ensures asks { MatchOption result (AsksNoPlay (map string_bytes words.now))
        (λ asked. AsksPlay (map string_bytes words.now) (play_asked asked)) }
    ensures least { IfSome result (λ asked. 4 ≤ asked.buffers) }
    ensures most { IfSome result (λ asked. asked.buffers ≤ 30) }
{
    match words {
        [first, rest @ ..] if is_strict(first) => read_plain(true, rest),
        _ => read_plain(false, words),
    }
}

/// Whether a word is `--strict`.
fn is_strict(word: &String) -> bool
    ensures { IsTrue result ↔ (string_bytes word.now ≡ codes "--strict") }
{
    word.as_str().as_bytes() == b"--strict".as_slice()
}

/// The scenario that words have, without the word `--strict`.
fn read_plain(strict: bool, words: &[String]) -> Option<Asked>
    ensures asks { MatchOption result
        ((asked : PlayAsked) → ¬ AsksPlain (map string_bytes words.now) asked)
        (λ asked. AsksPlain (map string_bytes words.now) (play_asked asked)
        × (asked.strict ≡ strict)) }
    ensures least { IfSome result (λ asked. 4 ≤ asked.buffers) }
    ensures most { IfSome result (λ asked. asked.buffers ≤ 30) }
{
    let [word, name, lines @ ..] = words else {
        return None;
    };
    let buffers = number_of_buffers(word.as_str().as_bytes())?;
    Some(Asked {
        strict,
        buffers,
        name: name.as_str().as_bytes(),
        lines,
    })
}
