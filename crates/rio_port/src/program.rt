//! The whole program, but for where its words and its streams come from.
ghost use Rattle.std.specs.Prelude.{◌≢◌, ◌≡◌, ◌≤◌, ◌∷◌, [], map, MatchOption, IfSome, codes, true, false, ℕ};
ghost use Rattle.std.specs.Fmt.{decimal};
ghost use Rattle.std.specs.String.{string_bytes};
ghost use Rattle.port_lines.specs.declared.settings.PortSettings.{PortSettings as Settings};
ghost use Rattle.rio_chars.specs.Unless.{WritesUnless};
ghost use Rattle.live_lines.specs.Statuses.{message_of};
ghost use Rattle.rio_port.specs.Logs.{AskLog, IsUnlogged, SaysLog};
ghost use Rattle.rio_port.specs.Program.{port_usage, PortRan, PortDid, AskSettings, AskClocks, AskPatience, SplitsBuffers, SplitsTaking};

use crate::log::LogWords;
use crate::serving::{Served, serve};
use fabric_script::read_number;
use live_lines::{LiveStatus, say, status_number, tell_question};
use port_lines::{PortSettings, number_of_buffers};
use program_start::{Given, question_of};
use rio_chars::{Sink, Source};
use std::alloc::Global;

/// The buffers of a port for which no number is said.
const BUFFERS: u8 = 8;

/// The most clocks without an answer.
const MOST_CLOCKS: u32 = 1_000_000;

/// How the program is used, in a line.
const USAGE: &[u8] = b"usage: rio_port [--log A B] [BUFFERS] [--take] [--timeout CLOCKS], \
with 4 to 30 buffers and 1 to 1000000 clocks\n";

/// The same on several lines.
const HELP: &[u8] = b"usage: rio_port [--log A B] [BUFFERS] [--take] [--timeout CLOCKS] < LINES

One end of a link, with 4 to 30 receive buffers, or 8. Each line is answered before the
next is read. An answer ends with the line ok.

--log A B                             a log of both ends on standard error
--take                                a packet that is held is given out at once
--timeout CLOCKS                      so many clocks without an answer are too long

got CHARS                             characters come from its wire
clock CHARS                           in each clock a character comes and one is given
turn N                                N turns to send a packet or a symbol
timeout                               it has waited too long for an answer
send PRIO FTYPE SOURCE DEST HEX       a packet is to be sent; send16 has IDs of 16 bits
take                                  the next held packet is given out
state                                 its state is told
reset                                 it becomes new

docs/live.md says what is answered, and docs/characters.md how characters are written.
";

/// Serves a port that is made as the words behind the program's name say, and answers the exit
/// status. `--help` and `--version` are answered. What there is to say of the end is said in
/// one line to `messages`. A line that cannot be said changes nothing.
pub fn run<S: Source, K: Sink, M: Sink>(given: &mut Given<S, K, M>) -> u8
    ensures { PortRan (map string_bytes given.old.words.now) result
        S.left S.faults given.old.source given.new.source
        K.written K.faults given.old.sink given.new.sink
        M.written M.faults given.old.messages given.new.messages }
{
    let Served { status, failed } = serve_words(
        given.alloc,
        given.words,
        &mut given.source,
        &mut given.sink,
        &mut given.messages,
    );
    say_unless(failed, &mut given.messages, status);
    status_number(status)
}

/// Says what there is to say of a status, unless a write has failed, and answers whether one has.
fn say_unless<M: Sink>(failed: bool, messages: &mut M, status: LiveStatus) -> bool
    ensures { WritesUnless failed (M.written messages.old) (M.faults messages.old) result
        (M.written messages.new) (M.faults messages.new)
        (message_of (codes "rio_port: ") port_usage status) }
{
    if failed {
        return true;
    }
    say(messages, b"rio_port: ", USAGE, status)
}

/// Serves a port that is made as the words ask, or answers what else they ask.
fn serve_words<S: Source, K: Sink, M: Sink>(
    alloc: Global,
    words: &[String],
    source: &mut S,
    sink: &mut K,
    messages: &mut M,
) -> Served
    ensures did { PortDid (map string_bytes words.now) result.status (S.left source.old)
        (S.left source.new)
        (S.faults source.old) (S.faults source.new) (K.written sink.old) (K.written sink.new)
        (K.faults sink.old) (K.faults sink.new) }
    ensures says { SaysLog (map string_bytes words.now) (M.written messages.old)
        (M.faults messages.old) (M.written messages.new) (M.faults messages.new) result.failed }
{
    if let Some(question) = question_of(words) {
        return unlogged(tell_question(sink, b"rio_port", HELP, question));
    }
    let logs = split_log(words);
    match settings_of(logs.rest) {
        Some(settings) => serve(alloc, settings, logs, source, sink, messages),
        None => unlogged(LiveStatus::Words),
    }
}

/// Nothing was logged.
fn unlogged(status: LiveStatus) -> Served
    ensures status { result.status ≡ status }
    ensures failed { result.failed ≡ false }
{
    Served {
        status,
        failed: false,
    }
}

/// What the first words ask of a log.
pub(crate) fn split_log(words: &[String]) -> LogWords
    ensures { AskLog result.is_asked (map string_bytes words.now)
        (map string_bytes result.rest.now) }
{
    match log_words(words) {
        Some(asked) => asked,
        None => LogWords {
            is_asked: false,
            device: b"",
            port: b"",
            rest: words,
        },
    }
}

/// The names of a log, and the words behind, if the words begin so.
fn log_words(words: &[String]) -> Option<LogWords>
    ensures names { MatchOption result (IsUnlogged (map string_bytes words.now))
        (λ asked. map string_bytes words.now ≡ codes "--log" ∷ asked.device.now
        ∷ asked.port.now ∷ map string_bytes asked.rest.now) }
    ensures asked { IfSome result (λ asked. asked.is_asked ≡ true) }
{
    let (option, behind) = first_word(words)?;
    log_word(option)?;
    let (device, last) = first_word(behind)?;
    let (port, rest) = first_word(last)?;
    Some(LogWords {
        is_asked: true,
        device,
        port,
        rest,
    })
}

/// The first word, and those behind it.
fn first_word(words: &[String]) -> Option<(&[u8], &[String])>
    ensures { MatchOption result (map string_bytes words.now ≡ [])
        (λ first. map string_bytes words.now ≡ first.0.now ∷ map string_bytes first.1.now) }
{
    match words {
        [] => None,
        [word, rest @ ..] => Some((word.as_str().as_bytes(), rest)),
    }
}

/// Whether this is the word before the names of a log.
fn log_word(word: &[u8]) -> Option<()>
    ensures { MatchOption result (word.now ≢ codes "--log") (λ _. word.now ≡ codes "--log") }
{
    match word {
        b"--log" => Some(()),
        _ => None,
    }
}

/// How the port is made that the words ask for.
pub(crate) fn settings_of(words: &[String]) -> Option<PortSettings>
    ensures asks { MatchOption result
        ((settings : Settings) → ¬ AskSettings (map string_bytes words.now) settings)
        (λ settings. AskSettings (map string_bytes words.now) settings) }
    ensures range { IfSome result
        (λ settings. (4 ≤ settings.buffers) × (settings.buffers ≤ 30)) }
{
    let (buffers, behind) = split_buffers(words);
    let (takes_at_once, last) = split_taking(behind);
    match patience_of(last) {
        Some(patience) => Some(PortSettings {
            buffers,
            tells: false,
            takes_at_once,
            patience,
        }),
        None => None,
    }
}

/// The number of buffers, and the words behind it.
fn split_buffers(words: &[String]) -> (u8, &[String])
    ensures splits { SplitsBuffers (map string_bytes words.now) result.0
        (map string_bytes result.1.now) }
    ensures range { (4 ≤ result.0) × (result.0 ≤ 30) }
{
    if let [word, rest @ ..] = words
        && let Some(buffers) = number_of_buffers(word.as_str().as_bytes())
    {
        return (buffers, rest);
    }
    (BUFFERS, words)
}

/// Whether held packets are given out at once, and the words behind that.
fn split_taking(words: &[String]) -> (bool, &[String])
    ensures { SplitsTaking (map string_bytes words.now) result.0
        (map string_bytes result.1.now) }
{
    if let [word, rest @ ..] = words
        && let Some(()) = take_word(word.as_str().as_bytes())
    {
        return (true, rest);
    }
    (false, words)
}

/// Whether this is the word of a port that gives out held packets at once.
fn take_word(word: &[u8]) -> Option<()>
    ensures { MatchOption result (word.now ≢ codes "--take") (λ _. word.now ≡ codes "--take") }
{
    match word {
        b"--take" => Some(()),
        _ => None,
    }
}

/// How many clocks without an answer are too long.
fn patience_of(words: &[String]) -> Option<u32>
    ensures { MatchOption result
        ((patience : ℕ) → ¬ AskPatience (map string_bytes words.now) patience)
        (λ patience. AskPatience (map string_bytes words.now) patience) }
{
    match words {
        [] => Some(0),
        [word, rest @ ..] => match timeout_word(word.as_str().as_bytes()) {
            Some(()) => clocks_of(rest),
            None => None,
        },
    }
}

/// Whether this is the word before a number of clocks.
fn timeout_word(word: &[u8]) -> Option<()>
    ensures { MatchOption result (word.now ≢ codes "--timeout")
        (λ _. word.now ≡ codes "--timeout") }
{
    match word {
        b"--timeout" => Some(()),
        _ => None,
    }
}

/// The number of clocks that the words behind it say.
fn clocks_of(words: &[String]) -> Option<u32>
    ensures { MatchOption result
        ((clocks : ℕ) → ¬ AskClocks (map string_bytes words.now) clocks)
        (λ clocks. AskClocks (map string_bytes words.now) clocks) }
{
    match words {
        [word] => number_of_clocks(word.as_str().as_bytes()),
        _ => None,
    }
}

/// The number of clocks that a word spells.
fn number_of_clocks(word: &[u8]) -> Option<u32>
    ensures { MatchOption result
        ((clocks : ℕ) → 1 ≤ clocks → clocks ≤ 1000000 → word.now ≢ decimal clocks)
        (λ clocks. (1 ≤ clocks) × (clocks ≤ 1000000) × (word.now ≡ decimal clocks)) }
{
    match read_number(word) {
        Some(clocks) if 1 <= clocks && clocks <= MOST_CLOCKS => Some(clocks),
        _ => None,
    }
}
