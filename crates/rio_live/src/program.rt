//! The whole program, but for where its words and its streams come from.
ghost use Rattle.std.specs.Prelude.{map};
ghost use Rattle.std.specs.String.{string_bytes};
ghost use Rattle.rio_live.specs.Program.{LiveRan, LiveDid};

use crate::serving::serve;
use live_lines::{LiveStatus, say, status_number, tell_question};
use program_start::{Given, question_of};
use rio_chars::{Sink, Source};
use std::alloc::Global;

/// How the program is used, in a line.
const USAGE: &[u8] = b"usage: rio_live, with no words\n";

/// The same on several lines.
const HELP: &[u8] = b"usage: rio_live < LINES

Each line is answered before the next is read. An answer ends with the line ok.

endpoint, switch, link and such   set a fabric up
send, pump, settle and such       are events, told as rio replay tells them
quiet and loud                    leave characters out of answers, or not
serve NODE and serve all          let endpoints answer in each round of a run
ask LINE                          carries out a request until its response leaves
standard NODE and standard all    let devices show what standard hosts look for
external NODE.P PORT              has PORT stand beside a device outside
sent NODE.P CHARS                 is what that device sends

docs/live.md says what is answered, and man rio has the lines.
";

/// Serves a fabric if there are no words after the program's name, and answers the exit status.
/// `--help` and `--version` are answered. What there is to say of the end is said in one line to
/// `messages`. A line that cannot be said changes nothing.
pub fn run<S: Source, K: Sink, M: Sink>(given: &mut Given<S, K, M>) -> u8
    ensures { LiveRan (map string_bytes given.old.words.now) result
        S.left S.faults given.old.source given.new.source
        K.written K.faults given.old.sink given.new.sink
        M.written M.faults given.old.messages given.new.messages }
{
    let status = serve_words(given.alloc, given.words, &mut given.source, &mut given.sink);
    say(&mut given.messages, b"rio_live: ", USAGE, status);
    status_number(status)
}

/// Serves a fabric, or answers what else the words ask.
fn serve_words<S: Source, K: Sink>(
    alloc: Global,
    words: &[String],
    source: &mut S,
    sink: &mut K,
) -> LiveStatus
    ensures { LiveDid (map string_bytes words.now) result (S.left source.old)
        (S.left source.new)
        (S.faults source.old) (S.faults source.new) (K.written sink.old) (K.written sink.new)
        (K.faults sink.old) (K.faults sink.new) }
{
    if let Some(question) = question_of(words) {
        return tell_question(sink, b"rio_live", HELP, question);
    }
    match words {
        [] => serve(alloc, source, sink),
        _ => LiveStatus::Words,
    }
}
