//! The whole program, but for where its words and its streams come from.
ghost use Rattle.std.specs.Prelude.{map, if◌then◌else◌, ◌≡◌};
ghost use Rattle.std.specs.String.{string_bytes};
ghost use Rattle.follow_lines.specs.declared.ends.FollowEnd.TheVariants as F;
ghost use Rattle.rio_follow.specs.Program.{FollowDid, FollowRan};

use crate::following::{follow, react};
use crate::request::{asked, asks_reactions};
use follow_lines::{FollowEnd, end_number, end_words};
use program_start::{Given, answer_question, question_of};
use rio_chars::{Sink, Source, write_unless};
use std::alloc::Global;

/// How the program is used.
const HELP: &[u8] = b"usage: rio_follow [tell] [--report tap] < LINES
       rio_follow reactions < LINES

Reads set-up lines, a line --- and the lines of a trace, and judges each line
before the next is read. At the first line that is not lawful it says which and
why, and ends.

lawful STEPS             the input has ended, and all lines are a lawful trace
unlawful LINE REASON     this line is not lawful, or it is missing
refused LINE REASON      the set-up lines are refused
tell                     and ok for the line --- and for each line behind it
--report tap             a report on standard error, in place of why

With reactions it judges the acceptances, retries, refusals and link-responses
that ports send, and not what is lawful.

answered COUNT           the input has ended, and so many were sent, each due
wrong LINE               this line has one that was not due
unlawful LINE 21         this line is no line of a trace

docs/checking.md has the reasons, and man rio the lines.
";

/// Follows a trace as the words behind the program's name ask for, and answers the exit status.
/// `--help` and `--version` are answered. What there is to say of the end is said in one line to
/// `messages`. A line that cannot be said changes nothing.
pub fn run<S: Source, K: Sink, M: Sink>(given: &mut Given<S, K, M>) -> u8
    ensures { FollowRan (map string_bytes given.old.words.now) result
        S.left S.faults given.old.source given.new.source
        K.written K.faults given.old.sink given.new.sink }
{
    let end = follow_words(
        given.alloc,
        given.words,
        &mut given.source,
        &mut given.sink,
        &mut given.messages,
    );
    write_unless(false, &mut given.messages, end_words(end));
    end_number(end)
}

/// Follows a trace as the words ask for, or answers what else they ask.
fn follow_words<S: Source, K: Sink, M: Sink>(
    alloc: Global,
    words: &[String],
    source: &mut S,
    sink: &mut K,
    messages: &mut M,
) -> FollowEnd
    ensures { FollowDid (map string_bytes words.now) result (S.left source.old)
        (S.left source.new)
        (S.faults source.old) (S.faults source.new) (K.written sink.old) (K.written sink.new)
        (K.faults sink.old) (K.faults sink.new) }
{
    if let Some(question) = question_of(words) {
        return told(answer_question(sink, b"rio_follow", HELP, question));
    }
    if asks_reactions(words) {
        return react(alloc, source, sink, messages);
    }
    match asked(words) {
        Some(request) => follow(alloc, request, source, sink, messages),
        None => FollowEnd::Words,
    }
}

/// How it ended, by whether a write failed.
fn told(failed: bool) -> FollowEnd
    ensures { result ≡ (if failed then F.WriteFault else F.Done) }
{
    if failed {
        FollowEnd::WriteFault
    } else {
        FollowEnd::Done
    }
}
