//! A trace is followed, and what it is not lawful for is said.
ghost use Rattle.std.specs.Prelude.{Option};
ghost use Rattle.trace_check.specs.declared.expecting.Expected.{Expected};
ghost use Rattle.follow_lines.specs.Following.{FollowsAll};
ghost use Rattle.follow_lines.specs.Reacting.{JudgesAll};

use crate::reactions::say_reactions;
use crate::report::say_report;
use crate::request::FollowRequest;
use crate::why::say_why;
use follow_lines::{FollowEnd, Journal, follow_all, follow_reactions};
use live_lines::LineReader;
use rio_chars::{Outbox, Sink, Source, TextBuffer};
use std::alloc::Global;

/// Follows a trace, as `follow_all` of `follow_lines` does. Why lines are refused or not lawful is
/// said to `messages`, or a report if one is asked for.
pub fn follow<S: Source, K: Sink, M: Sink>(
    alloc: Global,
    request: FollowRequest,
    source: &mut S,
    sink: &mut K,
    messages: &mut M,
) -> FollowEnd
    ensures { (expected : Option Expected) × FollowsAll request.tell result expected
        (S.left source.old) (S.left source.new) (S.faults source.old) (S.faults source.new)
        (K.written sink.old) (K.written sink.new) (K.faults sink.old) (K.faults sink.new) }
{
    let Ok(mut input) = LineReader::new(alloc) else {
        return FollowEnd::NoMemory;
    };
    let Ok(mut buffer) = TextBuffer::new(alloc) else {
        return FollowEnd::NoMemory;
    };
    let mut journal = Journal::new(alloc, request.report);
    let mut outbox = Outbox::new(&mut buffer, sink);
    let end = follow_all(
        alloc,
        request.tell,
        &mut input,
        &mut journal,
        source,
        &mut outbox,
    );
    outbox.into_sink();
    if request.report {
        say_report(alloc, end, &journal, messages);
    } else {
        say_why(alloc, end, &journal, messages);
    }
    end
}

/// Judges the reactions of a trace, as `follow_reactions` of `follow_lines` does. Why lines are
/// refused, are no lines of a trace or have a wrong reaction is said to `messages`; and which
/// reactions are due at the end.
pub fn react<S: Source, K: Sink, M: Sink>(
    alloc: Global,
    source: &mut S,
    sink: &mut K,
    messages: &mut M,
) -> FollowEnd
    ensures { JudgesAll result (S.left source.old) (S.left source.new) (S.faults source.old)
        (S.faults source.new) (K.written sink.old) (K.written sink.new) (K.faults sink.old)
        (K.faults sink.new) }
{
    let Ok(mut input) = LineReader::new(alloc) else {
        return FollowEnd::NoMemory;
    };
    let Ok(mut buffer) = TextBuffer::new(alloc) else {
        return FollowEnd::NoMemory;
    };
    let mut journal = Journal::new(alloc, false);
    let mut outbox = Outbox::new(&mut buffer, sink);
    let end = follow_reactions(alloc, &mut input, &mut journal, source, &mut outbox);
    outbox.into_sink();
    say_why(alloc, end, &journal, messages);
    say_reactions(alloc, end, &journal, messages);
    end
}
