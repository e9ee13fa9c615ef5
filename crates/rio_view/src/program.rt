//! The whole program, but for where its words and its streams come from.

use crate::capture::Capture;
use crate::command::{Range, ViewCommand, ViewName, command_of};
use crate::coverage::Coverage;
use crate::ladder::Ladder;
use crate::map::show_map;
use crate::messages::{HELP, say};
use crate::page::PageView;
use crate::save::SaveFile;
use crate::wave::Wave;
use program_start::{Given, Question, answer_question, question_of};
use rio_chars::{Sink, Source};
use std::alloc::Global;
use view_words::{CountsView, Part, ViewEnd, ViewStatus, WordsView, show, status_number};

/// Writes the view that the words after the program's name ask for, or answers a question, and
/// answers the exit status. What there is to say of the end is said to `messages`. A message that
/// cannot be said changes nothing.
pub fn run<S: Source, K: Sink, M: Sink>(given: &mut Given<S, K, M>) -> u8 {
    let words = given.words;
    let end = answer_words(given.alloc, words, &mut given.source, &mut given.sink);
    say(&mut given.messages, words, &end);
    match end {
        Ok(()) => 0,
        Err(end) => status_number(end.status()),
    }
}

/// What is said at a terminal before the view of these words is made.
pub(crate) fn waits_for(words: &[String]) -> &'static [u8] {
    match command_of(words) {
        Some(command) if command.view == ViewName::Map => {
            b"rio_view: waiting for the set-up lines of a fabric; Ctrl-D ends them\n"
        }
        Some(_) => {
            b"rio_view: waiting for set-up lines, a line --- and a trace; Ctrl-D ends them\n"
        }
        None => b"",
    }
}

/// Answers the question of these words, or writes the view that they ask for.
fn answer_words<S: Source, K: Sink>(
    alloc: Global,
    words: &[String],
    source: &mut S,
    sink: &mut K,
) -> Result<(), ViewEnd> {
    match (question_of(words), command_of(words)) {
        (Some(question), _) => answer(sink, question),
        (None, Some(command)) => view(alloc, command, source, sink),
        (None, None) => Err(ViewEnd::Ended(ViewStatus::Words)),
    }
}

/// Answers a question.
fn answer<K: Sink>(sink: &mut K, question: Question) -> Result<(), ViewEnd> {
    if answer_question(sink, b"rio_view", HELP, question) {
        Err(ViewEnd::Ended(ViewStatus::WriteFault))
    } else {
        Ok(())
    }
}

/// Writes a view of what is read.
fn view<S: Source, K: Sink>(
    alloc: Global,
    command: ViewCommand<'_>,
    source: &mut S,
    sink: &mut K,
) -> Result<(), ViewEnd> {
    let part = command.part;
    match command.view {
        ViewName::Words => show_words(alloc, part, false, source, sink),
        ViewName::Flow => show_words(alloc, part, true, source, sink),
        ViewName::Counts => show(alloc, part, CountsView::new(alloc), source, sink),
        ViewName::Ladder => show_ladder(alloc, part, command.events, source, sink),
        ViewName::Wave => show(alloc, part, Wave::new(alloc), source, sink),
        ViewName::Save => show(alloc, part, SaveFile::new(alloc), source, sink),
        ViewName::Packets => show(alloc, part, Capture::new(alloc), source, sink),
        ViewName::Coverage => show(alloc, part, Coverage::new(alloc), source, sink),
        ViewName::Page => show_page(alloc, part, source, sink),
        ViewName::Map => show_map(alloc, command, source, sink),
    }
}

/// Writes what is read in words.
fn show_words<S: Source, K: Sink>(
    alloc: Global,
    part: Part<'_>,
    flow: bool,
    source: &mut S,
    sink: &mut K,
) -> Result<(), ViewEnd> {
    show(alloc, part, WordsView::new(alloc, flow)?, source, sink)
}

/// Writes what is read as a ladder.
fn show_ladder<S: Source, K: Sink>(
    alloc: Global,
    part: Part<'_>,
    events: Range,
    source: &mut S,
    sink: &mut K,
) -> Result<(), ViewEnd> {
    show(alloc, part, Ladder::new(alloc, events)?, source, sink)
}

/// Writes what is read as a page for a browser.
fn show_page<S: Source, K: Sink>(
    alloc: Global,
    part: Part<'_>,
    source: &mut S,
    sink: &mut K,
) -> Result<(), ViewEnd> {
    show(alloc, part, PageView::new(alloc)?, source, sink)
}
