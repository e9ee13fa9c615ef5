//! The words that each program knows.
ghost use Rattle.std.specs.Prelude.{◌∷◌, [], MatchOption, false, map};
ghost use Rattle.std.specs.String.{string_bytes};
ghost use Rattle.rio_chars.specs.Unless.{WritesUnless};
ghost use Rattle.program_start.specs.Questions.{AsksQuestion, AsksNoQuestion, question_text, version_text};

use rio_chars::{Sink, write_unless};

/// The newest release, and the prover's logic that proved it, with which `rt version` ends, as they
/// stand after a program's name. `tests/names` compares both with the pages.
const VERSION: &[u8] = b" 1.0.0, proved with rattle logic dac8208d650f15bf\n";

/// What each program is asked by one word.
#[derive(Clone, Copy, Debug, PartialEq, Eq)]
pub enum Question {
    /// `--help`: how it is used.
    Help,
    /// `--version`: which version it is, and which logic proved it.
    Version,
}

/// What the words after the program's name ask, if they are one of these.
pub fn question_of(words: &[String]) -> Option<Question>
    ensures { MatchOption result (AsksNoQuestion (map string_bytes words.now))
        (λ question. AsksQuestion question (map string_bytes words.now)) }
{
    match words {
        [word] => question_in(word.as_str()),
        _ => None,
    }
}

/// What one word asks.
fn question_in(word: &str) -> Option<Question>
    ensures { MatchOption result (AsksNoQuestion (word.now ∷ []))
        (λ question. AsksQuestion question (word.now ∷ [])) }
{
    if word == "--help" {
        Some(Question::Help)
    } else if word == "--version" {
        Some(Question::Version)
    } else {
        None
    }
}

/// Writes what is answered to a question: this help, or the program's name and the version. The
/// answer is whether a write failed.
pub fn answer_question<K: Sink>(sink: &mut K, name: &[u8], help: &[u8], question: Question) -> bool
    ensures { WritesUnless false (K.written sink.old) (K.faults sink.old)
        result (K.written sink.new) (K.faults sink.new)
        (question_text name.now help.now question) }
{
    match question {
        Question::Help => write_unless(false, sink, help),
        Question::Version => write_version(sink, name),
    }
}

/// Writes the program's name, the version and the logic.
fn write_version<K: Sink>(sink: &mut K, name: &[u8]) -> bool
    ensures { WritesUnless false (K.written sink.old) (K.faults sink.old)
        result (K.written sink.new) (K.faults sink.new) (version_text name.now) }
{
    let failed = write_unless(false, sink, name);
    write_unless(failed, sink, VERSION)
}
