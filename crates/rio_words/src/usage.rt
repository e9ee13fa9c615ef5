//! How the program is used.
ghost use Rattle.std.specs.Prelude.{map};
ghost use Rattle.std.specs.String.{string_bytes};
ghost use Rattle.rio_words.specs.Usage.{SaysOfWords};

use crate::faults::{fault_of, first_of, write_fault};
use crate::help::HELP;
use program_start::{answer_question, question_of};
use rio_chars::Sink;

/// Says what there is to say of words that ask for no command.
pub fn write_usage<M: Sink>(messages: &mut M, words: &[String]) -> bool
    ensures { SaysOfWords (map string_bytes words.now)
        (M.written messages.old) (M.faults messages.old)
        result (M.written messages.new) (M.faults messages.new) }
{
    match question_of(words) {
        Some(question) => answer_question(messages, b"rio", HELP, question),
        None => write_fault(messages, first_of(words), fault_of(words)),
    }
}
