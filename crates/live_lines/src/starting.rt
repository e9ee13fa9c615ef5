//! How a program starts that answers line by line.
ghost use Rattle.live_lines.specs.Asked.{QuestionTold};

use crate::feed_at_end::FeedAtEnd;
use crate::status::LiveStatus;
use program_start::{Program, Question, answer_question, start_reading};
use rio_chars::{Sink, StdSource};
use std::process::ExitCode;

/// Runs a program with the arguments and the standard streams of the system. The last line of
/// standard input needs no line feed. If the system does not give the arguments, the status is 1
/// and nothing is written.
pub fn start_lines<P: Program>(rt: &HostRuntime, program: &P) -> ExitCode {
    start_reading(rt, program, FeedAtEnd::new(StdSource::new(rt.reader())))
}

/// Writes what is answered to a question: this help, or the program's name and the version. The
/// answer is how the program ends.
pub fn tell_question<K: Sink>(
    sink: &mut K,
    name: &[u8],
    help: &[u8],
    question: Question,
) -> LiveStatus
    ensures { QuestionTold name.now help.now question result
        (K.written sink.old) (K.written sink.new) (K.faults sink.old) (K.faults sink.new) }
{
    if answer_question(sink, name, help, question) {
        LiveStatus::WriteFault
    } else {
        LiveStatus::Done
    }
}
