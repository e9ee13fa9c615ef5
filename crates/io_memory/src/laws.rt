//! Laws of packets that come to a memory and of their answers, for whoever states something of
//! reads and writes.
ghost use Rattle.io_memory.specs.Laws.{AnswersAreDone, AnswersTellBack, OthersAreUnanswered, ReadsAreHeld};

/// If packets come to a memory one after another, the bytes of each read are those that the writes
/// before it left.
pub fn reads_are_what_was_written()
    ensures { ReadsAreHeld }
{}

/// The packet of an answer is met as a response wherever it comes, with the transaction number, the
/// status and the data that it was made of.
pub fn answers_are_done_unchanged()
    ensures { AnswersAreDone }
{}

/// The answer to a request tells what became of it at the memory, and only that: data say that just
/// these bytes were read, status 0 without data that a write was done, and status 7 that the
/// request failed. What asks for no answer gets none.
pub fn answers_tell_what_became()
    ensures told { AnswersTellBack }
    ensures others { OthersAreUnanswered }
{}
