//! Which traces pass the judge of reactions: each law is the contract of a function with an empty
//! body.
ghost use Rattle.answered_traces.specs.Answered.{NothingIsDueAfterATrace, TracesAreAnswered};

/// The texts of the lines of a trace of a script that passes are answered: each reaction in them
/// was the first that was due at its port.
pub fn traces_are_answered()
    ensures { TracesAreAnswered }
{}

/// After a trace that ended, and was not cut short by an event that was not sent, no port owes a
/// reaction.
pub fn nothing_is_due_after_a_trace()
    ensures { NothingIsDueAfterATrace }
{}
