//! The reactions in every trace of a script are those that the step tables give: laws above the
//! judge of reactions.
//!
//! Promised: in every trace of a script each acknowledgement, refusal, retry and link-response is
//! the first that is due at its port, and nothing is due after the last line of a trace that
//! ended. So the judge of reactions passes each trace that is replayed.
//!
//! Left out: that bytes are parted into the texts of lines, which is a premise.
//!
//! - `specs/Answered.antt` has the laws.
//! - [`traces_are_answered`] and [`nothing_is_due_after_a_trace`] say them.
#![tactic(auto)]

mod laws;

pub use laws::{nothing_is_due_after_a_trace, traces_are_answered};
