//! Laws of what a check answers of an input, above its definitions.
//!
//! Promised: an input has one verdict at most. It is a lawful trace of one number of steps, or one
//! line is the first that a reason hits and one reason the least, or it is refused at one line for
//! one reason; and no two of these.
//!
//! Left out: which verdict an input has, which `trace_check` answers.
//!
//! - [`verdicts_are_once`] is the law.
#![tactic(auto)]

mod laws;

pub use laws::verdicts_are_once;
