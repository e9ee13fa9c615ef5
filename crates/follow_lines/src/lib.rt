//! A check of a trace that keeps up: set-up lines, a line `---` and the lines of a trace are read
//! one by one from a source, and each is judged before the next is read.
//!
//! Promised: what is told is so of the lines that were read: a lawful trace of so many steps, or
//! the first line that a reason hits, whatever more may come; and the lines before it were lawful
//! so far; and what would have been lawful at that line. Left out: the words that say why.
//!
//! - [`follow_all`]: reads, judges and tells, up to the verdict or the end of input
//! - [`follow_reactions`]: the same, but that the reactions of a trace are judged in place of what
//!   is lawful
//! - [`FollowEnd`], `end_number` and `end_words`: how it ended, the number of that, and what is
//!   said
//! - [`Journal`]: what is kept of what was read, for words and reports: the set-up lines, the last
//!   lines of the trace, and how often each step was made
#![tactic(auto)]

mod ends;
mod following;
mod journal;
mod reacting;
mod setting;
mod steps;
mod telling;
mod tracing;

pub use ends::{FollowEnd, end_number, end_words};
pub use following::follow_all;
pub use journal::{Journal, Notes};
pub use reacting::follow_reactions;
pub use steps::{StepCount, StepCounts};
