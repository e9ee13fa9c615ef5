//! Scripts over devices, ports and links: `replay` carries one out and writes its trace, and
//! `summary` carries one out and counts the lines of its trace.
//!
//! Promised: what is written is the one trace of the script, of which all laws of `fabric_trace`
//! hold; or a front of it, and then it is said which whole lines, and the laws hold of those. What
//! is counted are the lines of that one trace.
//!
//! - `replay` and [`ReplayEnd`]: the trace of a script, and why it ended early
//! - [`summary`], [`Counts`] and [`SummaryEnd`]: what became of the packets of a script
#![tactic(auto)]

mod replaying;
mod summing;

pub use replaying::{ReplayEnd, replay};
pub use summing::{Counts, SummaryEnd, summary};
