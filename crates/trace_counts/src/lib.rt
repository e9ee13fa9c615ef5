//! What each port of a trace did, counted over its lines.
//!
//! Promised: a line adds exactly what it says, each sum is one over the lines that were counted,
//! and `TooMany` comes exactly if one of them would be 2^64 or more.
//!
//! Left out: whether the trace is lawful, and that each of its lines is counted.
//!
//! - `Sums` and `Counts`, in `specs`: what a line adds
//! - [`Tallies`]: what each port did; [`PortTally`]: what one port did
//! - [`Sums`]: the sums of a port, with [`LineCounts`] of the lines that name it
#![tactic(auto)]

mod sums;
mod tally;

pub use sums::{LineCounts, LineKind, Sums, TooMany};
pub use tally::{PortTally, Tallies};
