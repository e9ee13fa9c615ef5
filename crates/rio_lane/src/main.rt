//! `rio_lane`: code groups of a serial lane for characters, and characters for code groups, line by
//! line. So captures of ten bits can be read, and RTL with its own coding be driven.
//!
//! Promised: what was written is the answers of the lines that were read: a burst of characters as
//! its groups, with an idle before and after it, or what a lane hears of groups or of bits, from
//! the state where it stands then; and the same of groups in rows, on four lanes. Left out: bits
//! of four lanes.
//!
//! - `run`: the whole program, over any source, sink and sink of messages; `main` gives it the
//!   words and the standard streams by `start` of `program_start`, and does nothing more.
//! - `serve`: the same of one task, and how it ended; [`LaneTask`], [`LaneWay`] and [`LaneEnds`].
//! - `what_is_written_is_read_back` has an empty body: its contract is a law.
//!
//! If the system does not give the arguments, the status is 1 and nothing is written.
#![tactic(auto)]

mod coding;
mod ends;
mod four;
mod hearing;
mod laws;
mod program;
mod serving;
mod telling;
mod words;

pub use ends::{LaneEnds, LaneTask, LaneWay};
pub use laws::what_is_written_is_read_back;
use program::asked;
pub use program::run;
use program_start::{Given, Program, start};
use rio_chars::{Sink, Source};
pub use serving::serve;
use std::process::ExitCode;

/// The program, as it is started.
struct RioLane;

impl Program for RioLane {
    fn waits_for(&self, words: &[String]) -> &'static [u8] {
        match asked(words) {
            Some(_) => b"rio_lane: waiting for lines; Ctrl-D ends them\n",
            None => b"",
        }
    }

    fn run<S: Source, K: Sink, M: Sink>(&self, given: &mut Given<S, K, M>) -> u8 {
        run(given)
    }
}

fn main(rt: HostRuntime) -> ExitCode {
    start(&rt, &RioLane)
}
