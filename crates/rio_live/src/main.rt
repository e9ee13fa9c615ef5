//! `rio_live`: a simulated RapidIO fabric that answers at once. It reads lines of a script from
//! standard input: those that set the fabric up, and then events. It answers each on standard
//! output before it reads the next. A line that is refused is answered and forgotten.
//!
//! Promised: what stands written is, line by line, the answers of the lines so far, and the blocks
//! in them are the trace of the lines that were taken. Left out: what an event costs, so that any
//! number of them may come.
//!
//! - `run`: the whole program, over any source, sink and sink of messages; `main` gives it the
//!   words and the standard streams by `start_lines` of `live_lines`, and does nothing more.
//! - `serve`: the same without the words, and how it ended.
//!
//! If the system does not give the arguments, the status is 1 and nothing is written.
#![tactic(auto)]

mod program;
mod serving;

use live_lines::start_lines;
pub use program::run;
use program_start::{Given, Program};
use rio_chars::{Sink, Source};
pub use serving::serve;
use std::process::ExitCode;

/// The program, as it is started.
struct RioLive;

impl Program for RioLive {
    fn waits_for(&self, words: &[String]) -> &'static [u8] {
        match words {
            [] => b"rio_live: waiting for the lines of a fabric; Ctrl-D ends them\n",
            _ => b"",
        }
    }

    fn run<S: Source, K: Sink, M: Sink>(&self, given: &mut Given<S, K, M>) -> u8 {
        run(given)
    }
}

fn main(rt: HostRuntime) -> ExitCode {
    start_lines(&rt, &RioLive)
}
