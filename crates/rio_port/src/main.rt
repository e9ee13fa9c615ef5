//! `rio_port [--log A B] [BUFFERS] [--take] [--timeout CLOCKS]`: one end of a RapidIO serial link,
//! that answers at once. It reads a line from standard input, answers it whole on standard output,
//! and reads the next. So a simulator can run its own link layer against it in a closed loop. With
//! `--log` what the lines say of both ends is written on standard error.
//!
//! Promised: what was written is the answers of the lines that were read, each what the port's
//! tables give at its state there. Nothing is logged unless the words ask for a log. Left out: what
//! a log says, how long a clock is, and the wire to the other end.
//!
//! - `run`: the whole program, over any source, sink and sink of messages; `main` gives it the
//!   words and the standard streams by `start_lines` of `live_lines`, and does nothing more.
//! - `serve`: the same of a port that is made so, and how it ended.
//!
//! If the system does not give the arguments, the status is 1 and nothing is written.
#![tactic(auto)]

mod log;
mod log_text;
mod program;
mod serving;

use live_lines::start_lines;
pub use log::LogWords;
pub use program::run;
use program::{settings_of, split_log};
use program_start::{Given, Program};
use rio_chars::{Sink, Source};
pub use serving::{Served, serve};
use std::process::ExitCode;

/// The program, as it is started.
struct RioPort;

impl Program for RioPort {
    fn waits_for(&self, words: &[String]) -> &'static [u8] {
        let logs = split_log(words);
        match settings_of(logs.rest) {
            Some(_) if !logs.is_asked => WAITS,
            _ => b"",
        }
    }

    fn run<S: Source, K: Sink, M: Sink>(&self, given: &mut Given<S, K, M>) -> u8 {
        run(given)
    }
}

/// What is said at a terminal, unless a log is asked for, which it would stand in.
const WAITS: &[u8] = b"rio_port: waiting for the lines of a port; Ctrl-D ends them\n";

fn main(rt: HostRuntime) -> ExitCode {
    start_lines(&rt, &RioPort)
}
