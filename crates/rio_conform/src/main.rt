//! `rio_conform BUFFERS NAME LINE ..`: asks a device the lines of a scenario, and says whether it
//! answered each as the tables of a port do. The lines go to standard output, the answers come from
//! standard input, and the report, in the form of TAP 14, goes to standard error.
//!
//! Promised: a scenario passes exactly if each answer is the one that the tables give at that line,
//! from a new port on. Otherwise the first line is told whose answer differs. Left out: that a
//! device which passes is right: a list of scenarios that ends cannot show it.
//!
//! - `run`: the whole program, over any source, sink and sink of messages; `main` gives it the
//!   words and the standard streams by `start_lines` of `live_lines`, and does nothing more.
//! - `play`: the same of the lines of a scenario; [`Verdict`]: what came of it.
//! - `right_devices_pass`: a law, that a device passes which gives the answers of the tables;
//!   `the_reference_passes`: so does `rio_port`, by its own contract.
//!
//! If the system does not give the arguments, the status is 1 and nothing is written.
#![tactic(auto)]

mod answers;
mod laws;
mod playing;
mod program;
mod report;
mod trial;
mod verdict;

pub use laws::{right_devices_pass, the_reference_passes};
use live_lines::start_lines;
pub use playing::play;
use program::read_asked;
pub use program::run;
use program_start::{Given, Program};
use rio_chars::{Sink, Source};
use std::process::ExitCode;
pub use verdict::Verdict;

/// The program, as it is started.
struct RioConform;

impl Program for RioConform {
    fn waits_for(&self, words: &[String]) -> &'static [u8] {
        match read_asked(words) {
            Some(_) => b"rio_conform: waiting for the answers of a device; Ctrl-D ends them\n",
            None => b"",
        }
    }

    fn run<S: Source, K: Sink, M: Sink>(&self, given: &mut Given<S, K, M>) -> u8 {
        run(given)
    }
}

fn main(rt: HostRuntime) -> ExitCode {
    start_lines(&rt, &RioConform)
}
