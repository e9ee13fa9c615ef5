//! `rio_view`: what a trace of RapidIO links shows. It reads set-up lines, a line `---` and a trace
//! from standard input, and writes one view of it: words, counts, a ladder, a wave, packets, a
//! page, a map, or what it covers of the step tables. `docs/pictures.md` shows each of them.
//!
//! Promised: each line of a trace is read by the reader of `trace_lines`. Left out: whether a trace
//! is lawful, which that crate tells.
//!
//! - `run`: the whole program, over any source, sink and sink of messages; `main` gives it the
//!   words and the standard streams by `start` of `program_start`, and does nothing more.
//! - [`ViewCommand`]: what the words ask for.
//!
//! If the system does not give the arguments, the status is 1 and nothing is written.
#![tactic(auto)]

mod capture;
mod cells;
mod command;
mod coverage;
mod drawing;
mod ladder;
mod lanes;
mod map;
mod map_answer;
mod map_dot;
mod map_layout;
mod map_svg;
mod messages;
mod page;
mod page_head_1;
mod page_rest_1;
mod page_rest_2;
mod page_script_1;
mod pen;
mod picture;
mod probes;
mod program;
mod records;
mod save;
mod shadow;
mod telling;
mod wave;

pub use command::{Range, ViewCommand, ViewName};
pub use program::run;
use program::waits_for;
use program_start::{Given, Program, start};
use rio_chars::{Sink, Source};
use std::process::ExitCode;

/// The program, as it is started.
struct RioView;

impl Program for RioView {
    fn waits_for(&self, words: &[String]) -> &'static [u8] {
        waits_for(words)
    }

    fn run<S: Source, K: Sink, M: Sink>(&self, given: &mut Given<S, K, M>) -> u8 {
        run(given)
    }
}

fn main(rt: HostRuntime) -> ExitCode {
    start(&rt, &RioView)
}
