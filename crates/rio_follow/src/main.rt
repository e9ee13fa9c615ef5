//! `rio_follow [tell] [--report tap]` and `rio_follow reactions`: a check of a trace that keeps up.
//! It reads set-up lines, a line `---` and the lines of a trace from standard input, and judges each
//! line before it reads the next. At the first line that is not lawful it says so, and ends. With a
//! report it writes on standard error what was checked, in the form of TAP 14. With the word
//! `reactions` it judges what ports answer, in place of what is lawful.
//!
//! Promised: what is said is so of the lines that were read: a lawful trace of so many steps, or
//! the first line that a reason hits, whatever more may come; and the lines before it were lawful
//! so far. Left out: how fast lines come.
//!
//! - `run`: the whole program, over any source, sink and sink of messages; `main` gives it the
//!   words and the standard streams by `start_lines` of `live_lines`, and does nothing more.
//! - `follow` and `react`: the same without the words. What they do is `follow_all` and
//!   `follow_reactions` of `follow_lines`.
//!
//! If the system does not give the arguments, the status is 1 and nothing is written.
#![tactic(auto)]

mod following;
mod program;
mod reactions;
mod report;
mod request;
mod why;

pub use following::{follow, react};
use live_lines::start_lines;
pub use program::run;
use program_start::{Given, Program};
pub use request::FollowRequest;
use request::{asked, asks_reactions};
use rio_chars::{Sink, Source};
use std::process::ExitCode;

/// What is said at a terminal.
const WAITS: &[u8] = b"rio_follow: waiting for set-up lines and a trace; Ctrl-D ends them\n";

/// The program, as it is started.
struct RioFollow;

impl Program for RioFollow {
    fn waits_for(&self, words: &[String]) -> &'static [u8] {
        if asks_reactions(words) {
            return WAITS;
        }
        match asked(words) {
            Some(_) => WAITS,
            None => b"",
        }
    }

    fn run<S: Source, K: Sink, M: Sink>(&self, given: &mut Given<S, K, M>) -> u8 {
        run(given)
    }
}

fn main(rt: HostRuntime) -> ExitCode {
    start_lines(&rt, &RioFollow)
}
