//! `rio`: a simulated RapidIO fabric. `rio replay` reads a script from standard input and writes
//! its trace to standard output. `rio decode` reads the characters of a link and writes the lines
//! of their reading. `rio check` reads set-up lines and a trace, and says whether it is lawful.
//! `rio enumerate NODE` has an endpoint number the fabric of set-up lines, and `rio contest NODE
//! NODE N` two of them at once. `rio io` carries out reads and writes of memory. `rio soak N`
//! carries out the script that a number stands for, and counts what became of its packets. The exit
//! status is the number of what `answer` answers, and a line on standard error says in words what
//! is to be said of it.
//!
//! - `run`: the whole program, over any source, sink and sink of messages; `main` gives it the
//!   words and the standard streams by `start` of `program_start`, and does nothing more.
//! - `answer` and `rio`: what the words ask for is done; `CommandAnswer`, `Status`, `Refusal` and
//!   `Command`.
//! - `every_input_is_accepted_or_refused`, `inputs_are_judged_once`,
//!   `every_text_is_characters_or_refused`: laws of inputs.
//!
//! If the system does not give the arguments, the status is 1 and nothing is written.
#![tactic(auto)]

mod accessing;
mod answer;
mod awaiting;
mod command;
mod contesting;
mod decode;
mod laws;
mod lines;
mod messages;
mod numbering;
mod places;
mod program;
mod refusal;
mod soaking;
mod status;
mod texts;
mod top;
mod words;

pub use answer::CommandAnswer;
use awaiting::awaited;
pub use command::Command;
pub use laws::{
    every_input_is_accepted_or_refused, every_text_is_characters_or_refused, inputs_are_judged_once,
};
pub use program::run;
use program_start::{Given, Program, start};
pub use refusal::Refusal;
use rio_chars::{Sink, Source};
pub use status::{Status, status_number};
use std::process::ExitCode;
pub use top::{answer, rio};

/// The program, as it is started.
struct Rio;

impl Program for Rio {
    fn waits_for(&self, words: &[String]) -> &'static [u8] {
        awaited(words)
    }

    fn run<S: Source, K: Sink, M: Sink>(&self, given: &mut Given<S, K, M>) -> u8 {
        run(given)
    }
}

fn main(rt: HostRuntime) -> ExitCode {
    start(&rt, &Rio)
}
