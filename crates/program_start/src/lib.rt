//! How a program of this repository starts: what it is given by the system, what it answers to
//! `--help` and `--version`, and what it says at a terminal.
//!
//! Promised: the two words that each program knows are found, and their answers are written. Left
//! out: what a program does, and that standard input is a terminal, which the system says.
//!
//! - [`Program`], [`Given`] and `start`: the whole of a `main`; `start_reading`: with a source of
//!   its own
//! - [`Question`]: `question_of`, `answer_question`
#![tactic(auto)]

mod questions;
mod starting;

pub use questions::{Question, answer_question, question_of};
pub use starting::{Given, Program, start, start_reading};
