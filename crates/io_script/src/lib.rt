//! The script of reads and writes of memory: set-up lines of a fabric, a line `---`, and behind it
//! lines that give endpoints memory, ask for reads and writes, and let rounds pass.
//!
//! [`parse_io`] answers the script that bytes spell, or the first line that a reason hits and the
//! least such reason; [`write_io_line`] goes the other way. The language stands in `specs/`, once
//! for both directions:
//!
//! - `IoForms`: the keyword and the kinds of words of each kind of line;
//! - `IoLines`: what the words of a line say, and its text;
//! - `IoWords`: which words each kind may be, and which reason hits the others;
//! - `IoReading`, `IoScripts`: which lines and which bytes are spelled, and which are refused.
//!
//! The types are [`IoScript`], its [`NumberedIo`] lines and [`IoLine`]. The laws are functions with
//! an empty body: bytes spell one script or are refused once, never both and never neither, and a
//! text that is a line is the text of the line.
//!
//! It leaves out what a line does. Only the set-up lines, the lines and the data of a write take
//! memory.
#![tactic(auto)]

mod forms;
mod laws;
mod lines;
mod reading;
mod reasons;
mod scripts;
mod words;
mod writing;

pub use laws::{
    every_io_text_is_a_script_or_refused, io_lines_are_their_texts, io_script_or_refusal,
    one_io_refusal, one_io_script,
};
pub use lines::{IoLine, IoScript, NumberedIo};
pub use scripts::parse_io;
pub use writing::write_io_line;
