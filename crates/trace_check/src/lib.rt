//! Whether a trace of a fabric is lawful, whoever made it.
//!
//! Promised: what a lawful trace is, apart from any code, and laws of it. Every trace of a script
//! is lawful, but for its form; the steps of a lawful trace are legal; a text spells one line at
//! most. And what is lawful is decided: [`check_trace`] tells the steps of a trace exactly if it is
//! lawful, and else the first line that a reason hits, with the least reason that hits it. Then
//! [`expect`] tells what would have been lawful there.
//!
//! - `Words`, in `specs`: the words of each line of a trace, and which lines there are;
//! - `Checks`, `Wires`: what holds at each line, by the lines before it and the one behind;
//! - `Lawful`: which texts are a lawful trace, and which line of others a reason first hits;
//! - `Running`, `States`: what is enough to be known of a port, and of all behind the lines before;
//! - `Outcomes`: what is told of an input;
//! - `Reaches`, `Expecting`: what the lines before a line reach, and what they let it be;
//! - `Verdicts`: what is told of the lines of a trace;
//! - `Unmet`: which need of a step is not met;
//! - `SoFar`, `Keeping`, `Taken`, `Told`: what is lawful so far, and what a checker has taken and
//!   tells.
//!
//! [`check_trace`] checks a script of set-up lines and a trace. [`Checker`] takes one line after
//! another, as they come, and answers each; [`a_checker_agrees`] says that both say the same. Both
//! take memory for the lines of set-up, the ports, the packets and characters that are on their
//! way, and the packets that came and can still be held.
#![tactic(auto)]

mod building;
mod checker;
mod checking;
mod examples;
mod expecting;
mod hearing;
mod lanes;
mod laws;
mod links;
mod network;
mod places;
mod queue;
mod reader;
mod reading;
mod sending;
mod state;
mod unmet;

pub use checker::Checker;
pub use checking::{CheckEnd, Unlawful, check_trace};
pub use examples::{a_packet_can_be_lawful, a_packet_can_be_unlawful, reasons_can_hit};
pub use expecting::{Expected, expect};
pub use laws::{
    a_checker_agrees, every_trace_is_lawful, lawful_inputs_are_legal, lawful_or_unlawful,
    lawful_traces_are_legal, taken_lines_are_lawful_so_far,
};
pub use unmet::Unmet;
