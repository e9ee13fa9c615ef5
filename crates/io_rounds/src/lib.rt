//! Reads and writes of endpoint memory over a fabric, round by round (RapidIO Interconnect
//! Specification 1.3, Part 1: Input/Output Logical).
//!
//! Promised: what is written is what the rules of `specs/Going.antt` make of a script, which has no
//! other output, or a front of it.
//!
//! Left out: reading a script. `io_script` does that.
//!
//! - [`carry_out`] carries out a script of reads and writes, and [`IoEnd`] says why it ended early;
//! - [`io_scripts_are_fit`] is a law: it states that each script may be carried out, and does
//!   nothing.
#![tactic(auto)]

mod carrying;
mod course;
mod laws;
mod requests;
mod rounds;
mod stations;
mod texts;

pub use carrying::{IoEnd, carry_out};
pub use laws::io_scripts_are_fit;
