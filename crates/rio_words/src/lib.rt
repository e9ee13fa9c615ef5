//! What `rio` says of words that ask for no command, of characters that are none, and of how to see a
//! line of a trace.
//!
//! Promised: what is said of words and characters is so of them. Left out: which words ask for a
//! command, and which line is not lawful.
//!
//! - `write_usage`: how the program is used, by the words that it was given; [`WordsFault`]
//! - `push_bad_word`: what in a line of characters is to blame
//! - `push_lines`: how to see a line of a trace
#![tactic(auto)]

mod bad_word;
mod faults;
mod help;
mod places;
mod usage;

pub use bad_word::push_bad_word;
pub use faults::WordsFault;
pub use places::push_lines;
pub use usage::write_usage;
