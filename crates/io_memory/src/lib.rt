//! What becomes of a packet that comes to an endpoint, with memory or without (RapidIO Interconnect
//! Specification 1.3, Part 1: Input/Output Logical).
//!
//! Promised: each packet is met by one rule, which says what becomes of it, what is answered and
//! what becomes of the memory; and what is read is what was written before.
//!
//! Left out: the fabric over which packets come and answers go. No call takes memory.
//!
//! - [`meet`] meets a packet at a memory: its [`Meeting`] says what became of it, as a [`Met`], and
//!   what is answered. [`meet_without`] meets one where there is no memory.
//! - [`write_met`] writes the line that says what became of a packet.
//! - [`reads_are_what_was_written`], [`answers_are_done_unchanged`] and
//!   [`answers_tell_what_became`] are laws: each says what holds of all packets, and does nothing.
#![tactic(auto)]

mod laws;
mod meeting;
mod met_lines;
#[cfg(test)]
mod tests;

pub use laws::{answers_are_done_unchanged, answers_tell_what_became, reads_are_what_was_written};
pub use meeting::{Meeting, Met, meet, meet_without};
pub use met_lines::write_met;
