//! The ends of RapidIO links (RapidIO Interconnect Specification 1.3, Part 6, packet
//! acknowledgment, packet retry and error recovery): a port takes the characters that come, and
//! says what is to be sent.
//!
//! Promised: each call is the step tables of `link_model` led over what the characters say, and
//! what is sent is a function of the port's state. Whatever comes, the port is in one of its named
//! states, holds no more packets than it has buffers, and has at most `WINDOW` packets outstanding.
//! Only the two `new` take memory.
//!
//! Left out: what travels between two ports, and when a time-out comes.
//!
//! - [`Port`]: `take`, `turn` and `time_out`, and readers of its state, by [`OutKind`] and
//!   [`InKind`]; `take_run` for runs of characters, or `read` and then `act` and the like, where
//!   something is to come between, told by [`Completed`] and [`Done`]
//! - [`Taken`] and [`Burst`]: what a character did, and what a turn sends
//! - [`Sending`]: what a turn sends, in a few bytes, by `start_turn`; `queued_at` lends its packet
//! - [`PortFace`]: the eight lists of packets that the layer above sees
//! - [`PlainPort`] and [`pass`]: a port with no protocol, whose packets pass at once
//! - [`one_character_has_one_reply`], [`answers_are_read_from_any_place`] and
//!   [`characters_do_what_they_say`]: laws; the calls do nothing
#![tactic(auto)]

mod acts;
mod bursts;
mod completed;
mod face;
mod input_half;
mod kinds;
mod laws;
mod output_half;
mod plain;
mod port;
mod sending;
mod taken;
mod turns;

pub use acts::Done;
pub use bursts::Burst;
pub use completed::Completed;
pub use face::PortFace;
pub use kinds::{InKind, OutKind};
pub use laws::{
    answers_are_read_from_any_place, characters_do_what_they_say, one_character_has_one_reply,
};
pub use plain::{PlainPort, pass};
pub use port::Port;
pub use sending::Sending;
pub use taken::Taken;
