//! From the characters of a link to control symbols and packets, and back.
//!
//! Promised: the events of characters are their reading, as `link_model` defines it, however the
//! characters are cut into pieces; and what is sent for a symbol or a packet is what is read as it.
//! Left out: what a port does with events.
//!
//! - [`Framer`] takes characters, one or a run at a time, where a run goes up to the first
//!   character that tells an event.
//! - [`Events`] is what a character tells, by value; [`Told`] is the same in a few bytes, with the
//!   packet lent.
//! - [`symbol_chars`] and [`packet_chars`] are what is sent.
//!
//! Only [`Framer::feed_all`] takes memory.
#![tactic(auto)]

mod events;
mod feeding;
mod framer;
mod runs;
mod sending;
mod steps;

pub use events::{Events, Told};
pub use framer::Framer;
pub use sending::{packet_chars, symbol_chars};
