//! A fabric of ports and links, what the events of a script do to it, and what a host asks over it.
//!
//! Promised: a fabric is what its set-up lines make, and each event that is carried out writes its
//! block of the trace. For whatever lines a fabric stands, it stands for those and the block
//! afterwards. A host that asks a device gets the response which the registers and the tables give,
//! or is told exactly why it gets none. A port without a link takes what a device outside the
//! fabric sends, and answers it, by its step tables.
//!
//! Left out: the order of events, and the last line of a trace; and what a device outside does. All
//! memory of the ports is taken when the fabric is made.
//!
//! - [`Fabric`]: its devices, ports and links
//! - [`Happened`] and [`FabricEnd`]: what an event answers
//! - [`AskEnd`]: why an ask has no answer
//! - [`Noise`] and [`Quiet`]: who changes what is on the wires while a host asks
//! - [`noise_leaves_responses`] is a law: a noise changes no response
#![tactic(auto)]

mod actions;
mod answers;
mod asking;
mod carrying;
mod edits;
mod ends;
mod events;
mod fabric;
mod gathering;
mod idle;
mod laws;
mod nodes;
mod noise;
mod outside;
mod own_registers;
mod plans;
mod rounds;
mod switches;

pub use answers::{FabricEnd, Happened};
pub use asking::AskEnd;
pub use fabric::Fabric;
pub use laws::noise_leaves_responses;
pub use noise::{Noise, Quiet};
