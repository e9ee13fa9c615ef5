//! Whether the reactions in a trace are right, whoever made it: what a port answers by its input
//! half, which is packet-accepted, packet-retry, packet-not-accepted or link-response.
//!
//! Promised: which lines of a trace have only reactions that are due is defined over the lines
//! alone, by the step table of the input half in `link_model`, and it is decided: a line is taken
//! exactly if it does, or else the reaction that was not due is told, and the one that was.
//!
//! Left out: whether a trace is lawful, what a port sends by itself, and the other parameter of a
//! reaction.
//!
//! - `Reactions`, in `specs`: which symbols are reactions;
//! - `InputHalves`: what an event makes due;
//! - `PortsKept`: what is kept of a port, and which characters it may send;
//! - `Judging`, `Judged`: which lines and which texts pass.
//!
//! [`Judge`] takes one text after another, and [`Reactions`] one line that was read. Both take
//! memory for the ports that lines name, and for reactions that are due.
#![tactic(auto)]

mod all_ports;
mod input_half;
mod judge;
mod laws;
mod port;
mod reactions;

pub use all_ports::{ReactionEnd, Reactions, WrongReaction};
pub use judge::{Judge, JudgeEnd};
pub use laws::room_is_that_of_a_store;
pub use port::WrongAnswer;
pub use reactions::{Reaction, ReactionKind};
