//! A host asks a device over the fabric: the lines of an ask, and the laws of them.
//!
//! Promised: what an ask leads to, whatever edits the wires meet, if every event that was acted on
//! was sent. It is replied to exactly if the tables lead its request to a device and the response
//! back, and then by that device.
//!
//! Left out: the code that asks. Each law is the contract of a function with an empty body.
//!
//! - `specs/Asks.antt` says which lines an ask makes, `specs/Noise.antt` what a link does in it
//! - `specs/Answered.antt` says which asks are answered, and how
//! - `specs/Only.antt`, `specs/Course.antt` and `specs/Travel.antt` follow the one packet
//! - `specs/Own.antt` says what a host's own registers have to do with it
#![tactic(auto)]

mod laws;

pub use laws::{
    a_host_has_its_own_registers, a_round_carries_the_packet, an_ask_has_one_trip,
    asks_are_answered, asks_have_lines, without_edits_nothing_is_undetected,
};
