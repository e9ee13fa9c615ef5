//! What a switch and an endpoint do with the packets of their ports, over anything that has the
//! face of a port (RapidIO Interconnect Specification 1.3, Part 3, routing and maintenance).
//!
//! Promised: a call makes exactly one step or none. Which packet goes first, where it goes, what is
//! answered, and what the ports and registers hold afterwards are exact, and every port is alike to
//! what it was.
//!
//! Left out: what goes on between the ports of a link, and progress among switches that wait for
//! each other. No call takes memory.
//!
//! - [`first_going`] finds the packet of a switch that goes first: [`Going`], which lends it, has
//!   it pass on and has it answered.
//! - [`switch_step`] makes the first step that a switch can make, and [`Step`] tells it.
//! - [`endpoint_send`] puts a packet to be sent, if there is room: [`Sent`].
//! - [`endpoint_collect`] takes a packet out of the fabric, or has the registers answer it:
//!   [`Collected`].
//! - `ports` has what both do with single ports.
#![tactic(auto)]

mod endpoint;
mod going;
mod ports;
mod switch;

pub use endpoint::{Collected, Sent, endpoint_collect, endpoint_send};
pub use going::{Going, first_going};
pub use switch::{Step, switch_step};
