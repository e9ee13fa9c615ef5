//! Maintenance packets (RapidIO Interconnect Specification 1.3, Part 1 and Part 3, maintenance):
//! requests to read or write a register of a device, the responses to them, and what a switch does
//! with such packets.
//!
//! Promised: each packet carries exactly one request, one response or neither, and what is
//! malformed has its name; what is written is read back; a request is answered by one rule, which
//! says what becomes of the registers; and where a packet goes next depends on the registers of the
//! switch and the packet alone.
//!
//! Packets have IDs of 8 bits or of 16. A response has those of its request's size.
//!
//! Left out: port-writes, requests for other than four bytes, and the order of packets at a switch.
//! No call takes memory.
//!
//! - [`Request`] and its [`Op`] are what a packet asks for: [`read_request`], [`write_request`].
//! - [`Response`] is what comes back: [`read_response`], [`write_response`].
//! - [`answer`] makes a response of a request at the registers of a device.
//! - [`Next`] is where a switch sends a packet: [`next_of`], and [`move_on`] for a packet that goes
//!   to a port.
#![tactic(auto)]

mod answers;
mod laws;
mod layout;
mod next_hop;
mod request;
mod response;

pub use answers::{answer, response_prio};
pub use laws::{answers_keep_devices, answers_keep_forms};
pub use next_hop::{Next, move_on, next_of};
pub use request::{Op, Request, read_request, write_request};
pub use response::{Response, read_response, write_response};
