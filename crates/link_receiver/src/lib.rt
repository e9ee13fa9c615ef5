//! The input half of a port as states by type (RapidIO Interconnect Specification 1.3, Part 6,
//! packet retry and error recovery): each step consumes a state and gives the next one and the
//! symbol to send, by the step table of `link_model`. Packets are taken only in `InOk`, since the
//! other states have no such method: there they are dropped.
//!
//! Promised: each step is one entry of the table, puts the packet of the entry into the store, and
//! changes nothing else. No call takes memory.
//!
//! Left out: the characters that come, and the output half.
//!
//! ```text
//!           packet without room
//!   InOk --------------------------> InRetryStopped
//!   ^ |  <--------------------------       |
//!   | |      restart-from-retry,           |
//!   | |      link-request                  |
//!   | |                                    |
//!   | | other ackID, bad,                  | bad
//!   | | restart-from-retry                 |
//!   | +-------> InErrorStopped <-----------+
//!   |                 |
//!   +-----------------+
//!        link-request
//! ```
//!
//! What is not drawn leads to no other state: in `InOk` a packet that is taken and a link-request,
//! which are answered; elsewhere packets, which are dropped; in `InErrorStopped` what is bad, and
//! restart-from-retry.
//!
//! This project's profile: which packets have room, by `InStore::has_room`; packet-not-accepted
//! carries the next expected ackID.
//!
//! - `InOk`, `InRetryStopped`, `InErrorStopped`: the states
//! - `AfterPacket`: the next state after a packet
//! - `buffer_status`: what a port tells of its receive buffers
#![tactic(auto)]

mod in_error_stopped;
mod in_ok;
mod in_retry_stopped;
mod status;

pub use in_error_stopped::InErrorStopped;
pub use in_ok::{AfterPacket, InOk};
pub use in_retry_stopped::InRetryStopped;
pub use status::buffer_status;
