//! The output half of a port as states by type (RapidIO Interconnect Specification 1.3, Part 6,
//! packet retry and error recovery): each step consumes a state and gives the next one, by the step
//! tables of `link_model`. A packet starts only in `OutOk`, and a restart comes only after a retry,
//! since the other states have no such method.
//!
//! Promised: each step is one entry of the table, frees the packets of the entry from the store in
//! the order in which they were sent, and changes nothing else. No call takes memory.
//!
//! Left out: the characters that are sent, and the input half.
//!
//! ```text
//!           packet-retry of the oldest
//!   OutOk ------------------------------> OutRetryStopped
//!   ^ |   <------------------------------     |
//!   | |      restart-from-retry is sent       |
//!   | |                                       |
//!   | | other packet-accepted, other          | packet-accepted, packet-retry,
//!   | | packet-retry, packet-not-accepted,    | packet-not-accepted
//!   | | time-out                              |
//!   | +---> OutErrorStopped, not asked <------+
//!   |             |            ^
//!   |             | link-      | time-out
//!   |             | request    |
//!   |             v is sent    |
//!   |       OutErrorStopped, asked
//!   |             |            |
//!   +-------------+            +---> OutFailed
//!     link-response             link-response
//!     with an ackID that        with another
//!     the far port can expect
//! ```
//!
//! What is not drawn leads to no other state, as a time-out in `OutRetryStopped`.
//!
//! Each state that has not failed keeps the last report of the far port, if it tells its free
//! buffers. `OutOk` starts only what has room by it.
//!
//! This project's profile: the highest priority goes first, also among what has to be sent again
//! after a retry; at most `WINDOW` packets are outstanding; a time-out in `OutOk` is an error also
//! where nothing is outstanding, and in `OutRetryStopped` it changes nothing.
//!
//! - `OutOk`, `OutRetryStopped`, `OutErrorStopped`, `OutFailed`: the states
//! - `AfterAccepted`, `AfterRetry`, `AfterResponse`: the next state, where there is a choice
//! - `Started`: the packet that a turn starts
#![tactic(auto)]

mod answers;
mod freed;
mod out_error_stopped;
mod out_ok;
mod out_retry_stopped;
mod outstanding;

pub use answers::{AfterAccepted, AfterResponse, AfterRetry, OutFailed, Started};
pub use out_error_stopped::OutErrorStopped;
pub use out_ok::OutOk;
pub use out_retry_stopped::OutRetryStopped;
