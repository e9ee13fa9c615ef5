//! Four lanes: characters as rows of groups, one of each lane, and back.
//!
//! Promised: characters go on one lane after another, each with its own disparity; each lane hears
//! its own groups, and from the first align characters on they are joined to columns again. A burst
//! that is sent is heard as it was, however late each lane is. Left out: where groups begin in
//! bits, and the machine of the standard by which lanes are called aligned.
//!
//! - [`FourSenders`]: `send_rows`, and `burst_of_rows`, what is sent for a burst
//! - [`FourReceivers`]: `hear_rows`
#![tactic(auto)]

mod hearing;
mod joining;
mod laws;
mod sending;

pub use hearing::{FourReceivers, hear_rows};
pub use laws::{lanes_are_sent_side_by_side, late_lanes_are_joined};
pub use sending::{FourSenders, burst_of_rows, send_rows};
