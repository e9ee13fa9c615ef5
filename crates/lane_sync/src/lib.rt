//! A lane's receiver: in sync or out of sync, and what it hears.
//!
//! Promised: out of sync no group is heard as a character; so many commas with no invalid group
//! between them bring sync; the third invalid group loses it, but 255 valid ones in a row make up
//! for one; in sync each group is heard as the code has it. A lane in sync hears what is sent to
//! it. Left out: where groups begin in bits, and what is sent.
//!
//! - [`LaneState`]: [`LaneOut`] or [`LaneIn`], each with the groups that it may hear; `hear_all`
#![tactic(auto)]

mod lane;
mod laws;

pub use lane::{LaneIn, LaneOut, LaneState, LaneStep, hear_all};
pub use laws::{in_sync_what_is_sent_is_heard, the_first_comma_brings_sync};
