//! Lines of devices that are no part of a fabric, and of the ports of the fabric beside them.
//!
//! Promised: a text is read as the line that its words are, or it is refused for one reason, or it
//! is none of these lines.
//!
//! Left out: what comes of a line.
//!
//! - [`Facing`]: a port of a device, and the port of the fabric beside it
//! - [`OutsideLine`] and `read_outside`: the lines
#![tactic(auto)]

mod facing;
mod reading;

pub use facing::Facing;
pub use reading::{OutsideLine, read_outside};
