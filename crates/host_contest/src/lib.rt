//! Two hosts that contest a fabric: both number it during the same time, one access a turn
//! (RapidIO Interconnect Specification 1.3, Part 3, host device lock and enumeration; which host
//! waits and which retreats is this project's profile).
//!
//! Promised: each turn of a walker is exactly that of the machine of `contest_machine`, so its laws
//! hold of every list of turns: no device is kept by both, and the host with the greater ID holds
//! on if no lock was set at first. Whoever carries the accesses, as packets do, it is the same.
//!
//! Left out: that each access reaches a device and comes back. It is a condition, which
//! `contest_machine` shows to hold.
//!
//! - [`Walker`] is one of the hosts. It makes turns over a `Maint`, answers what came of each, and
//!   has the map once it is done.
//! - `machine` is what a walker knows and asks, `reaching` makes an access, `hearing` and `taking`
//!   are what it does with an answer, `steps` its turns, and `writes` what it has still to write.
#![tactic(auto)]

mod hearing;
mod machine;
mod reaching;
mod steps;
mod taking;
mod values;
mod walker;
mod writes;

pub use walker::Walker;
