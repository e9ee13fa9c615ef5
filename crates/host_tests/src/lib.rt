//! Maintenance packets, the devices that answer them, and a host that numbers a ring over links
//! whose wires are changed, as tests: each tries public calls of `fabric_maint` and of crates below
//! it. The expected values are worked by hand, or come from outside code.
//!
//! They stand apart from the crates that they try, since the prover takes the code of a crate once
//! more with the tests that stand in it.
#![tactic(auto)]

#[cfg(test)]
mod asks;
#[cfg(test)]
mod noise;
#[cfg(test)]
mod packets;
#[cfg(test)]
mod switches;
