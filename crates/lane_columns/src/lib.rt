//! Characters over four lanes (RapidIO Interconnect Specification 1.3, Part 6): columns of four.
//!
//! The crate has no running code. `specs` has the definitions: `Columns`, what is striped over four
//! lanes, and `Skews`, lanes that are heard from different columns on. The functions state the
//! laws, as contracts of empty bodies.
#![tactic(auto)]

mod laws;

pub use laws::{skew_is_undone, striping_is_undone};
