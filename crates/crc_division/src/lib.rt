//! Long division of bits by a polynomial, of which the CRCs of control symbols and of packets are
//! remainders.
//!
//! The crate has no running code. `specs` has the definitions: `Bits`, numbers as lists of bits,
//! and `Division`. The functions state their laws, as contracts of empty bodies.
#![tactic(auto)]

mod laws;

pub use laws::{bits_spell_numbers, remainders_are_short, sums_are_exclusive_ors, worked_division};
