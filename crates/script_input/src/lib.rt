//! An input in two parts: set-up lines of a fabric, and behind a line `---` lines of another kind.
//!
//! Promised: where the parts begin and end, what is known behind the set-up lines, and which inputs
//! are refused before anything is looked at behind them. An input has one reading, or one refusal,
//! and not both. What the lines behind mean is left to the crates above.
//!
//! - [`split_input`] parts the bytes, [`next_line`] takes one line after another, and
//!   [`count_lines`] counts them; none takes memory;
//! - [`unparted`] is the refusal if there is no line `---`;
//! - [`one_input`], [`one_input_refusal`] and [`input_or_refusal`] are laws: each states what holds
//!   of all inputs, and does nothing.
#![tactic(auto)]

mod laws;
mod splitting;

pub use laws::{input_or_refusal, one_input, one_input_refusal};
pub use splitting::{count_lines, next_line, split_input, unparted};
