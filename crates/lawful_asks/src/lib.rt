//! What a host writes of its asks is a lawful trace: a law above the checker of traces.
//!
//! Promised: the texts of the lines of a host's asks over a fabric, with `end` behind them, are a
//! lawful trace, of as many steps as the lines have.
//!
//! Left out: asks whose wires meet edits.
//!
//! - `specs/AskTexts.antt` says the laws, [`asks_are_lawful`] and [`inputs_of_asks_are_lawful`].
#![tactic(auto)]

mod laws;

pub use laws::{asks_are_lawful, inputs_of_asks_are_lawful};
