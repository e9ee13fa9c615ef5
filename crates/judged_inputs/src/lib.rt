//! Every input of a check of traces is judged: a law above the checker.
//!
//! Promised: bytes, however many, are a lawful input, or have a first line that a reason hits, or
//! are refused for their set-up lines. With the laws of `check_laws` they are exactly one of these.
//!
//! Left out: how the checker finds it, and memory.
//!
//! - `specs/Judged.antt` says the law, [`every_input_is_judged`].
#![tactic(auto)]

mod laws;

pub use laws::every_input_is_judged;
