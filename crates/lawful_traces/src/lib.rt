//! What is written of a fabric is lawful as a text, too: laws above the checker of traces.
//!
//! Promised: the texts of the lines of every trace of a script spell these lines as the checker
//! demands, and no reason hits one of them. So the checker finds each trace that is replayed
//! lawful.
//!
//! Left out: that bytes are parted into such texts, which is a premise.
//!
//! - `specs/Knowing.antt` says what is known of a script behind its set-up lines, and
//!   `specs/Texts.antt` the laws.
//! - [`traces_are_lawful`] is the law of traces, and [`inputs_of_traces_are_lawful`] that of the
//!   bytes of an input.
#![tactic(auto)]

mod laws;

pub use laws::{inputs_of_traces_are_lawful, traces_are_lawful};
