//! Why a line of a trace is not lawful, in words.
//!
//! Promised: what each reason means; what would have been lawful at a line, as `trace_check` tells
//! it; and what is said of a text that is no line of a trace is so of it. Left out: which line is
//! not lawful, and for which reason.
//!
//! - `trace_reason`: what a reason means
//! - `push_hint`: what would have been lawful, or which need of a step is not met
//! - `push_form`: what is to blame in a line that has no form, or is none
#![tactic(auto)]

mod finding;
mod forms;
mod hints;
mod kinds;
mod misfit_texts;
mod misfits;
mod needs;
mod packet_words;
mod reasons;
mod words;

pub use forms::push_form;
pub use hints::push_hint;
pub use reasons::trace_reason;
