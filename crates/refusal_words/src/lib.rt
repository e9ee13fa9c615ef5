//! Why a line of a script is refused, in words.
//!
//! Promised: what is said of a line is so of its text, and a line is shown by its first bytes, as a
//! terminal prints them. Left out: which line is refused, and for which reason.
//!
//! - `script_reason`, `set_up_reason`: what a reason means, of a script and of set-up lines alone
//! - `push_why`: what in a line is to blame, or what its reason means
//! - `push_plain`: what is to blame in a line of any language; `push_advice`, `push_kind`: what of its
//!   words is, and how one is spelled
//! - `write_refusal`: the line of a refusal
//! - `push_excerpt`, `push_shown`: the first bytes of a line
//! - `push_number`: a number in decimal digits
#![tactic(auto)]

mod advising;
mod blame;
mod citing;
mod reasons;

pub use advising::{push_advice, push_kind, push_number, push_plain, push_why};
pub use citing::{push_excerpt, push_shown, write_refusal};
pub use reasons::{script_reason, set_up_reason};
