//! Every text is a script or is refused, and every line is spelled or hit by a least reason.
//!
//! The crate has no running code. Definitions are those of `fabric_script`, whose laws say that a
//! text is never both. The functions here state, as contracts of empty bodies, that it is never
//! neither: so the language leaves no text open. So it is of inputs with a line `---`, which
//! `script_input` defines.
//!
//! Left out: want of memory, and which of the two a text is, which `fabric_script` answers.
#![tactic(auto)]

mod laws;

pub use laws::{
    every_input_is_parted_or_refused, every_line_is_spelled_or_refused,
    every_text_is_a_script_or_refused,
};
