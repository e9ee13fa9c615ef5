//! Scripts that are printed, lines that are explained, and lines that are written, as tests: each
//! tries public calls of `fabric_script` or `trace_lines`. The expected values are worked by hand,
//! or come from outside code.
//!
//! They stand apart from the crates that they try, since the prover takes the code of a crate once
//! more with the tests that stand in it.
#![tactic(auto)]

#[cfg(test)]
mod advice;
#[cfg(test)]
mod begun;
#[cfg(test)]
mod lines;
#[cfg(test)]
mod scripts;
#[cfg(test)]
mod soak;
