//! What framers, the halves of a port, ports and links answer, as tests: each tries public calls of
//! a crate below that no program makes, or not in this way. The expected values are worked by hand,
//! or come from outside code. What a program shows of ports and links is a case of `tests/`.
//!
//! They stand apart from the crates that they try, since the prover takes the code of a crate once
//! more with the tests that stand in it.
#![tactic(auto)]

#[cfg(test)]
mod framer;
#[cfg(test)]
mod plain_ports;
#[cfg(test)]
mod port_runs;
#[cfg(test)]
mod receiver;
#[cfg(test)]
mod watches;
