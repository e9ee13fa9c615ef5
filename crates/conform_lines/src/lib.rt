//! The lines of a scenario, by which a device is asked, and the answers that the tables give.
//!
//! Promised: a line stands for characters of the wire, good or bad, or it is a line of a port as it
//! is. The answer that a device has to give is not written in a scenario: it is that of the tables,
//! at the state where a port stands that was asked the lines before.
//!
//! Left out: where a device is, and where its answers come from.
//!
//! - `read_stimulus`: what a line asks of a device; `write_stimulus`: the line that it is asked
//! - `expect`: the answer that the tables give
//! - `write_said`: what an answer says, in the words of a scenario
//! - [`Judge`]: whether an answer may differ from it; [`leeway_of`]: what a line bears on that
#![tactic(auto)]

mod counting;
mod expected;
mod items;
mod judging;
mod laws;
mod saying;
mod stimuli;
mod symbols;

pub use counting::Counted;
pub use expected::expect;
pub use judging::{Judge, Leeway, Owed, leeway_of};
pub use laws::{
    a_stimulus_is_read_as_its_request, allowed_answers_send_the_same, right_answers_are_allowed,
    stimuli_are_read_once,
};
pub use saying::write_said;
pub use stimuli::{read_stimulus, write_stimulus};
