//! A link: two wires between two ports, which the caller owns.
//!
//! Promised: what each call does to the wires and the ports, what it notes, in order, and what it
//! answers, is exactly what the definitions say. Two ports that are sound stay sound, whatever is
//! lost, altered, inserted or late on the wires, up to the first event that is acted on and was not
//! sent. Settling brings a sound link to rest, by its own loops. Only `Link::new` and `length` are
//! promised to take no memory.
//!
//! Left out: that a corruption is detected, and that a packet arrives on a link that is not
//! settled.
//!
//! - [`Link`]: `pump`, `deliver`, `edit`, `time_out` and `settle`; and `has_no_work`, which says
//!   whether any of this is to be done
//! - [`LinkEnd`] and [`Fired`]: why a delivery or settling ended, and what came of a time-out; the
//!   other answers are those of `link_wires` and `link_watch`
//!
//! What each call does and notes is defined in `link_machine`, with its law, and so is the schedule
//! of settling. `specs` has what the calls answer, `Answers`; what a call does of a part of the
//! schedule, `Does`; `Carried`, what a delivery told; and `Resting`, which link has nothing to do.
#![tactic(auto)]

mod answers;
mod deliveries;
mod draining;
mod link;
mod port_states;
mod settling;
mod telling;
mod wires;

pub use answers::{Fired, LinkEnd};
pub use link::Link;
