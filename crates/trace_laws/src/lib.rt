//! Laws that join the traces of a fabric to runs of its links.
//!
//! Promised: what the lines of a trace do at a link is a run of the machine of that link, by its
//! calls and the layer above. So what is a law of whole runs of a link holds of traces: a port that
//! tells its free buffers, and was heard in time, asks for no packet again.
//!
//! Left out: lines behind an event that was not sent, of which no link is spoken.
//!
//! - `specs/LinksRun.antt` says that links run, `specs/Retries.antt` which lines ask for a packet
//!   again, and `specs/ActedSent.antt` that all that is acted on was sent.
//! - [`links_of_traces_run`], [`told_in_time_asks_none_again`] and [`what_is_acted_on_was_sent`]
//!   are the laws, and [`laws_of_runs_can_fail`] has lines of which they do not hold.
#![tactic(auto)]

mod examples;
mod laws;

pub use examples::laws_of_runs_can_fail;
pub use laws::{links_of_traces_run, told_in_time_asks_none_again, what_is_acted_on_was_sent};
