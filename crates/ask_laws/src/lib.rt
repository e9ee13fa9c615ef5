//! Where the packet of an ask is behind it: laws above those of `fabric_ask`.
//!
//! Promised: behind an ask the one packet has come to the host, or it waits at a port without a
//! link, or no packet is in the network. So of an ask without a response it is known where the
//! packet is.
//!
//! Left out: which of these it is, which the route tables say (`fabric_ask`).
//!
//! - `specs/Ended.antt` says what an ask ends as.
//! - [`asks_end_somewhere`] is the law.
#![tactic(auto)]

mod laws;

pub use laws::asks_end_somewhere;
