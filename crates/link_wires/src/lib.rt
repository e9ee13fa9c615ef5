//! One way of a link: the characters on it, and the events that were sent on it and that no acted
//! event has met.
//!
//! Promised: what a port sends in its turns, or tells of its free buffers, goes to the end,
//! characters and events alike. A delivery is the reading of the characters led through the step
//! tables, one event after another; each event that is acted on must be one that was sent, and such
//! events are found exactly where they were sent in this order. An edit changes characters alone,
//! and nothing where it does not lie within them. Taking from the front costs what is taken,
//! appending what is appended, and an edit what stands between it and the nearest of the last edit
//! and both ends.
//!
//! Left out: the other way of the link, and what is noted for whoever watches.
//!
//! - [`Wire`]: one way, with `pump`, `tell`, `reply`, `deliver`, `edit` and `silence`
//! - [`Delivery`] and [`Move`]: what came of characters that a port took
//! - [`UndetectedEvent`]: an event that a port acted on and that was not sent
//! - [`Edited`]: what came of a change of the characters
//! - [`Chars`]: characters as a wire has them, first in first out
//! - [`acted_events_are_sent_ones`], [`deliveries_go_by_pieces`] and
//!   [`a_delivery_acts_on_what_was_sent`]: laws; the calls do nothing
//!
//! `specs` has the definitions: `Kept`, which events are found; `Deliveries`, what a port does with
//! characters; and `Wires`, what the calls of a wire do. `Heads` says which events are kept as
//! heads and bytes.
#![tactic(auto)]

mod came;
mod chars;
mod deliveries;
mod edits;
mod kept;
mod laws;
mod moves;
mod pumps;
mod queue;
mod sends;
mod undetected_event;
mod wire;

pub use came::Delivery;
pub use chars::Chars;
pub use edits::Edited;
pub use laws::{
    a_delivery_acts_on_what_was_sent, acted_events_are_sent_ones, deliveries_go_by_pieces,
};
pub use moves::Move;
pub use undetected_event::UndetectedEvent;
pub use wire::Wire;
