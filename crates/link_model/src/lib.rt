//! Definitions of the link layer of RapidIO (RapidIO Interconnect Specification 1.3, Part 6): what
//! the characters of a link say, how many packets may be outstanding, the control symbols that a
//! port sends, and the step tables of the output and the input half of a port. The tables stand in
//! `specs`, one clause for each entry; the code has what bodies need of them.
//!
//! Left out: the framer, the states as types, and stores of packets.
//!
//! - [`Event`] is what a list of characters says: control symbols, packets, and what is neither.
//! - [`CharKind`], [`char_kind`] and [`Pending`] are the words of the reading of characters.
//! - [`one_reading`], [`reading_in_pieces`], [`one_character_tells_at_most_two`],
//!   [`packet_in_progress_is_bounded`], [`events_go_by_fronts`], [`spelling_is_read`] and
//!   [`event_laws`] state what holds of every reading; the calls do nothing.
//! - [`WINDOW`]: the most packets that are outstanding
//! - [`packet_accepted`] and the like: the control symbols that a port sends
//! - [`Report`]: what a port tells of its free receive buffers; [`has_credit`]: what may start by
//!   it
//! - [`PortStatus`]: what a link-response tells of the input
#![tactic(auto)]

mod event;
mod reading_kinds;
mod reading_laws;
mod reports;
mod symbols;
#[cfg(test)]
mod tests;
mod window;

pub use event::Event;
pub use reading_kinds::{CharKind, Pending, char_kind};
pub use reading_laws::{
    event_laws, events_go_by_fronts, one_character_tells_at_most_two, one_reading,
    packet_in_progress_is_bounded, reading_in_pieces, spelling_is_read,
    spelling_is_read_from_any_place,
};
pub use reports::{Report, has_buffer_status, has_credit, report_base};
pub use symbols::{
    PortStatus, UNTOLD, end_of_packet, link_request, link_response, packet_accepted,
    packet_not_accepted, packet_retry, restart_from_retry, start_of_packet, status,
};
pub use window::{WINDOW, window_of_the_tables};
