//! Packets of RapidIO serial links (RapidIO Interconnect Specification 1.3, Part 6): a packet is
//! built from its fields, or read from the bytes of a link, in the one form in which it stands on a
//! link. That form has one CRC of sixteen bits or two, and is a multiple of four bytes long.
//!
//! - [`Packet`] is such a form with the ackID taken as 0. Contracts see it as the list of its
//!   bytes, at most [`MAX_BYTES`].
//! - [`Header`] and [`build`] make one, with device IDs of 8 or of 16 bits; [`BadLength`] says that
//!   its data does not fit, of which there are at most [`max_rest`] bytes.
//! - [`check`] reads bytes of a link, and [`Cause`] says why they are no packet.
//! - [`body_has_one_form`] and its six neighbours are laws: each states what holds of all bytes,
//!   and does nothing.
//!
//! Left out: control symbols and framing, and what is behind the IDs of a packet, but for the hop
//! count of maintenance packets. No call takes memory.
#![tactic(auto)]

mod building;
mod cause;
mod crc;
mod fields;
mod laws;
mod making;
mod packet;
mod receive;
mod tables;

pub use building::Building;
pub use cause::{Cause, cause_number};
pub use laws::{
    body_has_one_form, built_fields_are_read_back, carried_is_exact, crc16_table_has_remainders,
    longest_rest, lowered_is_one, one_byte_is_seen, register_tells_forms,
};
pub use making::{BadLength, Header, build, max_rest};
pub use packet::{MAX_BYTES, Packet};
pub use receive::check;
pub use tables::CRC16_TABLE;

#[cfg(test)]
mod tests;
