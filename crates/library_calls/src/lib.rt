//! An open port and an open fabric: what the calls of the C library do, but for what C holds.
//!
//! Promised: a call tells exactly what the port or the fabric that it wraps does, writes within the
//! room that it is given, and says by its status what was not done. An argument out of range
//! changes nothing. If memory is refused, the status says what stands.
//!
//! Left out: handles, and what C owes.
//!
//! - [`OpenPort`]: lines, characters, turns, clocks, packets and the state of a port
//! - [`OpenFabric`]: lines of a fabric, asks of its registers, and what its nodes do with their own
//! - [`CallStatus`]: what a call answers; [`call_number`]: its number
//! - [`CharDid`], [`RunDid`], [`ClocksTold`], [`PacketHeader`], [`StateTold`], [`RegisterAsk`],
//!   [`OwnAccess`], [`RegisterReply`]: what is passed and told
#![tactic(auto)]

mod checks;
mod clocks;
mod fabric_asks;
mod fabric_own;
mod laws;
mod open_fabric;
mod open_port;
mod port_chars;
mod port_packets;
mod readings;
mod rooms;
mod runs;
mod status;
mod texts;
mod told;
mod wires;
mod words;

pub use checks::OpenChecker;
pub use laws::{numbers_are_characters, written_words_are_read};
pub use open_fabric::OpenFabric;
pub use open_port::OpenPort;
pub use readings::decode;
pub use status::{CallStatus, call_number};
pub use told::{
    CharDid, ClocksTold, EventTold, HitTold, OwnAccess, PacketHeader, PacketTold, ReadingTold,
    RegisterAsk, RegisterReply, RunDid, StateTold, SymbolTold,
};
pub use wires::{char_wire, wire_char};
pub use words::{read_packet, read_symbol, write_packet, write_symbol};
