//! The values of stype1: what a symbol tells the receiver of packets (RapidIO Interconnect
//! Specification 1.3, Part 6, "Stype1 Control Symbols"). 6 is reserved.

/// A packet begins. One that is in progress ends here.
pub const START_OF_PACKET: u8 = 0;

/// The packet in progress is to be forgotten.
pub const STOMP: u8 = 1;

/// The packet in progress ends here.
pub const END_OF_PACKET: u8 = 2;

/// What was refused by packet-retry is sent from here on again.
pub const RESTART_FROM_RETRY: u8 = 3;

/// A request, which the field cmd names.
pub const LINK_REQUEST: u8 = 4;

/// A multicast-event.
pub const MULTICAST_EVENT: u8 = 5;

/// Nothing is told.
pub const NOP: u8 = 7;
