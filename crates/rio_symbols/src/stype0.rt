//! The values of stype0: what a symbol tells the sender of packets (RapidIO Interconnect
//! Specification 1.3, Part 6, "Stype0 Control Symbols"). 3 and 5 are reserved, and 7 is for an
//! implementation's own use.

/// The receiver has taken the packet with the ackID in parameter0.
pub const PACKET_ACCEPTED: u8 = 0;

/// The receiver has no room for the packet with the ackID in parameter0, which has to be sent
/// again.
pub const PACKET_RETRY: u8 = 1;

/// The receiver met an error, whose cause stands in parameter1.
pub const PACKET_NOT_ACCEPTED: u8 = 2;

/// The ackID that is expected next, and the free buffers.
pub const STATUS: u8 = 4;

/// The answer to a link-request: the ackID that is expected next, and the state of the port.
pub const LINK_RESPONSE: u8 = 6;
