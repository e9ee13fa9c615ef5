//! The lines of a trace as values.

use crate::boxed::Boxed;
use fabric_script::{Line, PortRef};
use link_model::Event;
use rio_chars::Char;
use rio_packets::Packet;

/// A step of the plain network. A packet is in its link form.
#[derive(Drop)]
pub enum NetworkStep {
    /// A port holds a packet that its peer sent.
    Hold(PortRef, Packet),
    /// A port frees a packet that its peer holds.
    Free(PortRef, Packet),
    /// An endpoint takes a packet to be sent.
    Take(u8, Packet),
    /// A packet leaves the fabric at an endpoint.
    Leave(u8, Packet),
    /// A switch moves a packet from one port to another.
    Move(PortRef, PortRef, Packet),
    /// A switch drops a packet.
    Drop(PortRef, Packet),
    /// The registers of a node answer the first packet with the second.
    Answer(PortRef, Packet, Packet),
}

/// Why nothing could be done.
#[derive(Clone, Copy)]
pub enum Lack {
    /// No room for a packet to be sent.
    Full,
    /// Nothing is held.
    Empty,
    /// A wire has too few characters.
    Short,
    /// A wire of the link is not empty.
    Early,
    /// No packet of a switch can go.
    NoStep,
}

/// A line of a trace.
#[derive(Drop)]
pub enum TraceLine {
    /// An event of the script begins.
    Begun(Line),
    /// A step of the network.
    Stepped(Boxed<NetworkStep>),
    /// A port put characters on its wire.
    Sent(PortRef, Vec<Char>),
    /// A port took characters from its peer's wire.
    Got(PortRef, Vec<Char>),
    /// The time-out of a port fired.
    Fired(PortRef),
    /// An event found nothing to do.
    Lacked(Lack),
    /// The trace ends.
    Ended,
    /// The trace ends with the script's line, the port and the event that was not sent.
    Undetected(u32, PortRef, Boxed<Event>),
}
